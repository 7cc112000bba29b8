//! What the members of the agents hold.

ghost use Rattle.std.specs.Prelude.{◌≡◌, ◌++◌, ℕ, List, codes, map, option_map, IfOk, OnOk};
ghost use Rattle.std.specs.HashMap.{get_by_text};
ghost use Rattle.serde_json.specs.View.{view};
ghost use Rattle.flame_xmml.specs.ValueParts.{part, members};
ghost use Rattle.flame_xmml.specs.ValueData.{data_of};
ghost use Rattle.flame_popfile.specs.PopulationParts.{number_of, numbers_of, zeros, variable_numbers, members_of};
ghost use Rattle.flame_popfile.specs.PopulationParts.{optional, each_member, ints_faults, called};
ghost use Rattle.flame_popfile.specs.PopulationFaults.{memory_faults, rows_faults};
ghost use Rattle.flame_popfile.specs.PopulationAgents.{memory_of};
ghost use Rattle.flame_xmml.specs.ValuePlaces.{path_of};
ghost use Rattle.flame_spec.specs.FirstFaults.{Reads, Passes};

use crate::entries::entries;
use crate::faults::{PopFault, PopKind};
use crate::lists::add_ints;
use crate::numbers::number_of;
use crate::parts::fault;
use crate::tables::Lengths;
use flame_rows::{Fail, NoMemory, Row};
use flame_spec::Variable;
use flame_xmml::{Place, members, part};
use serde_json::Value;
use std::alloc::Global;

// ---- version 1: the memory of one agent

/// Passes where the memory of the agent at a place, if it is there, is an object of these variables, whose lengths the table
/// has.
pub(crate) fn memory_at(
    alloc: Global,
    lengths: &Lengths,
    variables: &[Variable],
    place: &Place<'_>,
    value: &Value,
) -> Result<(), Fail<PopFault>>
    requires { (name : List ℕ)
        → get_by_text lengths.now name
        ≡ option_map (λ variable. variable.length) (called (λ variable. variable.name) variables.now name) }
    ensures { Passes
        (optional (memory_faults variables.now) (codes "memory") (path_of place.now) (view value.now))
        result }
{
    match part(value, "memory") {
        Some(found) => known_memory(
            alloc,
            lengths,
            variables,
            &Place::Key(place, "memory"),
            found,
        ),
        None => Ok(()),
    }
}

/// Passes where the value at a place is an object of these variables, whose lengths the table has.
fn known_memory(
    alloc: Global,
    lengths: &Lengths,
    _variables: &[Variable],
    place: &Place<'_>,
    value: &Value,
) -> Result<(), Fail<PopFault>>
    requires { (name : List ℕ)
        → get_by_text lengths.now name
        ≡ option_map (λ variable. variable.length) (called (λ variable. variable.name) _variables.now name) }
    ensures { Passes (memory_faults _variables.now (path_of place.now) (view value.now)) result }
{
    entries(alloc, lengths, PopKind::UnknownVariable, place, value)
}

/// The numbers of a memory with these variables.
pub(crate) fn memory_of(
    alloc: Global,
    variables: &[Variable],
    memory: Option<&Value>,
) -> Result<Row, NoMemory>
    ensures { IfOk result (λ row. row ≡ memory_of variables.now (data_of memory.entry)) }
{
    let mut row = Vec::new(alloc);
    for variable in variables {
        let value = named_in(memory, variable.name.as_str());
        add_variable(variable.length, value, &mut row)?;
    }
    Ok(Row::of(row))
}

/// What stands at a name of a memory.
pub(crate) fn named_in<'v>(memory: Option<&'v Value>, name: &str) -> Option<&'v Value>
    ensures { data_of result ≡ part name.now (data_of memory.entry) }
{
    part(memory?, name)
}

/// Adds the numbers of a variable without a length, or of this length.
fn add_variable(
    length: Option<u32>,
    value: Option<&Value>,
    row: &mut Vec<i32>,
) -> Result<(), NoMemory>
    ensures { OnOk result
        (row.new.items ≡ row.old.items ++ variable_numbers length (data_of value.entry)) }
{
    match length {
        Some(length) => add_array(length as usize, value, row),
        None => {
            row.push(single(value))?;
            Ok(())
        }
    }
}

/// The number of a variable; 0 where it is missing.
pub(crate) fn single(value: Option<&Value>) -> i32
    ensures { result ≡ number_of (data_of value.entry) }
{
    match value {
        Some(found) => number_of(found),
        None => 0,
    }
}

/// Adds the numbers of an array of this length; all are 0 where it is missing.
fn add_array(length: usize, value: Option<&Value>, row: &mut Vec<i32>) -> Result<(), NoMemory>
    ensures { OnOk result (row.new.items ≡ row.old.items ++ numbers_of length (data_of value.entry)) }
{
    match list_in(value) {
        Some(values) => add_numbers(values, row),
        None => add_zeros(length, row),
    }
}

/// The members of a list that may be missing.
fn list_in(value: Option<&Value>) -> Option<&[Value]>
    ensures { option_map (λ values. map view values.now) result ≡ members (data_of value.entry) }
{
    members(value?)
}

/// Adds the numbers that these values are, 0 for each that is none.
fn add_numbers(values: &[Value], row: &mut Vec<i32>) -> Result<(), NoMemory>
    ensures { OnOk result (row.new.items ≡ row.old.items ++ map number_of (map view values.now)) }
{
    for value in values {
        row.push(number_of(value))?;
    }
    Ok(())
}

/// Adds so many zeros.
pub(crate) fn add_zeros(count: usize, row: &mut Vec<i32>) -> Result<(), NoMemory>
    ensures { OnOk result (row.new.items ≡ row.old.items ++ zeros count) }
{
    for _turn in 0..count {
        row.push(0)?;
    }
    Ok(())
}

// ---- version 2: the rows of all agents of a type

/// Adds the rows of the member at a place, which are of this width.
pub(crate) fn add_rows_at(
    alloc: Global,
    wide: usize,
    place: &Place<'_>,
    value: &Value,
    rows: &mut Vec<Row>,
) -> Result<(), Fail<PopFault>>
    ensures passes { Passes
        (optional (rows_faults wide) (codes "rows") (path_of place.now) (view value.now))
        result }
    ensures added { OnOk result (rows.new.items
        ≡ rows.old.items ++ map (numbers_of wide) (members_of (part (codes "rows") (view value.now)))) }
{
    match part(value, "rows") {
        Some(found) => add_rows(alloc, wide, &Place::Key(place, "rows"), found, rows),
        None => Ok(()),
    }
}

/// Adds the rows of the list at a place, which are of this width.
fn add_rows(
    alloc: Global,
    wide: usize,
    place: &Place<'_>,
    value: &Value,
    rows: &mut Vec<Row>,
) -> Result<(), Fail<PopFault>>
    ensures passes { Passes (rows_faults wide (path_of place.now) (view value.now)) result }
    ensures added { OnOk result
        (rows.new.items ≡ rows.old.items ++ map (numbers_of wide) (members_of (view value.now))) }
{
    match members(value) {
        Some(values) => add_each_row(alloc, wide, place, values, rows),
        None => Err(fault(alloc, place, PopKind::Shape)),
    }
}

/// Adds the rows that these members of the list at a place are.
fn add_each_row(
    alloc: Global,
    wide: usize,
    place: &Place<'_>,
    values: &[Value],
    rows: &mut Vec<Row>,
) -> Result<(), Fail<PopFault>>
    ensures passes { Passes
        (each_member (ints_faults wide) (path_of place.now) (map view values.now))
        result }
    ensures added { OnOk result
        (rows.new.items ≡ rows.old.items ++ map (numbers_of wide) (map view values.now)) }
{
    for (number, value) in values.iter().enumerate() {
        rows.push(row_at(alloc, wide, &Place::Member(place, number), value)?)?;
    }
    Ok(())
}

/// The row at a place, which is of this width.
fn row_at(
    alloc: Global,
    wide: usize,
    place: &Place<'_>,
    value: &Value,
) -> Result<Row, Fail<PopFault>>
    ensures { Reads
        (ints_faults wide (path_of place.now) (view value.now))
        (numbers_of wide (view value.now))
        result }
{
    let mut row = Vec::new(alloc);
    add_ints(alloc, place, wide, value, &mut row)?;
    Ok(Row::of(row))
}
