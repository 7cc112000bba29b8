//! Lists of numbers.

ghost use Rattle.std.specs.Prelude.{◌≡◌, ◌++◌, Some, map, length, OnOk, IfOk, IfErr};
ghost use Rattle.serde_json.specs.View.{view};
ghost use Rattle.flame_xmml.specs.ValueParts.{members};
ghost use Rattle.flame_spec.specs.FirstFaults.{FailsFirst, Passes};
ghost use Rattle.flame_popfile.specs.PopulationParts.{number_of, numbers_of};
ghost use Rattle.flame_popfile.specs.PopulationParts.{each_member, int_faults, ints_faults, variable_faults};
ghost use Rattle.flame_xmml.specs.ValuePlaces.{path_of};

use crate::faults::{PopFault, PopKind};
use crate::numbers::{int_at, number_of};
use crate::parts::fault;
use flame_rows::{Fail, NoMemory};
use flame_xmml::{Place, members};
use serde_json::Value;
use std::alloc::Global;

/// The members of the list at a place, of which there are exactly so many.
pub(crate) fn counted<'v>(
    alloc: Global,
    place: &Place<'_>,
    count: usize,
    value: &'v Value,
) -> Result<&'v [Value], Fail<PopFault>>
    ensures members { IfOk result (λ values. members (view value.now) ≡ Some (map view values.now)) }
    ensures count { IfOk result (λ values. length values.now ≡ count) }
    ensures fault { IfErr result (FailsFirst (ints_faults count (path_of place.now) (view value.now))) }
{
    let Some(values) = members(value) else {
        return Err(fault(alloc, place, PopKind::Shape));
    };
    if values.len() == count {
        Ok(values)
    } else {
        Err(fault(alloc, place, PopKind::Shape))
    }
}

/// Adds the numbers of the list at a place, which has exactly so many.
pub(crate) fn add_ints(
    alloc: Global,
    place: &Place<'_>,
    count: usize,
    value: &Value,
    row: &mut Vec<i32>,
) -> Result<(), Fail<PopFault>>
    ensures passes { Passes (ints_faults count (path_of place.now) (view value.now)) result }
    ensures added { OnOk result (row.new.items ≡ row.old.items ++ numbers_of count (view value.now)) }
{
    let values = counted(alloc, place, count, value)?;
    add_each_int(alloc, place, values, row)
}

/// Adds the numbers that these members of the list at a place are.
fn add_each_int(
    alloc: Global,
    place: &Place<'_>,
    values: &[Value],
    row: &mut Vec<i32>,
) -> Result<(), Fail<PopFault>>
    ensures passes { Passes (each_member int_faults (path_of place.now) (map view values.now)) result }
    ensures added { OnOk result
        (row.new.items ≡ row.old.items ++ map number_of (map view values.now)) }
{
    for (number, value) in values.iter().enumerate() {
        row.push(int_at(alloc, &Place::Member(place, number), value)?)?;
    }
    Ok(())
}

/// Passes where the value at a place is that of a variable without a length, or of this length.
pub(crate) fn variable_at(
    alloc: Global,
    place: &Place<'_>,
    length: Option<u32>,
    value: &Value,
) -> Result<(), Fail<PopFault>>
    ensures { Passes (variable_faults length (path_of place.now) (view value.now)) result }
{
    match length {
        Some(length) => {
            let values = counted(alloc, place, length as usize, value)?;
            each_int(alloc, place, values)
        }
        None => {
            int_at(alloc, place, value)?;
            Ok(())
        }
    }
}

/// Passes where these members of the list at a place are whole numbers of int.
fn each_int<'p>(alloc: Global, place: &'p Place<'p>, values: &[Value]) -> Result<(), Fail<PopFault>>
    ensures { Passes (each_member int_faults (path_of place.now) (map view values.now)) result }
{
    for (number, value) in values.iter().enumerate() {
        int_at(alloc, &Place::Member(place, number), value)?;
    }
    Ok(())
}
