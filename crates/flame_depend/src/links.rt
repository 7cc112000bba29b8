//! For each function the functions that it stands before.

ghost use Rattle.std.specs.Prelude.{◌≡◌, ℕ, List, [], ◌^◌, ◌<◌, ◌==◌, ◌&&◌, ◌||◌, true, IfOk, OnOk, length, map, slice_index_or};
ghost use Rattle.std.specs.List.{list_any};
ghost use Rattle.std.specs.Str.{bytes_eq};
ghost use Rattle.flame_spec.specs.Below.{is_in};
ghost use Rattle.flame_spec.specs.Before.{before_among};
ghost use Rattle.flame_depend.specs.PlacedFunctions.{shown};
ghost use Rattle.flame_depend.specs.FunctionTables.{listed};
ghost use Rattle.flame_depend.specs.Links.{IsAdding, AreEntering, AreOfTypes, is_linked};
ghost use Rattle.flame_graph.specs.Graph.{AreSuccessors};
ghost use Rattle.flame_graph.specs.Marks.{marked_where};

use crate::place::Placed;
use crate::table::{Table, note, under};
use flame_graph::{Successors, empty_lists};
use flame_rows::{NoMemory, Text};
use std::alloc::Global;
use std::collections::HashMap;

/// Notes the function under each of the names.
fn note_all(alloc: Global, table: &mut Table, names: &[Text], function: u32) -> Result<(), NoMemory>
    ensures { OnOk result (
        (q : List ℕ) (f : ℕ)
        → is_in f (listed table.new q)
        ≡ (is_in f (listed table.old q) || ((function == f) && list_any (bytes_eq q) names.now))) }
{
    for name in names {
        note(alloc, table, name.as_str(), function)?;
    }
    Ok(())
}

/// For each message the functions that add it.
fn adding(alloc: Global, places: &[Placed<'_>]) -> Result<Table, NoMemory>
    requires { length places.now < 2 ^ 32 }
    ensures { IfOk result (IsAdding (map shown places.now)) }
{
    let mut table: Table = HashMap::new(alloc);
    for (i, place) in places.iter().enumerate() {
        note_all(alloc, &mut table, place.function.outputs.items(), i as u32)?;
    }
    Ok(table)
}

/// A table without names for each of these types.
fn empty_tables(alloc: Global, types: usize) -> Result<Vec<Table>, NoMemory>
    ensures { IfOk result (λ tables. AreEntering types [] tables.items) }
{
    let mut tables: Vec<Table> = Vec::new(alloc);
    for _turn in 0..types {
        tables.push(HashMap::new(alloc))?;
    }
    Ok(tables)
}

/// For each type, for each state the functions of the type that enter it.
fn entering(alloc: Global, types: usize, places: &[Placed<'_>]) -> Result<Vec<Table>, NoMemory>
    requires few { length places.now < 2 ^ 32 }
    requires within { AreOfTypes types (map shown places.now) }
    ensures { IfOk result (λ tables. AreEntering types (map shown places.now) tables.items) }
{
    let mut tables = empty_tables(alloc, types)?;
    for (i, place) in places.iter().enumerate() {
        note(
            alloc,
            &mut tables[place.agent],
            place.function.next.as_str(),
            i as u32,
        )?;
    }
    Ok(tables)
}

/// Marks the function in the list of each of the sources.
fn mark_all(lists: &mut [Successors], sources: &[u32], function: u32) -> Result<(), NoMemory>
    requires { (f : ℕ) → is_in f sources.now ≡ true → f < length lists.old }
    ensures { OnOk result (
        (f : ℕ)
        → f < length lists.old
        → slice_index_or lists.new f []
        ≡ marked_where function (is_in f sources.now) (slice_index_or lists.old f [])) }
{
    for source in sources {
        lists[*source as usize].mark(function)?;
    }
    Ok(())
}

/// Marks the function in the list of each function that stands before it.
fn link(
    lists: &mut [Successors],
    function: u32,
    place: Placed<'_>,
    entering: &Table,
    adding: &Table,
) -> Result<(), NoMemory>
    requires entering { (q : List ℕ) (f : ℕ) → is_in f (listed entering.now q) ≡ true → f < length lists.old }
    requires adding { (q : List ℕ) (f : ℕ) → is_in f (listed adding.now q) ≡ true → f < length lists.old }
    ensures { OnOk result (
        (f : ℕ)
        → f < length lists.old
        → slice_index_or lists.new f []
        ≡ marked_where function
        (is_linked (shown place.entry) entering.now adding.now f)
        (slice_index_or lists.old f [])) }
{
    mark_all(
        lists,
        under(entering, place.function.current.as_str()),
        function,
    )?;
    for input in place.function.inputs.items() {
        mark_all(lists, under(adding, input.message.as_str()), function)?;
    }
    Ok(())
}

/// For each function, in document order, the functions that it stands before, ascending.
pub fn link_all(
    alloc: Global,
    types: usize,
    places: &[Placed<'_>],
) -> Result<Vec<Successors>, NoMemory>
    requires few { length places.now < 2 ^ 32 }
    requires within { AreOfTypes types (map shown places.now) }
    ensures { IfOk result (λ lists.
        AreSuccessors (length places.now) (before_among (map shown places.now)) lists.items) }
{
    let entering = entering(alloc, types, places)?;
    let adding = adding(alloc, places)?;
    let mut lists = empty_lists(alloc, places.len())?;
    for (i, place) in places.iter().enumerate() {
        link(
            &mut lists,
            i as u32,
            *place,
            &entering[place.agent],
            &adding,
        )?;
    }
    Ok(lists)
}
