//! Objects whose keys are names.

ghost use Rattle.std.specs.Prelude.{option_map};
ghost use Rattle.std.specs.HashMap.{get_by_text};
ghost use Rattle.std.specs.List.{flat_map};
ghost use Rattle.serde_json.specs.View.{view, members_view};
ghost use Rattle.flame_spec.specs.Paths.{at_key};
ghost use Rattle.flame_popfile.specs.PopulationParts.{object_faults, entries_faults, known_faults, variable_faults};
ghost use Rattle.flame_popfile.specs.PopulationParts.{entries as entries_in};
ghost use Rattle.flame_xmml.specs.ValuePlaces.{path_of};
ghost use Rattle.flame_spec.specs.FirstFaults.{Passes};
ghost use Rattle.flame_popfile.specs.PopulationTables.{asked_by};

use crate::faults::{PopFault, PopKind};
use crate::lists::variable_at;
use crate::parts::fault;
use crate::tables::Lengths;
use flame_rows::Fail;
use flame_xmml::Place;
use serde_json::{Map, Value};
use std::alloc::Global;

/// Passes where the value at a place is an object, each of its keys is a name of the table, and what stands there, if it
/// is not null, is a value of the length that the table has for it.
pub(crate) fn entries(
    alloc: Global,
    lengths: &Lengths,
    unknown: PopKind,
    place: &Place<'_>,
    value: &Value,
) -> Result<(), Fail<PopFault>>
    ensures { Passes
        (object_faults (entries_faults (asked_by unknown lengths.now)) (path_of place.now) (view value.now))
        result }
{
    match value.as_object() {
        Some(map) => each_entry(alloc, lengths, unknown, place, map),
        None => Err(fault(alloc, place, PopKind::Shape)),
    }
}

/// Passes where that holds of each entry of an object.
fn each_entry<'p>(
    alloc: Global,
    lengths: &Lengths,
    unknown: PopKind,
    place: &'p Place<'p>,
    map: &'p Map<String, Value>,
) -> Result<(), Fail<PopFault>>
    ensures { Passes
        (flat_map
        (λ (key, inside). asked_by unknown lengths.now key (at_key (path_of place.now) key) inside)
        (entries_in (members_view map.now.entries)))
        result }
{
    for (key, inside) in map {
        let name = key.as_str();
        asked(
            alloc,
            lengths,
            unknown,
            &Place::Key(place, name),
            name,
            inside,
        )?;
    }
    Ok(())
}

/// Passes where the table has the name, and what stands there, if it is not null, is a value of its length.
fn asked(
    alloc: Global,
    lengths: &Lengths,
    unknown: PopKind,
    place: &Place<'_>,
    name: &str,
    value: &Value,
) -> Result<(), Fail<PopFault>>
    ensures { Passes (asked_by unknown lengths.now name.now (path_of place.now) (view value.now)) result }
{
    known(alloc, lengths.get(name), unknown, place, value)
}

/// Passes where a name has a length, and what stands there, if it is not null, is a value of that length.
fn known(
    alloc: Global,
    length: Option<&Option<u32>>,
    unknown: PopKind,
    place: &Place<'_>,
    value: &Value,
) -> Result<(), Fail<PopFault>>
    ensures { Passes
        (known_faults unknown (option_map (λ length. variable_faults length.now) length.entry)
        (path_of place.now)
        (view value.now))
        result }
{
    match length {
        Some(length) => {
            if value.is_null() {
                Ok(())
            } else {
                variable_at(alloc, place, *length, value)
            }
        }
        None => Err(fault(alloc, place, unknown)),
    }
}
