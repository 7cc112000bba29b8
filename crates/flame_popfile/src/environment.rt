//! What the states of a population have beside their agents: the version, the number of the iteration, and the constants.

ghost use Rattle.std.specs.Prelude.{◌≡◌, codes, option_and_then, IfOk};
ghost use Rattle.serde_json.specs.Data.{null};
ghost use Rattle.serde_json.specs.View.{view};
ghost use Rattle.flame_xmml.specs.ValueParts.{part};
ghost use Rattle.flame_xmml.specs.ValueData.{data_of};
ghost use Rattle.flame_xmml.specs.Wants.{int_of};
ghost use Rattle.flame_popfile.specs.PopulationParts.{optional, number_faults, is_itno};
ghost use Rattle.flame_popfile.specs.PopulationFaults.{format_numbered, format_of, version_faults, itno_of, limit_faults};
ghost use Rattle.flame_popfile.specs.PopulationFaults.{environment_faults};
ghost use Rattle.flame_popfile.specs.PopulationAgents.{constants_of};
ghost use Rattle.flame_xmml.specs.ValuePlaces.{path_of};
ghost use Rattle.flame_spec.specs.FirstFaults.{Reads, Passes};
ghost use Rattle.flame_popfile.specs.declared.formats.Format.TheVariants.{One, Two};

use crate::entries::entries;
use crate::faults::{PopFault, PopKind};
use crate::formats::Format;
use crate::lists::add_ints;
use crate::members::{add_zeros, named_in, single};
use crate::numbers::{int_in, itno_at};
use crate::parts::fault;
use crate::tables::lengths_of;
use flame_rows::{Fail, NoMemory, Row, Text};
use flame_xmml::{Place, part};
use serde_json::Value;
use std::alloc::Global;

/// The version that the states at a place name; version 1 where they name none.
pub(crate) fn format_at(
    alloc: Global,
    place: &Place<'_>,
    states: &Value,
) -> Result<Format, Fail<PopFault>>
    ensures { Reads (version_faults (path_of place.now) (view states.now)) (format_of (view states.now)) result }
{
    let Some(version) = part(states, "version") else {
        return Ok(Format::One);
    };
    match format_in(version) {
        Some(format) => Ok(format),
        None => Err(fault(alloc, &Place::Key(place, "version"), PopKind::Shape)),
    }
}

/// The version whose number the value is.
fn format_in(value: &Value) -> Option<Format>
    ensures { result ≡ option_and_then format_numbered (int_of (view value.now)) }
{
    match int_in(value)? {
        1 => Some(Format::One),
        2 => Some(Format::Two),
        _ => None,
    }
}

/// The number of the iteration; 0 where it is missing.
pub(crate) fn number_at(
    alloc: Global,
    place: &Place<'_>,
    states: &Value,
) -> Result<i32, Fail<PopFault>>
    ensures { Reads
        (optional (number_faults is_itno) (codes "itno") (path_of place.now) (view states.now))
        (itno_of (view states.now))
        result }
{
    match part(states, "itno") {
        Some(found) => itno_at(alloc, &Place::Key(place, "itno"), found),
        None => Ok(0),
    }
}

/// Passes where so many iterations may follow that of this number.
pub(crate) fn within_limit(
    alloc: Global,
    place: &Place<'_>,
    states: &Value,
    itno: i32,
    turns: u32,
) -> Result<(), Fail<PopFault>>
    requires { itno ≡ itno_of (view states.now) }
    ensures { Passes (limit_faults turns (path_of place.now) (view states.now)) result }
{
    let last = i64::from(itno) + i64::from(turns);
    if last <= 2147483647 {
        Ok(())
    } else {
        Err(fault(alloc, &Place::Key(place, "itno"), PopKind::IterationLimit))
    }
}

/// The constants in this version; each is 0 where it is missing.
pub(crate) fn constants_at(
    alloc: Global,
    format: Format,
    names: &[Text],
    place: &Place<'_>,
    states: &Value,
) -> Result<Row, Fail<PopFault>>
    ensures { Reads
        (optional (environment_faults format names.now) (codes "environment") (path_of place.now) (view states.now))
        (constants_of format names.now (part (codes "environment") (view states.now)))
        result }
{
    match part(states, "environment") {
        Some(found) => constants_in(
            alloc,
            format,
            names,
            &Place::Key(place, "environment"),
            found,
        ),
        None => Ok(no_constants(alloc, format, names)?),
    }
}

/// The constants that are missing: each is 0.
fn no_constants(alloc: Global, format: Format, names: &[Text]) -> Result<Row, NoMemory>
    ensures { IfOk result (λ row. row ≡ constants_of format names.now null) }
{
    match format {
        Format::One => values_of(alloc, names, None),
        Format::Two => {
            let mut row = Vec::new(alloc);
            add_zeros(names.len(), &mut row)?;
            Ok(Row::of(row))
        }
    }
}

/// The constants that the value at a place holds in this version.
fn constants_in(
    alloc: Global,
    format: Format,
    names: &[Text],
    place: &Place<'_>,
    value: &Value,
) -> Result<Row, Fail<PopFault>>
    ensures { Reads
        (environment_faults format names.now (path_of place.now) (view value.now))
        (constants_of format names.now (view value.now))
        result }
{
    match format {
        Format::One => named_constants(alloc, names, place, value),
        Format::Two => listed_constants(alloc, names, place, value),
    }
}

/// The constants that an object at a place holds under their names.
fn named_constants(
    alloc: Global,
    names: &[Text],
    place: &Place<'_>,
    value: &Value,
) -> Result<Row, Fail<PopFault>>
    ensures { Reads
        (environment_faults One names.now (path_of place.now) (view value.now))
        (constants_of One names.now (view value.now))
        result }
{
    known_constants(alloc, names, place, value)?;
    Ok(values_of(alloc, names, Some(value))?)
}

/// Passes where the value at a place is an object of these names.
fn known_constants(
    alloc: Global,
    names: &[Text],
    place: &Place<'_>,
    value: &Value,
) -> Result<(), Fail<PopFault>>
    ensures { Passes (environment_faults One names.now (path_of place.now) (view value.now)) result }
{
    let lengths = lengths_of(alloc, names)?;
    entries(alloc, &lengths, PopKind::UnknownConstant, place, value)
}

/// The values that stand at these names.
fn values_of(alloc: Global, names: &[Text], environment: Option<&Value>) -> Result<Row, NoMemory>
    ensures { IfOk result (λ row. row ≡ constants_of One names.now (data_of environment.entry)) }
{
    let mut row = Vec::new(alloc);
    for name in names {
        row.push(single(named_in(environment, name.as_str())))?;
    }
    Ok(Row::of(row))
}

/// The constants that a list at a place holds, of exactly as many numbers.
fn listed_constants(
    alloc: Global,
    names: &[Text],
    place: &Place<'_>,
    value: &Value,
) -> Result<Row, Fail<PopFault>>
    ensures { Reads
        (environment_faults Two names.now (path_of place.now) (view value.now))
        (constants_of Two names.now (view value.now))
        result }
{
    let mut row = Vec::new(alloc);
    add_ints(alloc, place, names.len(), value, &mut row)?;
    Ok(Row::of(row))
}
