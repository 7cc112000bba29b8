//! Single values at the keys of objects.

ghost use Rattle.std.specs.Prelude.{◌≡◌, codes, is_some, unwrap_or};
ghost use Rattle.serde_json.specs.View.{view};
ghost use Rattle.flame_xmml.specs.LeafShapes.{empty_faults, int_faults, name_faults, state_faults, positive_faults};
ghost use Rattle.flame_xmml.specs.LeafShapes.{truth_faults, order_faults, length_faults, file_faults};
ghost use Rattle.flame_xmml.specs.Models.{name_at, filled_at, period_at, length_at, descending_at};
ghost use Rattle.flame_xmml.specs.ValueParts.{part, required, optional};
ghost use Rattle.flame_xmml.specs.ValuePlaces.{path_of};
ghost use Rattle.flame_spec.specs.FirstFaults.{Reads, Passes};
ghost use Rattle.flame_xmml.specs.Wants.{empty_of, truth_of};

use crate::faults::{Shape, Want};
use crate::numbers::{length_of, positive_of};
use crate::parts::{fault, members, part, wanted};
use crate::place::Place;
use crate::words::{filled_of, int_type_of, name_of, order_of, truth_of};
use flame_rows::{Fail, Text};
use serde_json::Value;
use std::alloc::Global;

/// The name at a key.
pub(crate) fn name_at(
    alloc: Global,
    place: &Place<'_>,
    value: &Value,
    key: &str,
) -> Result<Text, Fail<Shape>>
    ensures { Reads
        (required name_faults key.now (path_of place.now) (view value.now))
        (name_at key.now (view value.now))
        result }
{
    let name = name_of(part(value, key));
    let name = wanted(alloc, &Place::Key(place, key), Want::Name, name)?;
    Ok(Text::of(alloc, name)?)
}

/// The state at a key.
pub(crate) fn state_at(
    alloc: Global,
    place: &Place<'_>,
    value: &Value,
    key: &str,
) -> Result<Text, Fail<Shape>>
    ensures { Reads
        (required state_faults key.now (path_of place.now) (view value.now))
        (filled_at key.now (view value.now))
        result }
{
    let state = filled_of(part(value, key));
    let state = wanted(alloc, &Place::Key(place, key), Want::State, state)?;
    Ok(Text::of(alloc, state)?)
}

/// The text `int` at `type`.
pub(crate) fn int_type(alloc: Global, place: &Place<'_>, value: &Value) -> Result<(), Fail<Shape>>
    ensures { Passes (required int_faults (codes "type") (path_of place.now) (view value.now)) result }
{
    let int = int_type_of(part(value, "type"));
    wanted(alloc, &Place::Key(place, "type"), Want::Int, int)?;
    Ok(())
}

/// The number at `period`.
pub(crate) fn period(alloc: Global, place: &Place<'_>, value: &Value) -> Result<i32, Fail<Shape>>
    ensures { Reads
        (required positive_faults (codes "period") (path_of place.now) (view value.now))
        (period_at (view value.now))
        result }
{
    let period = positive_of(part(value, "period"));
    wanted(alloc, &Place::Key(place, "period"), Want::Positive, period)
}

/// Whether the greatest comes first, at `order`.
pub(crate) fn descending(
    alloc: Global,
    place: &Place<'_>,
    value: &Value,
) -> Result<bool, Fail<Shape>>
    ensures { Reads
        (required order_faults (codes "order") (path_of place.now) (view value.now))
        (descending_at (view value.now))
        result }
{
    let descending = order_of(part(value, "order"));
    wanted(alloc, &Place::Key(place, "order"), Want::Order, descending)
}

/// The truth at a key; `other` where it is missing.
pub(crate) fn truth_at(
    alloc: Global,
    place: &Place<'_>,
    value: &Value,
    key: &str,
    other: bool,
) -> Result<bool, Fail<Shape>>
    ensures { Reads
        (optional truth_faults key.now (path_of place.now) (view value.now))
        (unwrap_or (truth_of (part key.now (view value.now))) other)
        result }
{
    match part(value, key) {
        Some(found) => {
            let truth = truth_of(found);
            wanted(alloc, &Place::Key(place, key), Want::Truth, truth)
        }
        None => Ok(other),
    }
}

/// The length of an array at `length`, if there is one.
pub(crate) fn length_at(
    alloc: Global,
    place: &Place<'_>,
    value: &Value,
) -> Result<Option<u32>, Fail<Shape>>
    ensures { Reads
        (optional length_faults (codes "length") (path_of place.now) (view value.now))
        (length_at (view value.now))
        result }
{
    match part(value, "length") {
        Some(found) => {
            let length = length_of(found);
            let length = wanted(alloc, &Place::Key(place, "length"), Want::Length, length)?;
            Ok(Some(length))
        }
        None => Ok(None),
    }
}

/// The name of a file at `file`.
pub(crate) fn file_at(alloc: Global, place: &Place<'_>, value: &Value) -> Result<Text, Fail<Shape>>
    ensures { Reads
        (required file_faults (codes "file") (path_of place.now) (view value.now))
        (filled_at (codes "file") (view value.now))
        result }
{
    let file = filled_of(part(value, "file"));
    let file = wanted(alloc, &Place::Key(place, "file"), Want::FileName, file)?;
    Ok(Text::of(alloc, file)?)
}

/// The list at a key, which has no member where it is there.
pub(crate) fn empty_at(
    alloc: Global,
    place: &Place<'_>,
    value: &Value,
    key: &str,
) -> Result<(), Fail<Shape>>
    ensures { Passes (optional empty_faults key.now (path_of place.now) (view value.now)) result }
{
    match part(value, key) {
        Some(found) if !is_empty(found) => Err(fault(alloc, &Place::Key(place, key), Want::Empty)),
        _ => Ok(()),
    }
}

/// Whether the value is a list of no member.
fn is_empty(value: &Value) -> bool
    ensures { result ≡ is_some (empty_of (view value.now)) }
{
    match members(value) {
        Some(values) => values.is_empty(),
        None => false,
    }
}
