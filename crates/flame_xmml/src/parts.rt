//! What stands in objects and lists.

ghost use Rattle.std.specs.Prelude.{◌≡◌, Some, None, true, false, is_some, map, option_map, IfOk, IfErr};
ghost use Rattle.serde_json.specs.View.{view};
ghost use Rattle.flame_xmml.specs.declared.faults.Want.TheVariants.{Object};
ghost use Rattle.flame_xmml.specs.ValuePlaces.{path_of};
ghost use Rattle.flame_xmml.specs.ValueParts.{part, has, is_object, members, wanted};
ghost use Rattle.flame_spec.specs.FirstFaults.{FailsFirst};
ghost use Rattle.flame_xmml.specs.ValueData.{data_of};

use crate::faults::{Shape, Want};
use crate::place::{Place, path};
use flame_rows::Fail;
use serde_json::Value;
use std::alloc::Global;

/// What stands at a key of an object: None where nothing does, and where null does, which counts as missing.
pub fn part<'v>(value: &'v Value, key: &str) -> Option<&'v Value>
    ensures value { data_of result ≡ part key.now (view value.now) }
    ensures there { is_some result ≡ has key.now (view value.now) }
{
    match value.get(key)? {
        Value::Null => None,
        found => Some(found),
    }
}

/// Whether something other than null stands at a key of an object.
pub(crate) fn has(value: &Value, key: &str) -> bool
    ensures { result ≡ has key.now (view value.now) }
{
    part(value, key).is_some()
}

/// The members of a list: None where the value is no list.
#[tactic(auto, using(crate::proofs::ListViews::items_list_view))]
pub fn members(value: &Value) -> Option<&[Value]>
    ensures { option_map (λ values. map view values.now) result ≡ members (view value.now) }
{
    let values = value.as_array()?;
    Some(values.as_slice())
}

/// The fault of a place where something else is wanted.
pub(crate) fn fault(alloc: Global, place: &Place<'_>, want: Want) -> Fail<Shape>
    ensures { FailsFirst (wanted want (path_of place.now)) result }
{
    match path(alloc, place) {
        Ok(path) => Fail::Fault(Shape { path, want }),
        Err(_) => Fail::NoMemory,
    }
}

/// Passes where the value at a place is an object.
pub(crate) fn object(alloc: Global, place: &Place<'_>, value: &Value) -> Result<(), Fail<Shape>>
    ensures object { IfOk result (λ _. is_object (view value.now) ≡ true) }
    ensures fault { IfErr result (λ fail.
        (is_object (view value.now) ≡ false) × FailsFirst (wanted Object (path_of place.now)) fail) }
{
    if value.is_object() {
        Ok(())
    } else {
        Err(fault(alloc, place, Want::Object))
    }
}

/// What was read at a place, or the fault of the place.
pub(crate) fn wanted<T: Drop>(
    alloc: Global,
    place: &Place<'_>,
    want: Want,
    read: Option<T>,
) -> Result<T, Fail<Shape>>
    ensures read { IfOk result (λ answer. read ≡ Some answer) }
    ensures fault { IfErr result (λ fail. (read ≡ None) × FailsFirst (wanted want (path_of place.now)) fail) }
{
    match read {
        Some(read) => Ok(read),
        None => Err(fault(alloc, place, want)),
    }
}
