//! Lists of parts of a model.

ghost use Rattle.std.specs.Prelude.{List, ℕ, [], map, unwrap_or};
ghost use Rattle.serde_json.specs.Data.{Data};
ghost use Rattle.serde_json.specs.View.{view};
ghost use Rattle.flame_xmml.specs.declared.faults.Shape.{Shape as ShapeFault};
ghost use Rattle.flame_xmml.specs.ValuePlaces.{path_of};
ghost use Rattle.flame_xmml.specs.ValueParts.{each_member, list_faults, members, optional};
ghost use Rattle.flame_xmml.specs.Models.{list_at};
ghost use Rattle.flame_spec.specs.FirstFaults.{Reads};

use crate::faults::{Shape, Want};
use crate::parts::{fault, members, part};
use crate::place::Place;
use flame_rows::{Fail, Seq};
use serde_json::Value;
use std::alloc::Global;

/// A kind of member of the lists of a model.
pub(crate) trait Member {
    /// What a member is read as.
    type Read: Drop;

    /// The member's faults.
    ghost faults: { List ℕ → Data → List ShapeFault };

    /// What the member stands for.
    ghost meant: { Data → Self.Read };

    /// Reads the member at a place.
    fn read(alloc: Global, place: &Place<'_>, value: &Value) -> Result<Self::Read, Fail<Shape>>
        ensures { Reads (faults (path_of place.now) (view value.now)) (meant (view value.now)) result };
}

/// The members of the list at a key; none where it is missing.
pub(crate) fn list_at<M: Member>(
    alloc: Global,
    place: &Place<'_>,
    value: &Value,
    key: &str,
) -> Result<Seq<M::Read>, Fail<Shape>>
    ensures { Reads
        (optional (list_faults M.faults) key.now (path_of place.now) (view value.now))
        (list_at M.meant key.now (view value.now))
        result }
{
    match part(value, key) {
        Some(found) => list::<M>(alloc, &Place::Key(place, key), found),
        None => Ok(Seq::of(Vec::new(alloc))),
    }
}

/// The members of the list at a place.
fn list<M: Member>(
    alloc: Global,
    place: &Place<'_>,
    value: &Value,
) -> Result<Seq<M::Read>, Fail<Shape>>
    ensures { Reads
        (list_faults M.faults (path_of place.now) (view value.now))
        (map M.meant (unwrap_or (members (view value.now)) []))
        result }
{
    match members(value) {
        Some(values) => each::<M>(alloc, place, values),
        None => Err(fault(alloc, place, Want::List)),
    }
}

/// The members of a list.
fn each<M: Member>(
    alloc: Global,
    place: &Place<'_>,
    values: &[Value],
) -> Result<Seq<M::Read>, Fail<Shape>>
    ensures { Reads
        (each_member M.faults (path_of place.now) (map view values.now))
        (map M.meant (map view values.now))
        result }
{
    let mut read = Vec::new(alloc);
    for (number, value) in values.iter().enumerate() {
        read.push(M::read(alloc, &Place::Member(place, number), value)?)?;
    }
    Ok(Seq::of(read))
}
