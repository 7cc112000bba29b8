//! The faults of places.

ghost use Rattle.std.specs.Prelude.{◌≡◌, true, false, IfOk, IfErr};
ghost use Rattle.serde_json.specs.View.{view};
ghost use Rattle.flame_spec.specs.FirstFaults.{FailsFirst};
ghost use Rattle.flame_xmml.specs.ValueParts.{is_object};
ghost use Rattle.flame_popfile.specs.declared.faults.PopKind.TheVariants.{Shape};
ghost use Rattle.flame_popfile.specs.PopulationParts.{refused};
ghost use Rattle.flame_xmml.specs.ValuePlaces.{path_of};

use crate::faults::{PopFault, PopKind};
use flame_rows::Fail;
use flame_xmml::{Place, path};
use serde_json::Value;
use std::alloc::Global;

/// The fault of a place.
pub(crate) fn fault(alloc: Global, place: &Place<'_>, kind: PopKind) -> Fail<PopFault>
    ensures { FailsFirst (refused kind (path_of place.now)) result }
{
    match path(alloc, place) {
        Ok(path) => Fail::Fault(PopFault { kind, path }),
        Err(_) => Fail::NoMemory,
    }
}

/// Passes where the value at a place is an object.
pub(crate) fn object(alloc: Global, place: &Place<'_>, value: &Value) -> Result<(), Fail<PopFault>>
    ensures object { IfOk result (λ _. is_object (view value.now) ≡ true) }
    ensures fault { IfErr result (λ fail.
        (is_object (view value.now) ≡ false) × FailsFirst (refused Shape (path_of place.now)) fail) }
{
    if value.is_object() {
        Ok(())
    } else {
        Err(fault(alloc, place, PopKind::Shape))
    }
}
