//! The names in conditions.

ghost use Rattle.std.specs.Prelude.{◌≡◌, ◌++◌, [], IfErr, OnOk, codes};
ghost use Rattle.flame_spec.specs.Paths.{at_key};
ghost use Rattle.flame_spec.specs.Leaves.{operand_faults, time_faults, leaf_faults, condition_faults};
ghost use Rattle.flame_names.specs.PlacePaths.{text_of};
ghost use Rattle.flame_spec.specs.FirstFaults.{FailsFirst};
ghost use Rattle.flame_names.specs.TableScopes.{scope_of};

use crate::faults::refuse;
use crate::lengths::Lengths;
use crate::path::Place;
use crate::variables::{Variables, single};
use flame_rows::{Fail, Text};
use flame_spec::{Condition, NameFault, NameKind, Operand};
use std::alloc::Global;

/// What the names in a condition may stand for.
#[derive(Clone, Copy)]
pub struct Scope<'s, 'a> {
    /// The variables of the agent's memory.
    pub memory: &'s Variables<'a>,
    /// The variables of the message; none in a function's condition.
    pub message: &'s Variables<'a>,
    /// The time units.
    pub units: &'s Lengths<'a>,
}

impl<'s, 'a> Scope<'s, 'a> {
    /// The time units.
    fn units(&self) -> &'s Lengths<'a>
        ensures { result.now ≡ self.now.units.now }
    {
        self.units
    }
}

/// The name in an operand.
fn operand(
    alloc: Global,
    scope: &Scope<'_, '_>,
    place: &Place<'_>,
    operand: &Operand,
) -> Result<(), Fail<NameFault>>
    ensures none { OnOk result (operand_faults (scope_of scope.now) (text_of place.now) operand.now ≡ []) }
    ensures first { IfErr result
        (FailsFirst (operand_faults (scope_of scope.now) (text_of place.now) operand.now)) }
{
    match operand {
        Operand::Number(_) => Ok(()),
        Operand::Agent(name) => single(alloc, scope.memory, place, "a.", name.as_str()),
        Operand::Message(name) => single(alloc, scope.message, place, "m.", name.as_str()),
    }
}

/// The name in a side of a comparison.
fn side(
    alloc: Global,
    scope: &Scope<'_, '_>,
    place: &Place<'_>,
    value: &Operand,
) -> Result<(), Fail<NameFault>>
    ensures none { OnOk result
        (operand_faults (scope_of scope.now) (at_key (text_of place.now) (codes "value")) value.now ≡ []) }
    ensures first { IfErr result
        (FailsFirst (operand_faults (scope_of scope.now) (at_key (text_of place.now) (codes "value")) value.now)) }
{
    operand(alloc, scope, &Place::Key(place, "value"), value)
}

/// The names in a comparison.
fn compared(
    alloc: Global,
    scope: &Scope<'_, '_>,
    place: &Place<'_>,
    left: &Operand,
    right: &Operand,
) -> Result<(), Fail<NameFault>>
    ensures none { OnOk result
        (operand_faults (scope_of scope.now) (at_key (at_key (text_of place.now) (codes "lhs")) (codes "value")) left.now
        ++ operand_faults (scope_of scope.now) (at_key (at_key (text_of place.now) (codes "rhs")) (codes "value")) right.now
        ≡ []) }
    ensures first { IfErr result (FailsFirst
        (operand_faults (scope_of scope.now) (at_key (at_key (text_of place.now) (codes "lhs")) (codes "value")) left.now
        ++ operand_faults (scope_of scope.now) (at_key (at_key (text_of place.now) (codes "rhs")) (codes "value")) right.now)) }
{
    side(alloc, scope, &Place::Key(place, "lhs"), left)?;
    side(alloc, scope, &Place::Key(place, "rhs"), right)
}

/// The names in a time condition.
fn time(
    alloc: Global,
    scope: &Scope<'_, '_>,
    place: &Place<'_>,
    period: &Text,
    phase: &Operand,
) -> Result<(), Fail<NameFault>>
    ensures none { OnOk result (time_faults (scope_of scope.now) (text_of place.now) period.now phase.now ≡ []) }
    ensures first { IfErr result
        (FailsFirst (time_faults (scope_of scope.now) (text_of place.now) period.now phase.now)) }
{
    let name = period.as_str();
    let is_known = scope.units().has(name);
    refuse(
        alloc,
        !is_known,
        NameKind::UnknownUnit,
        &Place::Key(place, "period"),
        name,
    )?;
    operand(alloc, scope, &Place::Key(place, "phase"), phase)
}

/// The names in a condition, from left to right. It goes as deep as the condition.
fn leaves(
    alloc: Global,
    scope: &Scope<'_, '_>,
    condition: &Condition,
    place: &Place<'_>,
) -> Result<(), Fail<NameFault>>
    ensures none { OnOk result (leaf_faults (scope_of scope.now) condition.now (text_of place.now) ≡ []) }
    ensures first { IfErr result
        (FailsFirst (leaf_faults (scope_of scope.now) condition.now (text_of place.now))) }
{
    match condition {
        Condition::Compare(_, left, right) => { compared(alloc, scope, &*place, left, right) }
        Condition::And(left, right) => {
            leaves(alloc, scope, left, &Place::Key(&*place, "lhs"))?;
            leaves(alloc, scope, right, &Place::Key(&*place, "rhs"))
        }
        Condition::Or(left, right) => {
            leaves(alloc, scope, left, &Place::Key(&*place, "lhs"))?;
            leaves(alloc, scope, right, &Place::Key(&*place, "rhs"))
        }
        Condition::Not(part) => leaves(alloc, scope, part, &Place::Key(&*place, "not")),
        Condition::Time(period, phase, _) => {
            time(alloc, scope, &Place::Key(&*place, "time"), period, phase)
        }
    }
}

/// The names in a condition, where there is one.
pub fn condition(
    alloc: Global,
    scope: &Scope<'_, '_>,
    place: &Place<'_>,
    condition: &Option<Condition>,
) -> Result<(), Fail<NameFault>>
    ensures none { OnOk result (condition_faults (scope_of scope.now) (text_of place.now) condition.now ≡ []) }
    ensures first { IfErr result
        (FailsFirst (condition_faults (scope_of scope.now) (text_of place.now) condition.now)) }
{
    match condition {
        None => Ok(()),
        Some(condition) => leaves(alloc, scope, condition, place),
    }
}
