//! Conditions of functions and filters of inputs.

ghost use Rattle.std.specs.Prelude.{◌≡◌, ◌++◌, codes, IsTrue, Some, option_map};
ghost use Rattle.serde_json.specs.View.{view};
ghost use Rattle.flame_xmml.specs.ConditionShapes.{condition_faults, condition_of, time_faults, time_of, phase_at};
ghost use Rattle.flame_xmml.specs.ConditionShapes.{duration_at, side_faults, side_of, comparison_of, conditions_at};
ghost use Rattle.flame_xmml.specs.ConditionShapes.{operation_faults, operation_of};
ghost use Rattle.flame_xmml.specs.LeafShapes.{phase_faults, positive_faults};
ghost use Rattle.flame_xmml.specs.ValueParts.{part, is_object, object_of, required, optional};
ghost use Rattle.flame_xmml.specs.ValuePlaces.{path_of};
ghost use Rattle.flame_spec.specs.FirstFaults.{Reads};
ghost use Rattle.flame_xmml.specs.ValueData.{data_of};

use crate::faults::{Shape, Want};
use crate::numbers::positive_of;
use crate::operand::{operand_of, phase_of};
use crate::parts::{fault, has, part, wanted};
use crate::place::Place;
use crate::words::{Connective, connective_of, name_of};
use flame_ops::Op;
use flame_rows::{Boxed, Fail, Text};
use flame_spec::{Condition, Operand};
use serde_json::Value;
use std::alloc::Global;

/// The condition at a place. Takes a level of calls for each level of the condition.
#[cycle(condition)]
pub(crate) fn condition<'p>(
    alloc: Global,
    place: &'p Place<'p>,
    value: Option<&Value>,
    in_filter: bool,
) -> Result<Condition, Fail<Shape>>
    ensures { Reads
        (condition_faults in_filter (path_of place.now) (data_of value.entry))
        (condition_of (data_of value.entry))
        result }
{
    let Some(value) = object_of(value) else {
        return Err(fault(alloc, place, Want::Condition));
    };
    if has(value, "not") {
        let inner = inner_at(alloc, place, value, "not", in_filter)?;
        Ok(Condition::Not(inner))
    } else if has(value, "time") {
        time(
            alloc,
            &Place::Key(place, "time"),
            part(value, "time"),
            in_filter,
        )
    } else {
        operation(alloc, place, value, in_filter)
    }
}

/// A condition with `op`.
#[cycle(condition)]
fn operation<'p>(
    alloc: Global,
    place: &'p Place<'p>,
    value: &Value,
    in_filter: bool,
) -> Result<Condition, Fail<Shape>>
    requires { IsTrue (is_object (view value.now)) }
    ensures { Reads
        (operation_faults in_filter (path_of place.now) (view value.now))
        (operation_of (view value.now))
        result }
{
    let operator = connective_of(part(value, "op"));
    match wanted(alloc, &Place::Key(place, "op"), Want::Op, operator)? {
        Connective::Compare(op) => comparison(alloc, place, value, op),
        Connective::And => {
            let (left, right) = sides(alloc, place, value, in_filter)?;
            Ok(Condition::And(left, right))
        }
        Connective::Or => {
            let (left, right) = sides(alloc, place, value, in_filter)?;
            Ok(Condition::Or(left, right))
        }
    }
}

/// The conditions on both sides of AND or OR.
#[cycle(condition)]
fn sides<'p>(
    alloc: Global,
    place: &'p Place<'p>,
    value: &Value,
    in_filter: bool,
) -> Result<(Boxed<Condition>, Boxed<Condition>), Fail<Shape>>
    requires { IsTrue (is_object (view value.now)) }
    ensures { Reads
        (required (condition_faults in_filter) (codes "lhs") (path_of place.now) (view value.now)
        ++ required (condition_faults in_filter) (codes "rhs") (path_of place.now) (view value.now))
        (conditions_at (view value.now))
        result }
{
    let left = inner_at(alloc, place, value, "lhs", in_filter)?;
    let right = inner_at(alloc, place, value, "rhs", in_filter)?;
    Ok((left, right))
}

/// The condition at a key of a condition.
#[cycle(condition)]
fn inner_at<'p>(
    alloc: Global,
    place: &'p Place<'p>,
    value: &Value,
    key: &'p str,
    in_filter: bool,
) -> Result<Boxed<Condition>, Fail<Shape>>
    requires { IsTrue (is_object (view value.now)) }
    ensures { Reads
        (required (condition_faults in_filter) key.now (path_of place.now) (view value.now))
        (condition_of (part key.now (view value.now)))
        result }
{
    let inner = condition(alloc, &Place::Key(place, key), part(value, key), in_filter)?;
    Ok(Boxed::of(alloc, inner)?)
}

/// The value, where it is an object.
fn object_of(value: Option<&Value>) -> Option<&Value>
    ensures { option_map (λ found. view found.now) result ≡ object_of (data_of value.entry) }
{
    let value = value?;
    if value.is_object() { Some(value) } else { None }
}

/// A time condition; a filter has none.
#[tactic(auto, using(crate::proofs::Firsts::first_stays))]
fn time(
    alloc: Global,
    place: &Place<'_>,
    value: Option<&Value>,
    in_filter: bool,
) -> Result<Condition, Fail<Shape>>
    ensures { Reads
        (time_faults in_filter (path_of place.now) (data_of value.entry))
        (time_of (data_of value.entry))
        result }
{
    if in_filter {
        return Err(fault(alloc, place, Want::Condition));
    }
    let Some(value) = object_of(value) else {
        return Err(fault(alloc, place, Want::Object));
    };
    let period = name_of(part(value, "period"));
    let period = wanted(alloc, &Place::Key(place, "period"), Want::Name, period)?;
    let phase = phase_at(alloc, place, value)?;
    let duration = duration_at(alloc, place, value)?;
    Ok(Condition::Time(Text::of(alloc, period)?, phase, duration))
}

/// The phase of a time condition; 0 where it is missing.
fn phase_at(alloc: Global, place: &Place<'_>, value: &Value) -> Result<Operand, Fail<Shape>>
    ensures { Reads
        (optional phase_faults (codes "phase") (path_of place.now) (view value.now))
        (phase_at (view value.now))
        result }
{
    match part(value, "phase") {
        Some(found) => {
            let phase = phase_of(alloc, found)?;
            wanted(alloc, &Place::Key(place, "phase"), Want::Phase, phase)
        }
        None => Ok(Operand::Number(0)),
    }
}

/// The duration of a time condition; 1 where it is missing.
fn duration_at(alloc: Global, place: &Place<'_>, value: &Value) -> Result<i32, Fail<Shape>>
    ensures { Reads
        (optional positive_faults (codes "duration") (path_of place.now) (view value.now))
        (duration_at (view value.now))
        result }
{
    match part(value, "duration") {
        Some(found) => {
            let duration = positive_of(Some(found));
            wanted(
                alloc,
                &Place::Key(place, "duration"),
                Want::Positive,
                duration,
            )
        }
        None => Ok(1),
    }
}

/// A comparison by this operator.
#[tactic(auto, using(crate::proofs::Firsts::first_stays))]
fn comparison(
    alloc: Global,
    place: &Place<'_>,
    value: &Value,
    op: Op,
) -> Result<Condition, Fail<Shape>>
    ensures { Reads
        (required side_faults (codes "lhs") (path_of place.now) (view value.now)
        ++ required side_faults (codes "rhs") (path_of place.now) (view value.now))
        (comparison_of op (view value.now))
        result }
{
    let left = side_at(alloc, place, value, "lhs")?;
    let right = side_at(alloc, place, value, "rhs")?;
    Ok(Condition::Compare(op, left, right))
}

/// The side of a comparison at a key.
fn side_at(
    alloc: Global,
    place: &Place<'_>,
    value: &Value,
    key: &str,
) -> Result<Operand, Fail<Shape>>
    ensures { Reads
        (required side_faults key.now (path_of place.now) (view value.now))
        (side_of (part key.now (view value.now)))
        result }
{
    side(alloc, &Place::Key(place, key), part(value, key))
}

/// A side of a comparison.
fn side(alloc: Global, place: &Place<'_>, value: Option<&Value>) -> Result<Operand, Fail<Shape>>
    ensures { Reads
        (side_faults (path_of place.now) (data_of value.entry))
        (side_of (data_of value.entry))
        result }
{
    let Some(value) = object_of(value) else {
        return Err(fault(alloc, place, Want::Object));
    };
    let operand = match part(value, "value") {
        Some(found) => operand_of(alloc, found)?,
        None => None,
    };
    wanted(alloc, &Place::Key(place, "value"), Want::Operand, operand)
}
