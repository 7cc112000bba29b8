//! Whether a condition can be read by columns: the call that reads it asks for this.

ghost use Rattle.std.specs.Prelude.{◌≡◌, ◌<◌, ◌^◌, ◌≤ℤ◌, pos, int_le, [], All, IsTrue, IfSome, Some};
ghost use Rattle.flame_spec.specs.Columns.{width};
ghost use Rattle.flame_spec.specs.TimeUnits.{unit_length};
ghost use Rattle.flame_spec.specs.Conditions.{has_lengths, is_length, IsReadable, agent_scope, input_scope};

use flame_rows::Seq;
use flame_spec::{AgentType, Condition, MessageType, TimeUnit, Variable};

/// The greatest length of a time unit.
const LONGEST: i64 = 2147483647;

/// The width of a row of these variables, where it has 32 bits.
fn width_of(variables: &[Variable]) -> Option<u32>
    ensures { IfSome result (λ width_found. width variables.now ≡ width_found) }
{
    let Some((first, others)) = variables.split_first() else {
        return Some(0);
    };
    let behind = width_of(others)?;
    first.width().checked_add(behind)
}

/// Whether a row of these variables has a width of 32 bits.
pub(crate) fn is_narrow(variables: &[Variable]) -> bool
    ensures { IsTrue result → width variables.now < 2 ^ 32 }
{
    width_of(variables).is_some()
}

/// The length of the unit of this name, where it and the units that it is measured in have lengths from 1 to the
/// greatest one.
fn length_of(units: &[TimeUnit], name: &str) -> Option<i64>
    ensures { IfSome result (λ length.
        (unit_length units.now name.now ≡ Some length) × (pos 1 ≤ℤ length) × (length ≤ℤ pos 2147483647)) }
{
    let Some((unit, earlier)) = units.split_last() else {
        return if name == "iteration" { Some(1) } else { None };
    };
    if unit.name.as_str() != name {
        return length_of(earlier, name);
    }
    let length = length_of(earlier, unit.unit.as_str())? * i64::from(unit.period);
    if 1 <= length && length <= LONGEST {
        Some(length)
    } else {
        None
    }
}

fn has_length(units: &[TimeUnit], name: &str) -> bool
    ensures { IsTrue result → IsTrue (is_length (unit_length units.now name.now)) }
{
    length_of(units, name).is_some()
}

/// Whether the unit of each time condition has a length.
fn has_lengths(units: &[TimeUnit], condition: &Condition) -> bool
    ensures { IsTrue result → IsTrue (has_lengths units.now condition.now) }
{
    match condition {
        Condition::Compare(_, _, _) => true,
        Condition::And(left, right) => has_lengths(units, left) && has_lengths(units, right),
        Condition::Or(left, right) => has_lengths(units, left) && has_lengths(units, right),
        Condition::Not(part) => has_lengths(units, part),
        Condition::Time(unit, _, _) => has_length(units, unit.as_str()),
    }
}

/// Whether each unit has a period of at least 1.
fn has_periods(units: &[TimeUnit]) -> bool
    ensures { IsTrue result → All (λ unit. IsTrue (int_le (pos 1) unit.period)) units.now }
{
    units.iter().all(|unit| unit.period >= 1)
}

/// Whether the condition of a function of this type can be read.
pub(crate) fn is_readable(condition: &Condition, agent: &AgentType, units: &Seq<TimeUnit>) -> bool
    ensures { IsTrue result → IsReadable (agent_scope agent.now units.now) condition.now }
{
    has_lengths(units.items(), condition)
        && has_periods(units.items())
        && is_narrow(agent.memory.items())
}

/// Whether the filter of an input of this message by a function of this type can be read.
pub(crate) fn is_readable_filter(
    condition: &Condition,
    agent: &AgentType,
    message: &MessageType,
) -> bool
    ensures { IsTrue result → IsReadable (input_scope agent.now message.now) condition.now }
{
    has_lengths(&[], condition)
        && is_narrow(agent.memory.items())
        && is_narrow(message.variables.items())
}
