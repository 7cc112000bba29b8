//! Which rows of a board an agent reads, and in which order.

ghost use Rattle.std.specs.Prelude.{◌≡◌, IfOk, [], map, pos, option_map};
ghost use Rattle.flame_rows.specs.Sorted.{sorted_by};
ghost use Rattle.flame_spec.specs.Columns.{column};
ghost use Rattle.flame_spec.specs.Conditions.{number_at, Moment, input_scope, operand_value, compares, in_unit, truth};
ghost use Rattle.flame_spec.specs.TimeUnits.{unit_length};
ghost use Rattle.flame_spec.specs.Views.{is_read, key_of, key_order, view_order};

use crate::scene::number_at;
use crate::words::column_of;
use flame_ops::Op;
use flame_rows::{NoMemory, Row};
use flame_spec::{AgentType, Condition, MessageType, Operand, Sort};
use std::cmp::Ordering;

/// The value of what a filter compares.
fn operand_value(
    operand: &Operand,
    agent: &AgentType,
    message: &MessageType,
    memory: &[i32],
    row: &[i32],
) -> i32
    ensures { let moment : Moment = record { memory = memory.now; row = row.now; iteration = pos 0 } in
        result ≡ operand_value (input_scope agent.now message.now) operand.now moment }
{
    match operand {
        Operand::Number(number) => *number,
        Operand::Agent(name) => number_at(memory, column_of(name.as_str(), agent.memory.items())),
        Operand::Message(name) => number_at(
            row,
            column_of(name.as_str(), message.variables.items()),
        ),
    }
}

/// The comparison of two numbers; an operator that compares nothing does not hold.
fn compares(op: Op, a: i32, b: i32) -> bool
    ensures { result ≡ compares op a b }
{
    match op {
        Op::Lt => a < b,
        Op::Gt => a > b,
        Op::Le => a <= b,
        Op::Ge => a >= b,
        Op::Eq => a == b,
        Op::Ne => a != b,
        Op::Add => false,
        Op::Sub => false,
        Op::Mul => false,
        Op::Div => false,
        Op::Rem => false,
    }
}

/// A time condition in a filter, where it may not stand: it knows no unit but `iteration`, and no iteration but 0.
fn in_time(unit: &str, phase: i32, duration: i32) -> bool
    ensures { result ≡ in_unit (unit_length [] unit.now) phase duration (pos 0) }
{
    unit == "iteration" && phase <= 0 && 0 < i64::from(phase) + i64::from(duration)
}

/// Whether the row passes the filter for an agent with this memory.
fn passes(
    condition: &Condition,
    agent: &AgentType,
    message: &MessageType,
    memory: &[i32],
    row: &[i32],
) -> bool
    ensures { let moment : Moment = record { memory = memory.now; row = row.now; iteration = pos 0 } in
        result ≡ truth (input_scope agent.now message.now) condition.now moment }
{
    match condition {
        Condition::Compare(op, a, b) => {
            let left = operand_value(a, agent, message, memory, row);
            let right = operand_value(b, agent, message, memory, row);
            compares(*op, left, right)
        }
        Condition::And(a, b) => {
            passes(a, agent, message, memory, row) && passes(b, agent, message, memory, row)
        }
        Condition::Or(a, b) => {
            passes(a, agent, message, memory, row) || passes(b, agent, message, memory, row)
        }
        Condition::Not(a) => !passes(a, agent, message, memory, row),
        Condition::Time(unit, phase, duration) => {
            let begins = operand_value(phase, agent, message, memory, row);
            in_time(unit.as_str(), begins, *duration)
        }
    }
}

/// Whether an agent with this memory reads the row.
pub(crate) fn reads(
    filter: &Option<Condition>,
    agent: &AgentType,
    message: &MessageType,
    memory: &[i32],
    row: &[i32],
) -> bool
    ensures { result ≡ is_read agent.now message.now filter.now memory.now row.now }
{
    match filter {
        None => true,
        Some(condition) => passes(condition, agent, message, memory, row),
    }
}

/// The number of the row that the sort's key names.
fn key_value(row: &Row, sort: &Sort, message: &MessageType) -> i32
    ensures { result ≡ number_at row.now (column sort.now.key message.now.variables) }
{
    let column = column_of(sort.key.as_str(), message.variables.items());
    number_at(row.values(), column)
}

/// How two rows stand by the key, in its direction.
fn compare_keys(sort: &Sort, message: &MessageType, a: &Row, b: &Row) -> Ordering
    ensures { result ≡ key_order (key_of message.now sort.now) a.now b.now }
{
    let left = key_value(a, sort, message);
    let right = key_value(b, sort, message);
    if sort.descending {
        return right.cmp(&left);
    }
    left.cmp(&right)
}

/// How two rows stand: by the key, and rows with equal numbers there by content.
fn compare(sort: &Option<Sort>, message: &MessageType, a: &Row, b: &Row) -> Ordering
    ensures { result ≡ view_order (option_map (key_of message.now) sort.now) a.now b.now }
{
    match sort {
        None => a.compare(b),
        Some(sort) => compare_keys(sort, message, a, b).then(a.compare(b)),
    }
}

/// The rows in order.
pub(crate) fn sorted<'a>(
    rows: Vec<&'a Row>,
    sort: &Option<Sort>,
    message: &MessageType,
) -> Result<Vec<&'a Row>, NoMemory>
    ensures { IfOk result (λ sorted. map (λ row. row.now) sorted.items
        ≡ sorted_by (view_order (option_map (key_of message.now) sort.now)) (map (λ row. row.now) rows.entry.items)) }
{
    let mut rows = rows;
    rows.sort_by(
        |a: &&Row, b: &&Row| -> Ordering
            ensures { result ≡ view_order (option_map (key_of message.entry.now) sort.entry.now) a.now.now b.now.now }
        { compare(sort, message, a, b) },
    )?;
    Ok(rows)
}
