//! Conditions of functions and filters of inputs, as XMML has them.

use flame_ops::Op;
use flame_rows::{Boxed, Text};

/// A condition of a function, or a filter of an input.
#[derive(Drop)]
pub enum Condition {
    /// A comparison by `Eq`, `Ne`, `Lt`, `Gt`, `Le` or `Ge`.
    Compare(Op, Operand, Operand),
    /// Both hold.
    And(Boxed<Condition>, Boxed<Condition>),
    /// One of the two holds, or both.
    Or(Boxed<Condition>, Boxed<Condition>),
    /// The other does not hold.
    Not(Boxed<Condition>),
    /// A time condition: the name of its unit, the phase, and the duration, 1 to 2147483647. It stands in no filter.
    Time(Text, Operand, i32),
}

/// What a condition compares.
#[derive(Drop)]
pub enum Operand {
    /// A number.
    Number(i32),
    /// The agent's memory variable of this name, written `a.name`.
    Agent(Text),
    /// The message's variable of this name, written `m.name`.
    Message(Text),
}
