//! Models, as XMML describes them.

ghost use Rattle.std.specs.Prelude.{◌≡◌};
ghost use Rattle.flame_spec.specs.Columns.{width_of};

use crate::conditions::Condition;
use flame_rows::{Seq, Text};

/// A model. Constants, messages and agent types are numbered from 0 in these orders, functions from 0 in document
/// order: type by type, function by function.
#[derive(Drop)]
pub struct Model {
    /// The names of the constants.
    pub constants: Seq<Text>,
    /// The names of the function files.
    pub files: Seq<Text>,
    /// The time units.
    pub units: Seq<TimeUnit>,
    /// The message types.
    pub messages: Seq<MessageType>,
    /// The agent types.
    pub agents: Seq<AgentType>,
}

/// A unit of time: so many of another unit.
#[derive(Drop)]
pub struct TimeUnit {
    /// Its name.
    pub name: Text,
    /// What it is measured in: `iteration`, or the name of a unit declared before it.
    pub unit: Text,
    /// How many of those it has, 1 to 2147483647.
    pub period: i32,
}

/// A variable of a memory or of a message, of type `int`, or an array of them.
#[derive(Drop)]
pub struct Variable {
    /// Its name.
    pub name: Text,
    /// The length of an array, 1 to 1000; `None` is a single variable, of width 1.
    pub length: Option<u32>,
}

impl Variable {
    /// How many numbers of a row the variable takes: 1, or the length of an array.
    pub fn width(&self) -> u32
        ensures { result ≡ width_of self.now }
    {
        match self.length {
            None => 1,
            Some(length) => length,
        }
    }
}

/// A message type.
#[derive(Drop)]
pub struct MessageType {
    /// Its name.
    pub name: Text,
    /// Its variables.
    pub variables: Seq<Variable>,
}

/// An agent type.
#[derive(Drop)]
pub struct AgentType {
    /// Its name.
    pub name: Text,
    /// The variables of its agents' memory.
    pub memory: Seq<Variable>,
    /// Its transition functions.
    pub functions: Seq<Function>,
}

/// A transition function between two states.
#[derive(Drop)]
pub struct Function {
    /// The name of its body in the function files, or `idle`.
    pub name: Text,
    /// The state that it leaves.
    pub current: Text,
    /// The state that it enters.
    pub next: Text,
    /// The condition under which an agent takes it; without one it always may.
    pub condition: Option<Condition>,
    /// The messages that it reads.
    pub inputs: Seq<Input>,
    /// The names of the messages that it adds.
    pub outputs: Seq<Text>,
}

/// How a function reads a message.
#[derive(Drop)]
pub struct Input {
    /// The name of the message.
    pub message: Text,
    /// Whether a random order is asked for, which is refused.
    pub random: bool,
    /// The filter that the rows must pass, if there is one.
    pub filter: Option<Condition>,
    /// The key that the rows are sorted by, if there is one.
    pub sort: Option<Sort>,
}

/// The order in which the rows of a message are read.
#[derive(Drop)]
pub struct Sort {
    /// The name of the message's variable that the rows are sorted by.
    pub key: Text,
    /// Whether the greatest comes first.
    pub descending: bool,
}
