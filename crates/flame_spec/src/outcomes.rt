//! Sources, and what a run of a transition function gives.

use crate::faults::Fault;
use crate::models::Model;
use crate::trees::Unit;
use flame_rows::{Row, Seq};

/// A model and its function files, one tree for each file that the model names, in that order.
#[derive(Drop)]
pub struct Source {
    /// The model.
    pub model: Model,
    /// The trees of its function files.
    pub units: Seq<Unit>,
}

/// A message that a function added.
#[derive(Debug, Drop)]
pub struct Sent {
    /// The number of the message type.
    pub message: u32,
    /// Its variables.
    pub row: Row,
}

/// An agent that a function added.
#[derive(Debug, Drop)]
pub struct Born {
    /// The number of the agent type.
    pub agent: u32,
    /// Its memory.
    pub row: Row,
}

/// What an agent's run of its function leaves.
#[derive(Drop)]
pub struct Effect {
    /// The agent's memory, or `None` where the function removed the agent.
    pub memory: Option<Row>,
    /// The messages in the order in which they were added.
    pub sent: Seq<Sent>,
    /// The births in the order in which they were added.
    pub born: Seq<Born>,
    /// The fuel that is left.
    pub fuel: u32,
}

/// How an agent's run of its function ends.
#[derive(Drop)]
pub enum Outcome {
    /// It returned, or ran off its end.
    Ended(Effect),
    /// It faulted.
    Faulted(Fault),
}

/// The widths of the rows that one function can see: each is the sum of the widths of the declared variables.
#[derive(Debug, Drop)]
pub struct Widths {
    /// The width of the agent's memory.
    pub memory: u32,
    /// The number of constants.
    pub constants: u32,
    /// The width of the message of each of the function's inputs.
    pub inputs: Seq<u32>,
    /// The width of each message type.
    pub messages: Seq<u32>,
    /// The width of each agent type's memory.
    pub agents: Seq<u32>,
}
