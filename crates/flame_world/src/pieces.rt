//! Pieces of a function's work, and what they leave.

use crate::faults::SimFault;
use flame_rows::{Bag, Seq};
use flame_spec::Born;

/// Some of the agents that take a function.
#[derive(Debug, Drop)]
pub struct Piece {
    /// The number of the function, in document order.
    pub function: u32,
    /// The number of the piece among those of the function.
    pub number: u32,
    /// Its agents.
    pub agents: Bag,
}

/// The messages of one type that the agents of a piece sent.
#[derive(Debug, Drop)]
pub struct Part {
    /// The number of the function.
    pub function: u32,
    /// The number of the piece.
    pub number: u32,
    /// The number of the message type.
    pub message: u32,
    /// The messages.
    pub rows: Bag,
}

/// What the agents of a piece leave besides messages.
#[derive(Debug, Drop)]
pub struct Rest {
    /// The memories of those that live on.
    pub survivors: Bag,
    /// The births, agent by agent in content order.
    pub born: Seq<Born>,
    /// The fault of the least agent that faulted.
    pub fault: Option<SimFault>,
}
