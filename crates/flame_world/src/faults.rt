//! Faults of iterations.

use flame_ops::Cause;
use flame_rows::Row;

/// A fault of an agent in an iteration: where it came, why, and with which memory.
#[derive(Debug, Drop)]
pub struct SimFault {
    /// The number of the iteration.
    pub iteration: i32,
    /// The number of the function, in document order.
    pub function: u32,
    /// Why the agent faulted.
    pub cause: Cause,
    /// The line in the function file, from 1.
    pub line: u32,
    /// The agent's memory at entry.
    pub memory: Row,
}
