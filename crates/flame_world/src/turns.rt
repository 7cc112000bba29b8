//! What an iteration comes to.

use crate::faults::SimFault;
use crate::worlds::{Boards, World};

/// What an iteration comes to.
#[derive(Debug, Drop)]
pub enum Turn {
    /// The agents and the messages at its end.
    Done(World, Boards),
    /// Its fault.
    Faulted(SimFault),
}
