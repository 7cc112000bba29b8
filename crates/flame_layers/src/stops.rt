//! Where an iteration stops.

use flame_world::SimFault;

/// Where an iteration stops: the least rank of a function of which an agent faulted, and its fault. Functions of this rank
/// and above are not run any more.
#[derive(Debug, Drop)]
pub struct Stop {
    /// The rank of the function: its place in model order.
    pub rank: u32,
    /// Its fault.
    pub fault: SimFault,
}
