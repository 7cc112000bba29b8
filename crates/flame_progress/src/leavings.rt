//! What agents of a piece left.

use flame_rows::Row;
use flame_spec::Born;
use flame_world::SimFault;

/// What some agents of a piece left, their messages parted by the outputs of their function.
#[derive(Debug, Drop)]
pub struct PartedLeaving {
    /// How many they are.
    pub ran: usize,
    /// The memories of those that live on, in any order.
    pub survivors: Vec<Row>,
    /// What they sent: a list for each output, in the order of the outputs.
    pub parts: Vec<Vec<Row>>,
    /// Their births.
    pub born: Vec<Born>,
    /// The least fault of those that faulted.
    pub fault: Option<SimFault>,
}
