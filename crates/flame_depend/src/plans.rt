//! The order of a model's functions.

use flame_rows::{Seq, Text};

/// The order of a model's functions, their layers, and where the agents of its types start. Functions are numbered
/// from 0 in document order.
#[derive(Debug, Drop)]
pub struct Plan {
    /// All functions, in the order in which they run.
    pub order: Seq<u32>,
    /// For each function its layer: 0 where none stands before it, else 1 more than the greatest layer of those that
    /// do.
    pub layers: Seq<u32>,
    /// For each agent type its start state.
    pub starts: Seq<Text>,
}
