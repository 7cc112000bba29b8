//! Worlds and boards.

use flame_rows::{Bag, Row, Seq};

/// The agents of a population.
#[derive(Debug, Drop)]
pub struct World {
    /// The constants, in the order of the model.
    pub constants: Row,
    /// The agents of each type, in the order of the model: the bag of their memories.
    pub agents: Seq<Bag>,
}

/// The messages of an iteration.
#[derive(Debug, Drop)]
pub struct Boards {
    /// The board of each message type, in the order of the model: the bag of its messages.
    pub boards: Seq<Bag>,
}
