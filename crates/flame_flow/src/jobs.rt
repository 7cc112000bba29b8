//! What workers may do.

use flame_index::Frozen;
use flame_rows::Seq;
use flame_world::Piece;
use std::sync::Arc;

/// What a worker may do with a flow.
#[derive(Clone, Copy, Debug)]
pub enum Ready {
    /// Nothing more: a `begin`, `settle` or `take_in` found no memory, or the flow was cut short.
    Short,
    /// Nothing more: the iteration is complete.
    Done,
    /// Begin the piece of that number of the function of that number.
    Work(u32, u32),
    /// Wait: pieces were begun that are not settled.
    Idle,
}

/// A piece that was begun, for who runs it.
#[derive(Drop)]
pub struct Job {
    /// The piece.
    pub piece: Piece,
    /// The boards of its function's inputs, in their order.
    pub boards: Seq<Arc<Frozen>>,
}
