//! The boards of a layer: each lane hands in what its pieces send, over a channel of its own, and a board is frozen of all
//! that its lanes handed in.
#![tactic(auto)]

mod boards;
mod freezing;
mod lanes;
mod layers;
mod logs;
mod pieces;

pub use boards::Board;
pub use lanes::Lane;
pub use layers::{Due, Key, Layer};
