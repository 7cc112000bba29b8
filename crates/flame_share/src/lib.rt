//! Pieces of a function's work, and their shares.
#![tactic(auto)]

mod cuts;
mod parts;
mod runs;

pub use cuts::cut;
pub use runs::run_piece;
