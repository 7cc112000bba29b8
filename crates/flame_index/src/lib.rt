//! Boards that no message joins any more, and indexes of their messages.
#![tactic(auto)]

mod boards;
mod entries;
mod indexes;
pub mod laws;
mod starts;
mod steps;

pub use boards::Frozen;
pub use indexes::Index;
pub use steps::Steps;
