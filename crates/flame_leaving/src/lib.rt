//! What agents leave that run a function, and that parts of them leave together what all leave.
#![tactic(auto)]

pub mod laws;
mod leavings;

pub use leavings::{Leaving, lesser_fault};
