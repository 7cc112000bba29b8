//! Iterations run by nodes: the agents that take a function are parted, each node runs its part in a thread of its own, but the
//! last, which is the caller, and what the nodes send back is gathered.
#![tactic(auto)]

mod columns;
mod gathering;
mod iterations;
pub mod laws;
mod lefts;
mod partings;
mod pieces;
mod runners;
mod steps;
mod terms;
mod working;

pub use gathering::gather;
pub use partings::{Parting, part};
pub use runners::Nodes;
