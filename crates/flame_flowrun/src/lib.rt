//! The runner of iterations by workers that share a flow: no layer waits for another.
#![tactic(auto)]

mod desks;
mod held;
mod runners;

pub use runners::FlowRunner;
