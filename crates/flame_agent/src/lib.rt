//! Runs of functions for agents, by the code of a program.
#![tactic(auto)]

mod agents;
mod codes;
mod shared;
mod views;
mod wants;

pub use agents::run_agents;
pub use shared::reads_memory;
pub use wants::wanted_key;
