//! Pools of agents that rest in a state: which function each agent takes, and who is left when one has taken its own.
#![tactic(auto)]

mod choices;
pub mod laws;
mod pools;

pub use choices::{choose, choose_here, choose_rows};
pub use pools::{take, turn_over};
