//! Populations, as writers write them, read by the tokens of their texts.
#![tactic(auto)]

mod agents;
mod bags;
mod members;
mod memories;
mod numbers;
mod parts;
mod passing;
mod populations;
mod states;
mod types;

pub use populations::{Population, read};
