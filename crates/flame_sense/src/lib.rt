//! A plain program that gives what a transition function means: its outcome for an agent.
#![tactic(auto)]

mod arguments;
mod deed;
mod ending;
mod expression;
mod filter;
mod found;
mod outcome;
mod reading;
mod scene;
mod statement;
mod store;
mod words;

pub use outcome::evaluate;
