//! Programs: accepted sources with their codes, conditions, filters and keys.
#![tactic(auto)]

mod compiling;
pub mod laws;
mod parts;
mod program;
mod reading;

pub use program::Program;
