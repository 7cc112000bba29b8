//! The check of a model's function files: their first fault, or bodies with numbers in place of names.
#![tactic(auto)]

mod checking;
mod defining;
mod fault;
mod numbering;
mod rows;
mod walking;

pub use checking::{Checked, check};
