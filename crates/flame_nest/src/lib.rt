//! Model files with data types and nested files, and the flat model that they mean.
#![tactic(auto)]

mod copies;
mod earlier;
mod faults;
mod fields;
mod flattening;
mod joining;
mod kinds;
pub mod laws;
mod messages;
mod noting;
mod refusing;
mod types;
mod variables;
mod walking;

pub use faults::{NestFault, NestKind};
pub use flattening::flatten;
