//! The texts of recorded iterations, and their checker.
#![tactic(auto)]

mod checking;
mod cuts;
mod ends;
mod heads;
pub mod laws;
mod numbers;
mod reading;
mod texts;
mod words;
mod writing;

pub use checking::replay;
pub use texts::trace_text;
