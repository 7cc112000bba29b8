//! The driver: runs iterations one after another, and writes for each its file and then its line.
#![tactic(auto)]

mod drivers;
mod iterations;
pub mod laws;
mod names;
mod plans;
mod stages;

pub use drivers::{DriveEnd, Driven, drive};
pub use names::file_name;
