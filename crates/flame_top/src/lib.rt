//! The top call: carries out a command line over files, an output and a line for errors.
#![tactic(auto)]

mod ending;
mod files;
mod inputs;
pub mod laws;
mod migrations;
mod orders;
mod refusals;
mod replays;
mod runs;
mod tell;
mod texts;
mod top;
mod traces;
mod trials;

pub use top::{Ended, flame};
