//! The files of a trial: a meadow of rabbits and foxes, with its model, its function file, and populations of any size
//! drawn from a seed.
#![tactic(auto)]

mod files;
mod populations;

pub use files::{meadow_model, meadow_source};
pub use populations::meadow_population;
