//! What the reading and writing of populations answer to cases, as texts.
#![tactic(auto)]

mod boards;
mod populations;

pub use populations::answer_population;
