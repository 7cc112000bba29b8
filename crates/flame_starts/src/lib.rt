//! The starts that populations hold, read by the tokens of their texts.
#![tactic(auto)]

mod starts;

pub use starts::start;
