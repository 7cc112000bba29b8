//! What loading answers to cases, as texts.
#![tactic(auto)]

mod lines;
mod loading;
mod starting;

pub use loading::answer_load;
