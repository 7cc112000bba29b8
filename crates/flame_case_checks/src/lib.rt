//! What the checker answers to cases, as texts.
#![tactic(auto)]

mod checking;

pub use checking::answer_check;
