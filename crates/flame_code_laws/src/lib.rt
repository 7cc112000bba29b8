//! That the code of a numbered body does what the body does.
#![tactic(auto)]

pub mod laws;
