//! What bodies mean that have numbers in place of names: what those with names do.
#![tactic(auto)]

pub mod laws;
