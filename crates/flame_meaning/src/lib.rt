//! What transition functions mean, and what holds of it.
#![tactic(auto)]

pub mod accepted_laws;
pub mod laws;
