//! Sets of names, seen as lists.
#![tactic(auto)]

mod sets;

pub use sets::Names;
