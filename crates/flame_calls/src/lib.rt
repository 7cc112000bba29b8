//! Calls of helpers that go in a cycle, or too deep.
#![tactic(auto)]

mod checking;
mod faults;
mod judging;
mod marking;

pub use checking::call_faults;
