//! The core of an iteration: events that come in any order that is legal, and the theorem that each such order comes to
//! the iteration.
#![tactic(auto)]

mod events;
pub mod laws;

pub use events::Event;
