//! How far the functions of an iteration are: their pieces, and what waits for what.
#![tactic(auto)]

pub mod laws;
mod partings;
mod statuses;
mod waits;
mod works;

pub use partings::parted;
pub use statuses::Status;
pub use waits::Waits;
pub use works::{Output, Work};
