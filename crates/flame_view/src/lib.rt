//! Views of boards: the messages that a message loop goes over.
#![tactic(auto)]

mod inputs;
pub mod laws;
mod lists;
mod order;
mod picks;
mod ranges;
mod shown;
mod viewing;
mod ways;

pub use inputs::Views;
pub use shown::View;
