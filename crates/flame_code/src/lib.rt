//! What the code of transition functions runs on.
#![tactic(auto)]

mod codes;
mod feeds;
mod helpers;
mod instrs;
mod labels;
pub mod laws;

pub use codes::Code;
pub use feeds::Feed;
pub use helpers::{Helpers, calls_fit};
pub use instrs::Instr;
pub use labels::{Label, labelled, labels_fit};
