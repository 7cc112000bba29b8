//! What programs answer to cases, as texts.
#![tactic(auto)]

mod accepting;
mod coding;
mod listings;
mod outcomes;
mod sources;

pub use accepting::program_of;
pub use listings::{answer_code, answer_graph};
pub use outcomes::answer_outcome;
pub use sources::{Sourced, source_in};
