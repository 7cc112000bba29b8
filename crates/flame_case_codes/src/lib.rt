//! What runs of codes answer to cases, as texts.
#![tactic(auto)]

mod listing;
mod printing;
mod running;

pub use listing::code_in;
pub use printing::print_outcome;
pub use running::{Scene, answer_machine, print_run, scene_in};
