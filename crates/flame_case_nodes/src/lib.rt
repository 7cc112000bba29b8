//! What the calls of nodes answer to cases, as texts.
#![tactic(auto)]

mod changes;
mod fitting;
mod gathering;
mod partings;
mod printing;
mod readings;
mod shares;

pub use gathering::answer_gather;
pub use partings::answer_part;
