//! What the readers of texts and words answer to cases, as texts.
#![tactic(auto)]

mod lexing;
mod ordering;
mod parsing;
mod sources;
mod trees;

pub use lexing::answer_tokens;
pub use ordering::answer_order;
pub use parsing::{answer_expression, answer_trees};
pub use sources::units_in;
