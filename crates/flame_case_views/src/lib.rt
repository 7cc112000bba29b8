//! What conditions, choices, indexes and views answer to cases, as texts.
#![tactic(auto)]

mod choosing;
mod deciding;
mod indexing;
mod readable;
mod viewing;

pub use choosing::answer_choices;
pub use deciding::answer_conditions;
pub use indexing::answer_indexes;
pub use viewing::answer_views;
