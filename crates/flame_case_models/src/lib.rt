//! What the readers of models answer to cases, as texts.
#![tactic(auto)]

mod modeling;
mod naming;
mod nesting;
mod planning;

pub use modeling::{Found, answer_model, answer_shape, answer_wide, model_in};
pub use naming::answer_names;
pub use nesting::answer_flat;
pub use planning::answer_plan;
