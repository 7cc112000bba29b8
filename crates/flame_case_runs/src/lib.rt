//! What runs answer to cases, as texts.
#![tactic(auto)]

mod absorbs;
mod accepting;
mod answering;
mod beginnings;
mod changes;
mod cores;
mod events;
mod fitting;
mod flows;
mod iterations;
mod makings;
mod orders;
mod paths;
mod shares;
mod terms;
mod worlds;

pub use answering::{answer_core, answer_flow, answer_orders};
pub use fitting::fits;
pub use iterations::answer_iteration;
pub use worlds::world_in;
