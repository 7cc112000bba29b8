//! The order in which the functions of a model run: what stands before what, the order, layers, cycles and start
//! states.
#![tactic(auto)]

mod faults;
mod links;
mod pairs;
mod place;
mod planner;
pub mod plans;
mod starts;
mod table;

pub use faults::{CycleFault, DependFault, ManyStarts};
pub use pairs::{Edge, edges};
pub use planner::plan;
pub use starts::entered_states;
