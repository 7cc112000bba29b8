//! The first fault of the names of a model.
#![tactic(auto)]

mod agents;
mod faults;
mod functions;
mod leaves;
mod lengths;
mod messages;
mod naming;
mod path;
mod table;
mod variables;

pub use naming::names;
