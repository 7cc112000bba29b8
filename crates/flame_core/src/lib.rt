//! Cores, by which an iteration goes on by events.
#![tactic(auto)]

mod absorbing;
mod cores;
mod ending;
mod faults;
mod happening;
mod inputs;
mod ranks;
mod recorded;
mod starting;

pub use cores::Core;
pub use faults::StepFault;
pub use flame_events::Event;
pub use recorded::Recorded;
