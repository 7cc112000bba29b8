//! The command line: which order the words give, or the first fault of their usage.
#![tactic(auto)]

mod faults;
pub mod laws;
mod make;
mod orders;
mod reader;
mod reading;
mod table;
mod value;

pub use faults::Usage;
pub use orders::{How, Order, RunOrder, TraceOrder, TrialOrder, Way};
pub use reader::order;
