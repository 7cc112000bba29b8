//! Loading: the program of the source that a depot's files stand for, and the start that a population file holds for it; or the
//! first refusal.
#![tactic(auto)]

mod faults;
mod files;
mod function_files;
pub mod laws;
mod loader;
mod model_files;
mod starts;

pub use faults::{FileFault, LoadFail, LoadFault, TextFault};
pub use loader::load;
pub use starts::{StartFail, start};
