//! Flows: the core of an iteration whose pieces run elsewhere, all else being done as soon as it may be.
#![tactic(auto)]

mod flows;
mod goings;
mod histories;
mod jobs;
mod numbers;
mod ordered;
mod told;
mod ways;

pub use flows::Flow;
pub use jobs::{Job, Ready};
