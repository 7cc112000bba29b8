//! What every runner promises, and the runner of iterations on one thread.
#![tactic(auto)]

mod closures;
mod iterations;
mod plain;
mod runners;
mod steps;

pub use closures::ClosureRunner;
pub use iterations::iterate;
pub use plain::PlainRunner;
pub use runners::Runner;
