//! The code of bodies.
#![tactic(auto)]

mod block_size;
mod compiler;
mod emitter;
mod expression;
pub mod laws;
mod places;
mod size;
mod statement;
mod stored;

pub use compiler::compile;
