//! Iterations by layers: the functions of a layer run side by side, each over the boards as they were when the layer began,
//! and the layers one after another.
#![tactic(auto)]

pub mod laws;
mod stops;

pub use stops::Stop;
