//! Runs iterations by layers: the functions of a layer run side by side, their agents in pieces that workers share.
#![tactic(auto)]

mod alone;
mod bringing;
mod choosing;
mod iterations;
mod layers;
mod openings;
mod outputs;
mod runners;
mod schedules;
mod working;

pub use runners::Layers;
