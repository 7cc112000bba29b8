//! The machine that runs codes.
#![tactic(auto)]

mod additions;
mod endings;
mod fitting;
mod frames;
mod givens;
mod lists;
mod pools;
mod rooms;
mod running;
mod steps;

pub use endings::Ending;
pub use fitting::{fits_entry, helpers_of};
pub use lists::Lists;
pub use rooms::{Room, run};
