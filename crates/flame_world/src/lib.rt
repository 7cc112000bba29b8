//! The world of agents and its iteration: how the agents of a population go through the functions of a model, and what
//! a share of that work is.
#![tactic(auto)]

mod faults;
pub mod laws;
mod pieces;
mod settings;
mod shares;
mod turns;
mod verdicts;
mod worlds;

pub use faults::SimFault;
pub use pieces::{Part, Piece, Rest};
pub use settings::Setting;
pub use shares::Share;
pub use turns::Turn;
pub use verdicts::Verdict;
pub use worlds::{Boards, World};
