//! How far an iteration is: its functions, agents, births and boards, and how events change them.
#![tactic(auto)]

mod counts;
mod events;
mod handing;
mod leavings;
mod legal;
mod progress;
mod rooms;
mod telling;

pub use counts::Counts;
pub use events::{freeze, hand_in, shut};
pub use leavings::PartedLeaving;
pub use legal::allows;
pub use progress::Progress;
pub use rooms::PieceRooms;
pub use telling::{tell_waiters, wait_for};
