//! Where agents, births and messages are while an iteration goes on, and how boards are read.
#![tactic(auto)]

mod boards;
mod fields;
mod gatherings;
mod keeping;
mod pools;
mod sharing;

pub use boards::Board;
pub use fields::Field;
pub use gatherings::Gathering;
pub use keeping::Want;
pub use pools::{Pool, exchange, exchanged, pool_of};
pub use sharing::share;
