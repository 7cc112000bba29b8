//! Orders, cycles and layers of numbered nodes, where it is known which node stands before which.
#![tactic(auto)]

mod cycle;
mod heights;
mod lists;
mod order;
mod ready;

pub use cycle::{begin_with_least, first_waiting, walk_back};
pub use heights::layers;
pub use lists::{Successors, empty_lists};
pub use order::{Ordered, put_in_order};
