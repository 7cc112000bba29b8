//! Bags that several workers put together.
#![tactic(auto)]

mod cutting;
mod lists;
mod merging;
mod shapes;

pub use merging::{merge_bags, merge_here};
