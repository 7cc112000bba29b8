//! The reader of function files: tokens to trees.
#![tactic(auto)]

mod files;
pub mod laws;
mod operators;
mod simple;
mod stmt;
mod unit;

pub use files::parse;
