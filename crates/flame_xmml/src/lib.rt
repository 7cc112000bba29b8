//! Reading the JSON form of an XMML model: the model, or the model file with data types and nested files, that a value
//! stands for, or the first fault of its shape.
#![tactic(auto)]

mod condition;
mod faults;
mod keys;
pub mod laws;
mod list;
mod member;
mod names;
mod numbers;
mod operand;
mod parts;
mod place;
mod reader;
mod rows;
mod wide;
mod words;

pub use faults::{Shape, Want};
pub use parts::{members, part};
pub use place::{Place, path};
pub use reader::model_of;
pub use wide::wide_of;
