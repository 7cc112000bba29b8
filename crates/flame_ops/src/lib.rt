//! The operators of transition functions on `int`, and the spellings of operators, keywords and directives in their
//! source.
#![tactic(auto)]

mod integers;
pub mod laws;
mod spelling;
mod table;
mod words;

pub use integers::{Cause, Op, apply, negate};
pub use table::Table;
pub use words::{directives, keywords, longest, operators};
