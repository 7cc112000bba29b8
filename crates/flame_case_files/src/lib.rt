//! Files of cases: what calls of the other crates are tried on, and what is wanted of them.
#![tactic(auto)]

mod case;
mod given;

pub use case::{Case, Section, read_cases};
pub use given::{boards_in, numbers_in};
