//! Conditions of functions, filters of inputs and keys of sorts, read once and then answered by columns.
#![tactic(auto)]

mod conditions;
mod equalities;
mod filters;
mod forms;
mod keys;
pub mod laws;
mod names;
mod numbers;
mod periods;
mod reading;
mod row_tests;

pub use conditions::Cond;
pub use equalities::{EqualTo, Equality};
pub use filters::Filter;
pub use keys::SortBy;
pub use numbers::number_at;
pub use row_tests::{ColumnTest, RowTest};
