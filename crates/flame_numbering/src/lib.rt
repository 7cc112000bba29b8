//! The walk of a C function: its body with numbers in place of names, or its first fault.
#![tactic(auto)]

mod call;
mod expression;
mod fault;
mod function;
mod locals;
mod loops;
mod name;
mod simple;
mod spot;
mod statement;
mod stored;

pub use function::definition;
