//! What a look-up gives.

use flame_spec::{AgentType, Def, Function, MessageType, Variable};
use std::alloc::AllocError;

/// An item of a list with its number; of a variable, its column instead.
pub struct Found<'a, T> {
    /// The number, from 0, or the column.
    pub at: u32,
    /// The item.
    pub item: &'a T,
}

impl<'a, T> Clone for Found<'a, T> {
    fn clone(&self) -> Result<Found<'a, T>, AllocError> {
        Ok(*self)
    }
}

impl<'a, T> Copy for Found<'a, T> {}

/// A C function and the number of its file.
#[derive(Clone, Copy)]
pub struct CFunction<'a> {
    /// The number of the file among the model's files.
    pub file: u32,
    /// Its definition.
    pub def: &'a Def,
}

/// A helper and its number in source order.
#[derive(Clone, Copy)]
pub struct Helper<'a> {
    /// The number, from 0.
    pub number: u32,
    /// The C function.
    pub function: CFunction<'a>,
}

/// A function of the model with its type.
#[derive(Clone, Copy)]
pub struct Transition<'a> {
    /// The number of the type.
    pub number: u32,
    /// The type.
    pub agent: &'a AgentType,
    /// The function.
    pub function: &'a Function,
}

/// What a model gives to a word that is no local.
#[derive(Clone, Copy)]
pub enum Meant<'a> {
    /// A memory variable with its column.
    Memory(Found<'a, Variable>),
    /// The constant of this number.
    Constant(u32),
    /// The number of the iteration.
    Iteration,
}

/// What a call statement does.
#[derive(Clone, Copy)]
pub enum Act<'a> {
    /// It sets this memory variable.
    Sets(Found<'a, Variable>),
    /// It sends a message of this type.
    Sends(Found<'a, MessageType>),
    /// It bears an agent of this type.
    Bears(Found<'a, AgentType>),
    /// It calls this helper.
    Calls(Helper<'a>),
}
