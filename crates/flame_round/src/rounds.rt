//! What an iteration has throughout.

use flame_field::Want;
use flame_program::Program;
use flame_rows::Row;

/// What stays the same throughout an iteration.
#[derive(Clone, Copy)]
pub struct Round<'a> {
    /// The program of the model and its function files.
    pub program: &'a Program,
    /// The constants, in the order of the model.
    pub constants: &'a Row,
    /// The number of the iteration.
    pub iteration: i32,
    /// The fuel of each call of a function.
    pub fuel: u32,
    /// What is wanted kept beside the board of each message. What agents read does not depend on it.
    pub wants: &'a [Vec<Want>],
}
