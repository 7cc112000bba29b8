//! What a run goes by.

use flame_popfile::Format;
use flame_program::Program;

/// What a run goes by, the same for each iteration.
#[derive(Clone, Copy)]
pub(crate) struct Plan<'a> {
    /// The program that is run.
    pub program: &'a Program,
    /// The fuel of each call of a function.
    pub fuel: u32,
    /// The version of the files.
    pub format: Format,
    /// What the names of the files begin with.
    pub prefix: &'a str,
    /// How many workers write the text of a file.
    pub workers: u32,
}
