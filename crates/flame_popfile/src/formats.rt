//! Versions of population files.

/// A version of population files.
#[derive(Clone, Copy, Debug, PartialEq, Eq)]
pub enum Format {
    /// Version 1: each agent is a member of its own, with its numbers behind the names of its variables (FLAME User
    /// Manual).
    One,
    /// Version 2: each type is one member, with the rows of its agents.
    Two,
}
