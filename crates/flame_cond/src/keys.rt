//! Keys that the rows of an input are sorted by.

ghost use Rattle.std.specs.Prelude.{◌<◌, ◌^◌};
ghost use Rattle.flame_spec.specs.Columns.{width};
ghost use Rattle.flame_cond.specs.Said.{SaysKey};

use crate::names::column;
use flame_spec::{MessageType, Sort};

/// What the rows of an input are sorted by.
#[derive(Clone, Copy, Debug, PartialEq, Eq)]
pub struct SortBy {
    /// The column of the message's variable.
    pub variable: u32,
    /// Whether the greatest number there comes first.
    pub descending: bool,
}

impl SortBy {
    /// Reads the sort of an input of this message.
    pub fn of(sort: &Sort, message: &MessageType) -> SortBy
        requires { width message.now.variables < 2 ^ 32 }
        ensures { SaysKey result sort.now message.now }
    {
        SortBy {
            variable: column(message.variables.items(), sort.key.as_str()),
            descending: sort.descending,
        }
    }
}
