//! Laws of the widths of rows. A law is its contract: it computes nothing.

ghost use Rattle.flame_spec_laws.specs.ArrayWidths.{MemoryArraysAreNear, MessageArraysAreNear, SinglesAreCounted};
ghost use Rattle.flame_spec_laws.specs.ArrayWidths.{MemoriesAreNarrow, MessagesAreNarrow};

/// In a model without name faults the columns of each array of a memory and of a message end within 4,096, so a row
/// that ends in an array is at most 4,096 numbers wide, and each row at most 4,095 numbers wider than it has variables.
pub fn near_arrays()
    ensures memories { MemoryArraysAreNear }
    ensures messages { MessageArraysAreNear }
{}

/// A row of single variables is as wide as it has variables. Where the parts of a model can be numbered, memories and
/// messages are narrower than 2^32 numbers.
pub fn narrow_rows()
    ensures counted { SinglesAreCounted }
    ensures memories { MemoriesAreNarrow }
    ensures messages { MessagesAreNarrow }
{}
