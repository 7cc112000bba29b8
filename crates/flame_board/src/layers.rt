//! The pieces of a layer.

ghost use Rattle.std.specs.Prelude.{◌≤◌};

use flame_rows::Seq;

/// A piece of a layer.
#[derive(Debug, Drop)]
pub struct Key {
    /// The number of its function, in document order.
    pub function: u32,
    /// The number of the piece among those of the function.
    pub number: u32,
    /// The messages that the function outputs, by number.
    pub outputs: Seq<u32>,
}

/// The pieces of the functions of a layer, in the order in which they are begun, and how many lanes they go to, which is one
/// at least: the piece in place p goes to lane p mod lanes.
#[derive(Drop)]
pub struct Layer {
    /// The pieces.
    pub pieces: Seq<Key>,
    /// How many lanes there are.
    pub lanes: u32,
    ghost some: { 1 ≤ lanes },
}

/// A part that is due.
#[derive(Clone, Copy, Debug)]
pub struct Due {
    /// The number of the function.
    pub function: u32,
    /// The number of the piece among those of the function.
    pub number: u32,
    /// The number of the message type.
    pub message: u32,
}
