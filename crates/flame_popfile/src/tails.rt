//! Bytes at whose end a text stands.

ghost use Rattle.std.specs.Prelude.{◌≤◌, length};

/// A text that is written from its end: it stands at the end of the bytes, from `start` on.
#[derive(Drop)]
pub(crate) struct Tail {
    pub(crate) bytes: Vec<u8>,
    pub(crate) start: usize,
    ghost within: { start ≤ length bytes.items },
}
