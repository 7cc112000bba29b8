//! Spellings.

ghost use Rattle.std.specs.Prelude.{◌≡◌, ◌<◌, ◌≤◌, length};

use std::marker::Model;

/// The most bytes of a spelling.
const MOST: usize = 8;

/// The spelling of an operator or a keyword, 1 to `MOST` bytes, seen as their list.
#[derive(Debug, Drop)]
pub(crate) struct Spelling {
    bytes: [u8; MOST],
    len: usize,
}

impl Model for Spelling {
    ghost use Rattle.std.specs.Prelude.{◌<◌, ◌≤◌, List, ℕ, take};
    ghost use Rattle.flame_ops.specs.declared.spelling.TheConstants.{MOST};

    ghost Value = { List ℕ };

    ghost view = { λ s. take s.len s.bytes };

    ghost invariant = { λ s. (0 < s.len) × (s.len ≤ MOST) };
}

impl Spelling {
    /// The spelling of these bytes.
    pub fn of(bytes: &[u8]) -> Spelling
        requires filled { 0 < length bytes.now }
        requires fits { length bytes.now ≤ MOST }
        ensures { result ≡ bytes.now }
    {
        let mut held = [0; MOST];
        held[..bytes.len()].copy_from_slice(bytes);
        Spelling {
            bytes: held,
            len: bytes.len(),
        }
    }

    /// The bytes in order.
    pub fn bytes(&self) -> &[u8]
        ensures bytes { result.now ≡ self.now }
        ensures filled { 0 < length self.now }
    {
        &self.bytes[..self.len]
    }
}
