//! How far words, spaces, lines and comments go.

ghost use Rattle.std.specs.Prelude.{◌≡◌, length, take_while, MatchOption};
ghost use Rattle.flame_ops.specs.Ascii.{is_word_byte};
ghost use Rattle.flame_lex.specs.ByteRuns.{stays_on_line, is_space_or_tab};
ghost use Rattle.flame_lex.specs.DefineLines.{after_close};

use crate::bytes::{is_in_gap, is_in_word};

/// How many letters, digits and `_` stand at the front.
pub(crate) fn word_length(bytes: &[u8]) -> usize
    ensures { result ≡ length (take_while is_word_byte bytes.now) }
{
    bytes.iter().take_while(|b| is_in_word(**b)).count()
}

/// How many spaces and tabs stand at the front.
pub(crate) fn space_length(bytes: &[u8]) -> usize
    ensures { result ≡ length (take_while is_space_or_tab bytes.now) }
{
    bytes.iter().take_while(|b| is_in_gap(**b)).count()
}

/// How many bytes stand before the next LF or the end.
pub(crate) fn line_length(bytes: &[u8]) -> usize
    ensures { result ≡ length (take_while stays_on_line bytes.now) }
{
    bytes.iter().take_while(|b| **b != b'\n').count()
}

/// What follows the next `*/`.
pub(crate) fn behind_close(bytes: &[u8]) -> Option<&[u8]>
    ensures { MatchOption result (after_close bytes.now ≡ None) (λ rest. after_close bytes.now ≡ Some rest.now) }
{
    let mut rest = bytes;
    while let [_, tail @ ..] = rest {
        if let [b'*', b'/', behind @ ..] = rest {
            return Some(behind);
        }
        rest = tail;
    }
    None
}
