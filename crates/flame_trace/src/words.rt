//! Words of a line.

ghost use Rattle.std.specs.Prelude.{◌≡◌, [], ◌∷◌, MatchOption};
ghost use Rattle.std.specs.Str.{bytes_eq};
ghost use Rattle.flame_trace.specs.TraceCuts.{words_left};

use crate::cuts::cut_at;

/// The first of the words that are left of a line, and those that are left then; none where none is left.
pub(crate) fn next_word(left: Option<&[u8]>) -> Option<(&[u8], Option<&[u8]>)>
    ensures { MatchOption result
        (words_left left.entry ≡ [])
        (λ next. words_left left.entry ≡ next.0.now ∷ words_left next.1) }
{
    let bytes = left?;
    match cut_at(bytes, b' ') {
        Some((word, rest)) => Some((word, Some(rest))),
        None => Some((bytes, None)),
    }
}

/// Whether it is this word.
pub(crate) fn is_word(word: &[u8], name: &str) -> bool
    ensures { result ≡ bytes_eq word.now name.now }
{
    word == name.as_bytes()
}
