//! Kinds of bytes.

ghost use Rattle.std.specs.Prelude.{◌≡◌};
ghost use Rattle.flame_ops.specs.Ascii.{begins_word, is_word_byte};
ghost use Rattle.flame_lex.specs.ByteRuns.{is_blank, is_space_or_tab};

/// Whether the byte is a space, tab, LF, CR, VT or FF.
pub(crate) fn is_blank_byte(b: u8) -> bool
    ensures { result ≡ is_blank b }
{
    matches!(b, b' ' | b'\t' | b'\n' | b'\r' | 0x0b | 0x0c)
}

/// Whether the byte is a space or a tab.
pub(crate) fn is_in_gap(b: u8) -> bool
    ensures { result ≡ is_space_or_tab b }
{
    matches!(b, b' ' | b'\t')
}

/// Whether a word may begin with the byte.
pub(crate) fn is_first_of_word(b: u8) -> bool
    ensures { result ≡ begins_word b }
{
    b.is_ascii_alphabetic() || b == b'_'
}

/// Whether a word goes on with the byte.
pub(crate) fn is_in_word(b: u8) -> bool
    ensures { result ≡ is_word_byte b }
{
    is_first_of_word(b) || b.is_ascii_digit()
}
