//! Which texts are names.

ghost use Rattle.std.specs.Prelude.{◌≡◌};
ghost use Rattle.std.specs.List.{list_all};
ghost use Rattle.flame_spec.specs.Names.{is_name};
ghost use Rattle.flame_ops.specs.Ascii.{begins_word, is_word_byte};

/// Whether the text is a name: 1 to 100 bytes, a letter or `_` first, then letters, digits and `_`.
pub(crate) fn is_name(text: &str) -> bool
    ensures { result ≡ is_name text.now }
{
    let bytes = text.as_bytes();
    bytes.len() > 0 && bytes.len() <= 100 && begins_word(bytes[0]) && has_word_bytes(bytes)
}

fn begins_word(b: u8) -> bool
    ensures { result ≡ begins_word b }
{
    b.is_ascii_alphabetic() || b == b'_'
}

fn is_word_byte(b: u8) -> bool
    ensures { result ≡ is_word_byte b }
{
    begins_word(b) || b.is_ascii_digit()
}

fn has_word_bytes(bytes: &[u8]) -> bool
    ensures { result ≡ list_all is_word_byte bytes.now }
{
    bytes.iter().all(|b| is_word_byte(*b))
}
