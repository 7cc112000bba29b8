//! Define lines (C standard, 6.10.3: a macro without parameters, here of one number).

ghost use Rattle.std.specs.Prelude.{◌≡◌, ◌<◌, true, false, length, take_while, option_map, IfSome, MatchOption};
ghost use Rattle.std.specs.List.{list_all};
ghost use Rattle.flame_ops.specs.Ascii.{begins_word, is_word_byte};
ghost use Rattle.flame_lex.specs.ByteRuns.{is_space_or_tab, first_is, behind};
ghost use Rattle.flame_lex.specs.DefineLines.{definition, number_on, is_idle};

use crate::bytes::{is_blank_byte, is_first_of_word, is_in_gap};
use crate::number::small_value;
use crate::scan::{behind_close, space_length, word_length};
use flame_rows::Text;

/// A word and the number that a define line gives it.
#[derive(Drop)]
pub(crate) struct Define {
    pub name: Text,
    pub value: i32,
}

/// What a define line says, where it stands.
pub(crate) struct Definition<'a> {
    pub name: &'a [u8],
    pub value: i32,
}

/// The word and the number of what stands behind `#define` on a line, none where it is not made so.
pub(crate) fn read_definition(bytes: &[u8]) -> Option<Definition<'_>>
    ensures says { option_map (λ d. record { name = d.name.now; value = d.value }) result ≡ definition bytes.now }
    ensures word { IfSome result (λ d. list_all is_word_byte d.name.now ≡ true) }
{
    let from_name = behind_spaces(bytes)?;
    let name = word_at(from_name)?;
    let from_number = behind_spaces(&from_name[name.len()..])?;
    let value = number_on(from_number)?;
    Some(Definition { name, value })
}

/// What follows the spaces and tabs at the front, none where none stands there.
fn behind_spaces(bytes: &[u8]) -> Option<&[u8]>
    ensures { MatchOption result
        (first_is is_space_or_tab bytes.now ≡ false)
        (λ rest. (first_is is_space_or_tab bytes.now ≡ true) × (rest.now ≡ behind is_space_or_tab bytes.now)) }
{
    match bytes {
        [b, ..] if is_in_gap(*b) => Some(&bytes[space_length(bytes)..]),
        _ => None,
    }
}

/// The word at the front, none where none stands there.
fn word_at(bytes: &[u8]) -> Option<&[u8]>
    ensures { MatchOption result
        (first_is begins_word bytes.now ≡ false)
        (λ word. (first_is begins_word bytes.now ≡ true) × (word.now ≡ take_while is_word_byte bytes.now)) }
{
    match bytes {
        [b, ..] if is_first_of_word(*b) => Some(&bytes[..word_length(bytes)]),
        _ => None,
    }
}

/// The number with its sign, where behind it nothing but blanks and comments stands.
fn number_on(bytes: &[u8]) -> Option<i32>
    ensures { result ≡ number_on bytes.now }
{
    let (negative, digits) = match bytes {
        [b'-', digits @ ..] => (true, digits),
        _ => (false, bytes),
    };
    let length = word_length(digits);
    if !is_idle(&digits[length..]) {
        return None;
    }
    let value = small_value(&digits[..length])? as i32;
    Some(if negative { -value } else { value })
}

/// Whether these bytes of one line are blanks and comments.
fn is_idle(bytes: &[u8]) -> bool
    ensures { result ≡ is_idle bytes.now }
{
    let mut rest = bytes;
    while !rest.is_empty() {
        let Some(behind) = past_idle(rest) else {
            return false;
        };
        rest = behind;
    }
    true
}

/// What follows the blank or the comment at the front of these bytes of one line, none where neither stands there.
fn past_idle(bytes: &[u8]) -> Option<&[u8]>
    requires { 0 < length bytes.now }
    ensures { MatchOption result
        (is_idle bytes.now ≡ false)
        (λ rest. (is_idle rest.now ≡ is_idle bytes.now) × (length rest.now < length bytes.now)) }
{
    match bytes {
        [b'/', b'/', ..] => Some(&[]),
        [b'/', b'*', inside @ ..] => Some(behind_close(inside)?),
        [b, rest @ ..] if is_blank_byte(*b) => Some(rest),
        _ => None,
    }
}
