//! Whole numbers and lists of them.

ghost use Rattle.std.specs.Prelude.{◌≡◌, ◌++◌, ◌∷◌, ◌+◌, ◌^◌, ◌<◌, [], length, map, IfSome, OnSome, All, true};
ghost use Rattle.std.specs.Fmt.{decimal, signed_decimal};
ghost use Rattle.json.specs.Token.{begin_array, end_array};
ghost use Rattle.json.specs.Tree.{json_tokens};
ghost use Rattle.flame_ops.specs.Integers.{is_int};
ghost use Rattle.flame_tokens.specs.NumberTrees.{number_tree, begun, row_tree};

use json::{Reader, Token};
use std::alloc::Global;

/// The most digits that a whole number of int has.
const MOST_DIGITS: usize = 10;

/// The number that the byte writes as a digit.
#[inline(always)]
fn digit(byte: u8) -> Option<u64>
    ensures value { IfSome result (λ number. byte ≡ 48 + number) }
    ensures below { IfSome result (λ number. number < 10) }
{
    if byte.is_ascii_digit() {
        Some(u64::from(byte - b'0'))
    } else {
        None
    }
}

/// The number that the bytes write in digits, ten at most, with no zero before others.
#[inline(always)]
fn natural(bytes: &[u8]) -> Option<u64>
    ensures text { IfSome result (λ number. bytes.now ≡ decimal number) }
    ensures below { IfSome result (λ number. number < 10 ^ 10) }
{
    if bytes.is_empty() || bytes.len() > MOST_DIGITS {
        return None;
    }
    let mut number = digit(bytes[0])?;
    if number == 0 && bytes.len() > 1 {
        return None;
    }
    for place in 1..bytes.len() {
        number = 10 * number + digit(bytes[place])?;
    }
    Some(number)
}

/// The number of int that is as large.
#[inline(always)]
fn positive(number: u64) -> Option<i32>
    ensures text { IfSome result (λ found. signed_decimal found ≡ decimal number) }
    ensures int { IfSome result (λ found. is_int found ≡ true) }
{
    i32::try_from(number).ok()
}

/// The number of int that is as far below 0, where that is not 0.
#[inline(always)]
fn negative(number: u64) -> Option<i32>
    requires { number < 10 ^ 10 }
    ensures text { IfSome result (λ found. signed_decimal found ≡ 45 ∷ decimal number) }
    ensures int { IfSome result (λ found. is_int found ≡ true) }
{
    if number == 0 {
        return None;
    }
    i32::try_from(-(number as i64)).ok()
}

/// The whole number of int that the text writes as it is printed: with no sign but a `-`, and no zero before others.
#[inline(always)]
pub(crate) fn printed(text: &str) -> Option<i32>
    ensures text { IfSome result (λ number. text.now ≡ signed_decimal number) }
    ensures int { IfSome result (λ number. is_int number ≡ true) }
{
    match text.as_bytes() {
        [b'-', digits @ ..] => negative(natural(digits)?),
        digits => positive(natural(digits)?),
    }
}

/// The whole number of int that comes next.
#[inline(always)]
pub(crate) fn number(reader: &mut Reader<'_>) -> Option<i32>
    ensures tokens { IfSome result (λ number. reader.old ≡ json_tokens (number_tree number) ++ reader.new) }
    ensures int { IfSome result (λ number. is_int number ≡ true) }
{
    match reader.next()? {
        Token::Number(text) => printed(text),
        _ => None,
    }
}

/// Passes the bracket that opens a list, where it comes next.
#[inline(always)]
pub(crate) fn begins(reader: &mut Reader<'_>) -> Option<()>
    ensures { OnSome result (reader.old ≡ begin_array ∷ reader.new) }
{
    match reader.next()? {
        Token::BeginArray => Some(()),
        _ => None,
    }
}

/// Passes the bracket that closes a list, where it comes next.
#[inline(always)]
pub(crate) fn ends(reader: &mut Reader<'_>) -> Option<()>
    ensures { OnSome result (reader.old ≡ end_array ∷ reader.new) }
{
    match reader.next()? {
        Token::EndArray => Some(()),
        _ => None,
    }
}

/// Adds a number to a row.
#[inline(always)]
pub(crate) fn add(row: &mut Vec<i32>, number: i32) -> Option<()>
    ensures { OnSome result (row.new.items ≡ row.old.items ++ number ∷ []) }
{
    match row.push(number) {
        Ok(()) => Some(()),
        Err(_) => None,
    }
}

/// Fills the empty row with the so many whole numbers of int that come next.
#[tactic(auto, using(crate::proofs::TokenLists::mapped_more))]
#[inline(always)]
fn fill_numbers(reader: &mut Reader<'_>, count: usize, row: &mut Vec<i32>) -> Option<()>
    requires { row.old.items ≡ [] }
    ensures tokens { OnSome result (reader.old ≡ begun (map number_tree row.new.items) ++ reader.new) }
    ensures count { OnSome result (length row.new.items ≡ count) }
    ensures ints { OnSome result (All (λ number. is_int number ≡ true) row.new.items) }
{
    for _turn in 0..count {
        row.push(number(reader)?).ok()?;
    }
    Some(())
}

/// Fills the empty row with the list of so many whole numbers of int that comes next.
#[tactic(auto, using(crate::proofs::TokenLists::list_closed))]
#[inline(always)]
pub(crate) fn fill(reader: &mut Reader<'_>, count: usize, row: &mut Vec<i32>) -> Option<()>
    requires { row.old.items ≡ [] }
    ensures tokens { OnSome result (reader.old ≡ json_tokens (row_tree row.new.items) ++ reader.new) }
    ensures count { OnSome result (length row.new.items ≡ count) }
    ensures ints { OnSome result (All (λ number. is_int number ≡ true) row.new.items) }
{
    begins(reader)?;
    fill_numbers(reader, count, row)?;
    if reader.take_end_array() {
        Some(())
    } else {
        None
    }
}

/// The list of so many whole numbers of int that comes next.
pub(crate) fn list(alloc: Global, reader: &mut Reader<'_>, count: usize) -> Option<Vec<i32>>
    ensures tokens { IfSome result (λ row. reader.old ≡ json_tokens (row_tree row.items) ++ reader.new) }
    ensures count { IfSome result (λ row. length row.items ≡ count) }
    ensures ints { IfSome result (λ row. All (λ number. is_int number ≡ true) row.items) }
{
    let mut row = Vec::new(alloc);
    fill(reader, count, &mut row)?;
    Some(row)
}
