//! Numbers (C standard, 6.4.4.1: decimal and hexadecimal constants without a suffix).

ghost use Rattle.std.specs.Prelude.{◌≡◌, ◌<◌, ◌≤◌, ⊤, option_map, IfOk, IfErr, IfSome, MatchOption};
ghost use Rattle.std.specs.List.{list_all};
ghost use Rattle.std.specs.Char.{digit_value, is_ascii_digit, is_ascii_hexdigit};
ghost use Rattle.flame_lex.specs.DefineLines.{small_value};
ghost use Rattle.flame_lex.specs.Numerals.{value_in, is_decimal, is_hexadecimal, number_value, IsNumber};
ghost use Rattle.flame_lex.specs.LexSteps.{IsNumberFault};

use crate::fault::LexFault;

/// The digits of a number and their base.
struct Numeral<'a> {
    base: u32,
    digits: &'a [u8],
}

/// The value of the run of letters, digits and `_` at this place.
pub(crate) fn number(run: &[u8], at: u32) -> Result<i32, LexFault>
    ensures number { IfOk result (λ n. IsNumber n run.now) }
    ensures fault { IfErr result (λ fault. IsNumberFault at run.now fault) }
{
    let Some(Numeral { base, digits }) = numeral_of(run) else {
        return Err(LexFault::BadNumber(at));
    };
    match value(base, digits) {
        Some(value) => Ok(value as i32),
        None => Err(LexFault::BigNumber(at)),
    }
}

/// The value of the run, none where it is no number or above 2147483647.
pub(crate) fn small_value(run: &[u8]) -> Option<u32>
    ensures value { result ≡ small_value run.now }
    ensures small { IfSome result (λ n. n ≤ 2147483647) }
{
    let Numeral { base, digits } = numeral_of(run)?;
    value(base, digits)
}

/// The base and the digits of the run, none where it is no number.
fn numeral_of(run: &[u8]) -> Option<Numeral<'_>>
    ensures digits { option_map (λ n. value_in n.base n.digits.now) result ≡ number_value run.now }
    ensures base { MatchOption result ⊤ (λ n. (0 < n.base) × (n.base ≤ 16)) }
{
    if is_decimal_run(run) {
        Some(Numeral {
            base: 10,
            digits: run,
        })
    } else if is_hexadecimal_run(run) {
        Some(Numeral {
            base: 16,
            digits: &run[2..],
        })
    } else {
        None
    }
}

/// Whether the run is `0`, or a digit from 1 to 9 and further digits.
fn is_decimal_run(run: &[u8]) -> bool
    ensures { result ≡ is_decimal run.now }
{
    match run {
        [] => false,
        [first, further @ ..] => are_digits(run) && (*first != b'0' || further.is_empty()),
    }
}

/// Whether the run is `0x` or `0X` and one or more hexadecimal digits.
fn is_hexadecimal_run(run: &[u8]) -> bool
    ensures { result ≡ is_hexadecimal run.now }
{
    match run {
        [b'0', b'x' | b'X', digits @ ..] => !digits.is_empty() && are_hexadecimal(digits),
        _ => false,
    }
}

/// Whether all are digits.
fn are_digits(bytes: &[u8]) -> bool
    ensures { result ≡ list_all is_ascii_digit bytes.now }
{
    bytes.iter().all(|b| b.is_ascii_digit())
}

/// Whether all are hexadecimal digits.
fn are_hexadecimal(bytes: &[u8]) -> bool
    ensures { result ≡ list_all is_ascii_hexdigit bytes.now }
{
    bytes.iter().all(|b| b.is_ascii_hexdigit())
}

/// The number that the digits write in the base, none where it is above 2147483647.
fn value(base: u32, digits: &[u8]) -> Option<u32>
    requires some { 0 < base }
    requires few { base ≤ 16 }
    ensures { MatchOption result
        (2147483647 < value_in base digits.now)
        (λ n. (n ≡ value_in base digits.now) × (n ≤ 2147483647)) }
{
    let mut value: u64 = 0;
    for b in digits {
        value = value * base as u64 + digit(*b) as u64;
        if value > i32::MAX as u64 {
            return None;
        }
    }
    Some(value as u32)
}

/// What a digit or a letter counts, 36 for any other byte.
fn digit(b: u8) -> u32
    ensures { result ≡ digit_value b }
{
    match b {
        b'0'..=b'9' => (b - b'0') as u32,
        b'A'..=b'Z' => (b - b'A') as u32 + 10,
        b'a'..=b'z' => (b - b'a') as u32 + 10,
        _ => 36,
    }
}
