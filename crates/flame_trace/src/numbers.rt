//! Numbers that are read.

ghost use Rattle.std.specs.Prelude.{◌≡◌, ◌<◌, IsTrue};
ghost use Rattle.std.specs.Option.{SomeIff};
ghost use Rattle.std.specs.List.{list_all};
ghost use Rattle.std.specs.Char.{is_ascii_digit, digit_value};
ghost use Rattle.flame_trace.specs.TraceLines.{is_numeral, number_of, number_within, numeral_value};

/// The number of a function, a piece or a message that the word writes.
pub(crate) fn number_of(word: &[u8]) -> Option<u32>
    ensures { result ≡ number_of word.now }
{
    number_within(word, 0, u32::MAX)
}

/// The number that the word writes in digits, without leading zeros, where it is one from the least to the most.
pub(crate) fn number_within(word: &[u8], least: u32, most: u32) -> Option<u32>
    ensures { result ≡ number_within least most word.now }
{
    if !is_numeral(word) {
        return None;
    }
    let number = value(word)?;
    if least <= number && number <= most {
        Some(number)
    } else {
        None
    }
}

/// Whether these are digits, of which the first is 0 only where there is no other.
fn is_numeral(word: &[u8]) -> bool
    ensures { result ≡ is_numeral word.now }
{
    match word {
        [] => false,
        [first, further @ ..] => are_digits(word) && (*first != b'0' || further.is_empty()),
    }
}

/// Whether all are digits.
fn are_digits(bytes: &[u8]) -> bool
    ensures { result ≡ list_all is_ascii_digit bytes.now }
{
    bytes.iter().all(|byte| byte.is_ascii_digit())
}

/// The number that the digits write; none where 32 bits do not hold it.
fn value(digits: &[u8]) -> Option<u32>
    requires { IsTrue (list_all is_ascii_digit digits.now) }
    ensures { SomeIff result (numeral_value digits.now < 4294967296) (numeral_value digits.now) }
{
    let mut value: u64 = 0;
    for digit in digits {
        value = value * 10 + u64::from(digit_of(*digit));
        if value > u64::from(u32::MAX) {
            return None;
        }
    }
    Some(value as u32)
}

/// What a digit counts.
fn digit_of(digit: u8) -> u8
    requires { IsTrue (is_ascii_digit digit) }
    ensures { result ≡ digit_value digit }
{
    digit - b'0'
}
