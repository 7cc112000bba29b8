//! What a word is as a value.

ghost use Rattle.std.specs.Prelude.{◌≡◌, ◌<◌, ◌^◌, IsTrue};
ghost use Rattle.std.specs.List.{list_all};
ghost use Rattle.std.specs.Char.{is_ascii_digit};
ghost use Rattle.std.specs.Option.{SomeIff};
ghost use Rattle.flame_words.specs.WordValues.{is_number, number_value, way_of, format_of, fault_as};

use crate::faults::Usage;
use crate::orders::Way;
use crate::table::Takes;

/// Why the word of this number cannot be taken so, if it cannot.
pub(crate) fn fault_as(takes: Takes, number: u32, word: &str) -> Option<Usage>
    ensures { result ≡ fault_as takes number word.now }
{
    match takes {
        Takes::Text => None,
        Takes::Number(least, most) => number_fault(least, most, number, word),
        Takes::OneOf(choice) => {
            if choice.has(word) {
                None
            } else {
                Some(Usage::BadChoice(number))
            }
        }
    }
}

/// Why the word of this number is no number from the least to the most.
fn number_fault(least: u32, most: u32, number: u32, word: &str) -> Option<Usage>
    ensures { result ≡ fault_as (Takes.Number least most) number word.now }
{
    if !is_number(word) {
        return Some(Usage::BadNumber(number));
    }
    match number_value(word) {
        Some(value) => {
            if least <= value && value <= most {
                None
            } else {
                Some(Usage::OutOfRange(number))
            }
        }
        None => Some(Usage::OutOfRange(number)),
    }
}

/// Whether the word is one or more digits.
fn is_number(word: &str) -> bool
    ensures { result ≡ is_number word.now }
{
    !word.is_empty() && has_digits(word.as_bytes())
}

/// Whether all bytes are digits.
fn has_digits(bytes: &[u8]) -> bool
    ensures { result ≡ list_all is_ascii_digit bytes.now }
{
    bytes.iter().all(|b| b.is_ascii_digit())
}

/// The number that digits write, none where it is above 4294967295.
#[tactic(auto, using(crate::proofs::Numerals::parsed))]
pub(crate) fn number_value(word: &str) -> Option<u32>
    requires { IsTrue (is_number word.now) }
    ensures { SomeIff result (number_value word.now < 2 ^ 32) (number_value word.now) }
{
    match word.parse::<u32>() {
        Ok(value) => Some(value),
        Err(_) => None,
    }
}

/// The way that the word names.
pub(crate) fn way_of(word: &str) -> Way
    ensures { result ≡ way_of word.now }
{
    if word == "flow" {
        Way::Flow
    } else if word == "nodes" {
        Way::Nodes
    } else {
        Way::Layers
    }
}

/// The format of files that the word names.
pub(crate) fn format_of(word: &str) -> u32
    ensures { result ≡ format_of word.now }
{
    if word == "2" { 2 } else { 1 }
}
