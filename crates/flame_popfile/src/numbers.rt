//! Whole numbers of a population.

ghost use Rattle.std.specs.Prelude.{◌≡◌, drop, if◌then◌else◌, option_and_then};
ghost use Rattle.std.specs.Char.{is_ascii_digit};
ghost use Rattle.std.specs.List.{list_all};
ghost use Rattle.std.specs.Str.Parse.{starts_with_minus};
ghost use Rattle.serde_json.specs.View.{view, number_view};
ghost use Rattle.serde_json.specs.Find.{as_integer};
ghost use Rattle.flame_xmml.specs.Wants.{held, int_of, is_whole, whole_named};
ghost use Rattle.flame_popfile.specs.PopulationParts.{number_of, int_faults, number_faults, is_itno};
ghost use Rattle.flame_popfile.specs.PopulationNumbers.{int_read, int_read_of};
ghost use Rattle.flame_xmml.specs.ValuePlaces.{path_of};
ghost use Rattle.flame_spec.specs.FirstFaults.{Reads};

use crate::faults::{PopFault, PopKind};
use crate::parts::fault;
use flame_rows::Fail;
use flame_xmml::Place;
use serde_json::{Number, Value};
use std::alloc::Global;

/// The number at a place, where it is a whole number of int.
pub(crate) fn int_at(alloc: Global, place: &Place<'_>, value: &Value) -> Result<i32, Fail<PopFault>>
    ensures { Reads (int_faults (path_of place.now) (view value.now)) (number_of (view value.now)) result }
{
    match read_int(value) {
        Ok(number) => Ok(number),
        Err(kind) => Err(fault(alloc, place, kind)),
    }
}

/// The number at a place, where it may be that of an iteration.
pub(crate) fn itno_at(
    alloc: Global,
    place: &Place<'_>,
    value: &Value,
) -> Result<i32, Fail<PopFault>>
    ensures { Reads
        (number_faults is_itno (path_of place.now) (view value.now))
        (number_of (view value.now))
        result }
{
    match read_int(value) {
        Ok(number) => {
            if number >= 0 {
                Ok(number)
            } else {
                Err(fault(alloc, place, PopKind::OutOfInt))
            }
        }
        Err(kind) => Err(fault(alloc, place, kind)),
    }
}

/// The whole number of int that the value is, if it is one.
pub(crate) fn int_in(value: &Value) -> Option<i32>
    ensures { result ≡ int_of (view value.now) }
{
    match read_int(value) {
        Ok(number) => Some(number),
        Err(_) => None,
    }
}

/// The whole number of int that the value is; 0 where it is none.
pub(crate) fn number_of(value: &Value) -> i32
    ensures { result ≡ number_of (view value.now) }
{
    match read_int(value) {
        Ok(number) => number,
        Err(_) => 0,
    }
}

/// The whole number of int that the value is, or what is wrong with it.
fn read_int(value: &Value) -> Result<i32, PopKind>
    ensures { result ≡ int_read (view value.now) }
{
    match value {
        Value::Number(number) => int_of_number(number),
        Value::String(text) => int_named(text.as_str()),
        _ => Err(PopKind::Shape),
    }
}

/// The integer, where int holds it.
fn int_of_number(number: &Number) -> Result<i32, PopKind>
    ensures { result ≡ int_read_of (as_integer (number_view number.now)) }
{
    match number.as_i64() {
        Some(number) => {
            if number < i64::from(i32::MIN) || number > i64::from(i32::MAX) {
                Err(PopKind::OutOfInt)
            } else {
                Ok(number as i32)
            }
        }
        None => {
            if number.is_u64() {
                Err(PopKind::OutOfInt)
            } else {
                Err(PopKind::Shape)
            }
        }
    }
}

/// The number that the text writes, where int holds it.
fn int_named(text: &str) -> Result<i32, PopKind>
    ensures { result ≡ int_read_of (whole_named text.now) }
{
    match int_written(text) {
        Some(number) => Ok(number),
        None => {
            if is_whole(text.as_bytes()) {
                Err(PopKind::OutOfInt)
            } else {
                Err(PopKind::Shape)
            }
        }
    }
}

/// The number that the text writes, where it writes one that int holds.
#[tactic(auto, using(flame_xmml::proofs::Parsed::parsed))]
fn int_written(text: &str) -> Option<i32>
    ensures { result ≡ option_and_then held (whole_named text.now) }
{
    if let [b'+', ..] = text.as_bytes() {
        return None;
    }
    text.parse::<i32>().ok()
}

/// Whether the text is an optional `-` and one or more digits, and nothing else.
fn is_whole(text: &[u8]) -> bool
    ensures { result ≡ is_whole text.now }
{
    let digits = behind_minus(text);
    digits.len() > 0 && are_digits(digits)
}

fn are_digits(bytes: &[u8]) -> bool
    ensures { result ≡ list_all is_ascii_digit bytes.now }
{
    bytes.iter().all(|byte| byte.is_ascii_digit())
}

/// What follows a `-`, where the text begins with one.
fn behind_minus(text: &[u8]) -> &[u8]
    ensures { result.now ≡ drop (if starts_with_minus text.now then 1 else 0) text.now }
{
    match text {
        [b'-', digits @ ..] => digits,
        _ => text,
    }
}
