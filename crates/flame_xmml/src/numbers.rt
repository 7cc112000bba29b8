//! Whole numbers of a model.

ghost use Rattle.std.specs.Prelude.{◌≡◌, option_and_then};
ghost use Rattle.serde_json.specs.View.{view, number_view};
ghost use Rattle.serde_json.specs.Find.{as_integer};
ghost use Rattle.flame_xmml.specs.ValueData.{data_of};
ghost use Rattle.flame_xmml.specs.Wants.{held, whole_named, int_of, positive_of, length_of};

use serde_json::{Number, Value};

/// A whole number in the range of int: a JSON number, or a text of an optional `-` and one or more digits.
pub(crate) fn int_of(value: &Value) -> Option<i32>
    ensures { result ≡ int_of (view value.now) }
{
    match value {
        Value::Number(number) => int_of_number(number),
        Value::String(text) => int_named(text.as_str()),
        _ => None,
    }
}

/// A whole number from 1 to 2147483647.
pub(crate) fn positive_of(value: Option<&Value>) -> Option<i32>
    ensures { result ≡ positive_of (data_of value.entry) }
{
    let number = int_of(value?)?;
    if number >= 1 { Some(number) } else { None }
}

/// A whole number from 1 to 1000.
pub(crate) fn length_of(value: &Value) -> Option<u32>
    ensures { result ≡ length_of (view value.now) }
{
    let number = int_of(value)?;
    if number >= 1 && number <= 1000 {
        Some(number.unsigned_abs())
    } else {
        None
    }
}

/// The integer, where int holds it.
fn int_of_number(number: &Number) -> Option<i32>
    ensures { result ≡ option_and_then held (as_integer (number_view number.now)) }
{
    let number = number.as_i64()?;
    if number < i64::from(i32::MIN) || number > i64::from(i32::MAX) {
        None
    } else {
        Some(number as i32)
    }
}

/// The number that the text writes, where it writes one that int holds.
#[tactic(auto, using(crate::proofs::Parsed::parsed))]
fn int_named(text: &str) -> Option<i32>
    ensures { result ≡ option_and_then held (whole_named text.now) }
{
    if let [b'+', ..] = text.as_bytes() {
        return None;
    }
    text.parse::<i32>().ok()
}
