//! What the texts, numbers and truths of a model are read as.

ghost use Rattle.std.specs.Prelude.{◌≡◌, option_map};
ghost use Rattle.serde_json.specs.View.{view};
ghost use Rattle.flame_xmml.specs.ValueData.{data_of};
ghost use Rattle.flame_xmml.specs.Wants.{name_of, filled_of, int_type_of, order_of, truth_of, truth_named, empty_of};
ghost use Rattle.flame_xmml.specs.Wants.{connective_of, connective_named};

use crate::names::is_name;
use crate::parts::members;
use flame_ops::Op;
use serde_json::Value;

/// What the text at `op` makes of two sides.
#[derive(Clone, Copy)]
pub(crate) enum Connective {
    /// A comparison of two operands.
    Compare(Op),
    /// Both conditions hold.
    And,
    /// One of the conditions holds, or both.
    Or,
}

/// The text, where it is a name.
pub(crate) fn name_of(value: Option<&Value>) -> Option<&str>
    ensures { option_map (λ name. name.now) result ≡ name_of (data_of value.entry) }
{
    let text = value?.as_str()?;
    if is_name(text) { Some(text) } else { None }
}

/// The text, where it has at least one byte.
pub(crate) fn filled_of(value: Option<&Value>) -> Option<&str>
    ensures { option_map (λ text. text.now) result ≡ filled_of (data_of value.entry) }
{
    let text = value?.as_str()?;
    if text.is_empty() { None } else { Some(text) }
}

/// The text `int`.
pub(crate) fn int_type_of(value: Option<&Value>) -> Option<&str>
    ensures { option_map (λ text. text.now) result ≡ int_type_of (data_of value.entry) }
{
    let text = value?.as_str()?;
    if text == "int" { Some(text) } else { None }
}

/// Whether the greatest comes first.
pub(crate) fn order_of(value: Option<&Value>) -> Option<bool>
    ensures { result ≡ order_of (data_of value.entry) }
{
    match value?.as_str()? {
        "ascend" => Some(false),
        "descend" => Some(true),
        _ => None,
    }
}

/// A truth, or the text of one.
pub(crate) fn truth_of(value: &Value) -> Option<bool>
    ensures { result ≡ truth_of (view value.now) }
{
    match value {
        Value::Bool(truth) => Some(*truth),
        Value::String(text) => truth_named(text.as_str()),
        _ => None,
    }
}

fn truth_named(text: &str) -> Option<bool>
    ensures { result ≡ truth_named text.now }
{
    match text {
        "true" => Some(true),
        "false" => Some(false),
        _ => None,
    }
}

/// The operator of a condition.
pub(crate) fn connective_of(value: Option<&Value>) -> Option<Connective>
    ensures { result ≡ connective_of (data_of value.entry) }
{
    connective_named(value?.as_str()?)
}

fn connective_named(text: &str) -> Option<Connective>
    ensures { result ≡ connective_named text.now }
{
    match text {
        "EQ" => Some(Connective::Compare(Op::Eq)),
        "NEQ" => Some(Connective::Compare(Op::Ne)),
        "LT" => Some(Connective::Compare(Op::Lt)),
        "GT" => Some(Connective::Compare(Op::Gt)),
        "LEQ" => Some(Connective::Compare(Op::Le)),
        "GEQ" => Some(Connective::Compare(Op::Ge)),
        "AND" => Some(Connective::And),
        "OR" => Some(Connective::Or),
        _ => None,
    }
}
