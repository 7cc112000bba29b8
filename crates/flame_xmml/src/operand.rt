//! Operands of conditions.

ghost use Rattle.std.specs.Prelude.{◌≡◌, option_map, IfOk};
ghost use Rattle.serde_json.specs.View.{view};
ghost use Rattle.flame_xmml.specs.Wants.{after_prefix, name_after, operand_of, phase_of};

use crate::names::is_name;
use crate::numbers::int_of;
use flame_rows::{NoMemory, Text};
use flame_spec::Operand;
use serde_json::Value;
use std::alloc::Global;

/// A whole number in the range of int, or a text of `a.` or `m.` and a name.
pub(crate) fn operand_of(alloc: Global, value: &Value) -> Result<Option<Operand>, NoMemory>
    ensures { IfOk result (λ operand. operand ≡ operand_of (view value.now)) }
{
    if let Some(number) = int_of(value) {
        return Ok(Some(Operand::Number(number)));
    }
    let Some(text) = value.as_str() else {
        return Ok(None);
    };
    if let Some(name) = name_after("a.", text) {
        return Ok(Some(Operand::Agent(Text::of(alloc, name)?)));
    }
    match name_after("m.", text) {
        Some(name) => Ok(Some(Operand::Message(Text::of(alloc, name)?))),
        None => Ok(None),
    }
}

/// A whole number in the range of int, or a text of `a.` and a name.
pub(crate) fn phase_of(alloc: Global, value: &Value) -> Result<Option<Operand>, NoMemory>
    ensures { IfOk result (λ phase. phase ≡ phase_of (view value.now)) }
{
    if let Some(number) = int_of(value) {
        return Ok(Some(Operand::Number(number)));
    }
    let Some(text) = value.as_str() else {
        return Ok(None);
    };
    match name_after("a.", text) {
        Some(name) => Ok(Some(Operand::Agent(Text::of(alloc, name)?))),
        None => Ok(None),
    }
}

/// The name that follows the prefix of a text.
fn name_after<'t>(prefix: &str, text: &'t str) -> Option<&'t str>
    ensures { option_map (λ name. name.now) result ≡ name_after prefix.now text.now }
{
    let name = after_prefix(prefix, text)?;
    if is_name(name) { Some(name) } else { None }
}

/// What follows the prefix of a text.
#[tactic(auto, using(crate::proofs::Prefixes::stripped))]
fn after_prefix<'t>(prefix: &str, text: &'t str) -> Option<&'t str>
    ensures { option_map (λ rest. rest.now) result ≡ after_prefix prefix.now text.now }
{
    text.strip_prefix(prefix)
}
