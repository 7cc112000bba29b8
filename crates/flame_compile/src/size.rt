//! How many instructions expressions have.

ghost use Rattle.std.specs.Prelude.{◌≡◌, ◌+◌, length, map, IfOk};
ghost use Rattle.flame_spec.specs.Columns.{width_by};
ghost use Rattle.flame_compile.specs.Pieces.{in_order};
ghost use Rattle.flame_compile.specs.Emit.{signs_code, load as loading, tested_size as testing_size, expression, link, arguments};

use crate::places::sum;
use flame_body::{Slot, SlotExpr, SlotLink, Span};
use flame_rows::NoMemory;
use flame_spec::{Sign, SignKind};

/// How many columns a variable has.
pub(crate) fn width(span: &Span) -> u32
    ensures { result ≡ width_by span.now.length }
{
    match span.length {
        Some(length) => length,
        None => 1,
    }
}

/// The instructions of a name that is read.
#[tactic(auto, using(crate::proofs::RowSizes::each_column_length))]
fn load_size(slot: &Slot) -> u32
    ensures { result ≡ length (loading slot.now) }
{
    match slot {
        Slot::Memory(span) => width(span),
        _ => 1,
    }
}

/// The instructions of signs.
#[tactic(auto, using(crate::proofs::RowSizes::signs_length))]
fn signs_size(signs: &[Sign]) -> Result<u32, NoMemory>
    ensures { IfOk result (λ n. n ≡ length (signs_code signs.now)) }
{
    let mut size = 0;
    for sign in signs {
        if sign.kind != SignKind::Plus {
            size = sum(size, 1)?;
        }
    }
    Ok(size)
}

/// The instructions of an expression.
#[cycle(expression_size)]
#[tactic(auto, using(crate::proofs::RowSizes::each_column_length))]
pub(crate) fn expression_size(e: &SlotExpr) -> Result<u32, NoMemory>
    ensures { IfOk result (λ n. n ≡ (expression e.now).size) }
{
    match e {
        SlotExpr::Number(_) => Ok(1),
        SlotExpr::Name(slot) => Ok(load_size(slot)),
        SlotExpr::Field(_, span) => Ok(width(span)),
        SlotExpr::Get(_) => Ok(1),
        SlotExpr::At(_, subscript) => sum(expression_size(subscript.index.get())?, 1),
        SlotExpr::FieldAt(_, _, subscript) => sum(expression_size(subscript.index.get())?, 1),
        SlotExpr::Unary(signs, e) => sum(expression_size(e.get())?, signs_size(signs.items())?),
        SlotExpr::Chain(e, links) => sum(expression_size(e.get())?, links_size(links.items())?),
        SlotExpr::All(parts) => sum(tested_size(parts.items())?, 3),
        SlotExpr::Any(parts) => sum(tested_size(parts.items())?, 3),
    }
}

/// The instructions of operators with their operands.
#[cycle(expression_size)]
fn links_size(links: &[SlotLink]) -> Result<u32, NoMemory>
    ensures { IfOk result (λ n. n ≡ (in_order (map link links.now)).size) }
{
    let mut size = 0;
    for link in links {
        size = sum(sum(size, expression_size(&link.right)?)?, 1)?;
    }
    Ok(size)
}

/// The instructions of parts with a jump behind each.
#[cycle(expression_size)]
pub(crate) fn tested_size(parts: &[SlotExpr]) -> Result<u32, NoMemory>
    ensures { IfOk result (λ n. n ≡ testing_size (map expression parts.now)) }
{
    let mut size = 0;
    for part in parts {
        size = sum(sum(size, expression_size(part)?)?, 1)?;
    }
    Ok(size)
}

/// The instructions of arguments.
pub(crate) fn arguments_size(es: &[SlotExpr]) -> Result<u32, NoMemory>
    ensures { IfOk result (λ n. n ≡ (arguments es.now).size) }
{
    let mut size = 0;
    for e in es {
        size = sum(size, expression_size(e)?)?;
    }
    Ok(size)
}
