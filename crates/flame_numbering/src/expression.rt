//! Expressions.

ghost use Rattle.std.specs.Prelude.{◌≡◌, [], IfErr, IfOk, OnOk, option_map};
ghost use Rattle.flame_spec.specs.ExpressionFaults.{expression_faults, parts_faults, links_faults, optional_faults};
ghost use Rattle.flame_spec.specs.FirstFaults.{FailsFirst};
ghost use Rattle.flame_spec.specs.Seen.{expression as seen, expressions, indexed, links as links_seen};
ghost use Rattle.flame_lookup.specs.Sources.{context_at};
ghost use Rattle.flame_body.specs.NumberedTrees.{numbered, numbered_parts, numbered_links, numbered_index};
ghost use Rattle.flame_numbering.specs.WordPlaces.{words_at};

use crate::name::{array, field, field_array, got, input_read, single};
use crate::spot::Spot;
use flame_body::{SlotExpr, SlotLink, SlotSubscript};
use flame_lookup::Words;
use flame_rows::{Boxed, Fail, NoMemory, Seq};
use flame_spec::{CheckFault, Expr, Link, Sign, Subscript};
use std::alloc::Global;

/// The same signs.
fn copied(alloc: Global, signs: &[Sign]) -> Result<Seq<Sign>, NoMemory>
    ensures { IfOk result (λ copied. copied ≡ signs.now) }
{
    let mut copied = Vec::new(alloc);
    for sign in signs {
        copied.push(*sign)?;
    }
    Ok(Seq::of(copied))
}

/// An expression with numbers in place of names, or its first fault.
#[cycle(walk)]
pub(crate) fn expression(
    alloc: Global,
    words: &Words<'_, '_>,
    spot: &Spot<'_>,
    e: &Expr,
) -> Result<SlotExpr, Fail<CheckFault>>
    ensures clean { OnOk result (expression_faults (context_at words.now) spot.now (seen e.now) ≡ []) }
    ensures stands { IfOk result (λ slots. slots ≡ numbered (words_at words.now) spot.now (seen e.now)) }
    ensures first { IfErr result (FailsFirst (expression_faults (context_at words.now) spot.now (seen e.now))) }
{
    match e {
        Expr::Number(n) => Ok(SlotExpr::Number(*n)),
        Expr::Name(line, word) => {
            let slot = single(alloc, words, spot, *line, word.as_str())?;
            Ok(SlotExpr::Name(slot))
        }
        Expr::Field(line, word, variable) => {
            let span = field(alloc, words, spot, *line, word.as_str(), variable.as_str())?;
            Ok(SlotExpr::Field(input_read(words, word.as_str()), span))
        }
        Expr::Get(line, word) => {
            let column = got(alloc, words, *line, word.as_str())?;
            Ok(SlotExpr::Get(column))
        }
        Expr::At(line, word, subscript) => {
            let cells = array(alloc, words, spot, *line, word.as_str())?;
            let index = index(alloc, words, spot, subscript)?;
            Ok(SlotExpr::At(cells, index))
        }
        Expr::FieldAt(line, word, variable, subscript) => {
            let cells = field_array(alloc, words, spot, *line, word.as_str(), variable.as_str())?;
            let index = index(alloc, words, spot, subscript)?;
            Ok(SlotExpr::FieldAt(input_read(words, word.as_str()), cells, index))
        }
        Expr::Unary(signs, e) => {
            let inner = expression(alloc, words, spot, e)?;
            let inner = Boxed::of(alloc, inner)?;
            let signs = copied(alloc, signs.items())?;
            Ok(SlotExpr::Unary(signs, inner))
        }
        Expr::Chain(e, more) => {
            let first = expression(alloc, words, spot, e)?;
            let first = Boxed::of(alloc, first)?;
            let more = links(alloc, words, spot, more.items())?;
            Ok(SlotExpr::Chain(first, more))
        }
        Expr::All(es) => {
            let es = parts(alloc, words, spot, es.items())?;
            Ok(SlotExpr::All(es))
        }
        Expr::Any(es) => {
            let es = parts(alloc, words, spot, es.items())?;
            Ok(SlotExpr::Any(es))
        }
    }
}

/// Which element of an array.
#[cycle(walk)]
pub(crate) fn index(
    alloc: Global,
    words: &Words<'_, '_>,
    spot: &Spot<'_>,
    subscript: &Subscript,
) -> Result<SlotSubscript, Fail<CheckFault>>
    ensures clean { OnOk result
        (expression_faults (context_at words.now) spot.now (indexed subscript.now).index ≡ []) }
    ensures stands { IfOk result (λ slots.
        slots ≡ numbered_index (words_at words.now) spot.now (indexed subscript.now)) }
    ensures first { IfErr result
        (FailsFirst (expression_faults (context_at words.now) spot.now (indexed subscript.now).index)) }
{
    let index = expression(alloc, words, spot, subscript.index.get())?;
    let index = Boxed::of(alloc, index)?;
    Ok(SlotSubscript {
        line: subscript.line,
        index,
    })
}

/// Expressions in order.
#[cycle(walk)]
pub(crate) fn parts(
    alloc: Global,
    words: &Words<'_, '_>,
    spot: &Spot<'_>,
    es: &[Expr],
) -> Result<Seq<SlotExpr>, Fail<CheckFault>>
    ensures clean { OnOk result (parts_faults (context_at words.now) spot.now (expressions es.now) ≡ []) }
    ensures stands { IfOk result (λ slots.
        slots ≡ numbered_parts (words_at words.now) spot.now (expressions es.now)) }
    ensures first { IfErr result (FailsFirst (parts_faults (context_at words.now) spot.now (expressions es.now))) }
{
    let mut slots = Vec::new(alloc);
    for e in es {
        let slot = expression(alloc, words, spot, e)?;
        slots.push(slot)?;
    }
    Ok(Seq::of(slots))
}

/// Operators with their operands, in order.
#[cycle(walk)]
fn links(
    alloc: Global,
    words: &Words<'_, '_>,
    spot: &Spot<'_>,
    links: &[Link],
) -> Result<Seq<SlotLink>, Fail<CheckFault>>
    ensures clean { OnOk result (links_faults (context_at words.now) spot.now (links_seen links.now) ≡ []) }
    ensures stands { IfOk result (λ slots.
        slots ≡ numbered_links (words_at words.now) spot.now (links_seen links.now)) }
    ensures first { IfErr result (FailsFirst (links_faults (context_at words.now) spot.now (links_seen links.now))) }
{
    let mut slots = Vec::new(alloc);
    for link in links {
        let right = expression(alloc, words, spot, &link.right)?;
        slots.push(SlotLink {
            op: link.op,
            line: link.line,
            right,
        })?;
    }
    Ok(Seq::of(slots))
}

/// An expression that may be missing.
pub(crate) fn optional(
    alloc: Global,
    words: &Words<'_, '_>,
    spot: &Spot<'_>,
    e: &Option<Expr>,
) -> Result<Option<SlotExpr>, Fail<CheckFault>>
    ensures clean { OnOk result
        (optional_faults (context_at words.now) spot.now (option_map seen e.now) ≡ []) }
    ensures stands { IfOk result (λ slots.
        slots ≡ option_map (numbered (words_at words.now) spot.now) (option_map seen e.now)) }
    ensures first { IfErr result
        (FailsFirst (optional_faults (context_at words.now) spot.now (option_map seen e.now))) }
{
    match e {
        None => Ok(None),
        Some(e) => {
            let e = expression(alloc, words, spot, e)?;
            Ok(Some(e))
        }
    }
}
