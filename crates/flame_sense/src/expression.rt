//! What expressions give.

ghost use Rattle.std.specs.Prelude.{◌≡◌, ℕ, ℤ, Option, option_map};
ghost use Rattle.flame_spec.specs.declared.models.Variable.{Variable as Declared};
ghost use Rattle.flame_spec.specs.Seen.{expression, expressions, links as links_seen};
ghost use Rattle.flame_meaning.specs.Scenes.{element_column, field_value};
ghost use Rattle.flame_meaning.specs.Expressions.{at_line, bad_index, element_value, signed_by, signs_value, value_of, chain_value, all_value, any_value};
ghost use Rattle.flame_sense.specs.StandsFor.{within_reach, span_of, scene_seen, progress_seen};

use crate::scene::{Open, Progress, Scene, number_at, number_of};
use crate::words::Span;
use flame_ops::{Cause, apply, negate};
use flame_spec::{Expr, Fault, Link, Sign, SignKind};

/// The fault of an operator has the operator's line.
pub(crate) fn at_line(line: u32, outcome: Result<i32, Cause>) -> Result<i32, Fault>
    ensures { result ≡ at_line line outcome }
{
    match outcome {
        Ok(value) => Ok(value),
        Err(cause) => Err(Fault { cause, line }),
    }
}

/// A sign before a value.
fn signed(sign: Sign, value: i32) -> Result<i32, Fault>
    ensures { result ≡ signed_by sign.kind sign.line value }
{
    match sign.kind {
        SignKind::Minus => at_line(sign.line, negate(value)),
        SignKind::Plus => Ok(value),
        SignKind::Bang => Ok(i32::from(value == 0)),
    }
}

/// The signs before a value, from the innermost outwards.
fn signs_value(signs: &[Sign], value: i32) -> Result<i32, Fault>
    ensures { result ≡ signs_value signs.now value }
{
    let mut outer = value;
    let mut at = signs.len();
    while at > 0 {
        at -= 1;
        outer = signed(signs[at], outer)?;
    }
    Ok(outer)
}

/// There is no such element.
pub(crate) fn bad_index(line: u32) -> Fault
    ensures { result ≡ bad_index line }
{
    let cause = Cause::BadIndex;
    Fault { cause, line }
}

/// The column of the element of this index, as far as places can be counted; `None` where there is none.
pub(crate) fn element_column(found: Option<Span>, index: i32) -> Option<usize>
    ensures { (variable : Option (ℕ × Declared)) → found ≡ option_map span_of variable
        → result ≡ option_map within_reach (element_column variable index) }
{
    match found {
        None => None,
        Some(span) => match span.length {
            None => None,
            Some(length) => match u32::try_from(index) {
                Ok(place) => {
                    if place < length {
                        Some(span.column.saturating_add(place as usize))
                    } else {
                        None
                    }
                }
                Err(_) => None,
            },
        },
    }
}

/// The element of this index of a variable of the row; where there is none, the fault has the line of the bracket.
fn element(found: Option<Span>, index: i32, row: &[i32], line: u32) -> Result<i32, Fault>
    ensures { (variable : Option (ℕ × Declared)) → found ≡ option_map span_of variable
        → result ≡ element_value line (element_column variable index) row.now }
{
    match element_column(found, index) {
        Some(column) => Ok(number_at(row, column)),
        None => Err(bad_index(line)),
    }
}

/// The value of an expression, or the first fault.
#[cycle(value)]
pub(crate) fn value(
    e: &Expr,
    scene: &Scene<'_, '_>,
    open_loops: &Open<'_>,
    s: &Progress<'_>,
) -> Result<i32, Fault>
    ensures { result ≡ value_of (expression e.now) (scene_seen scene.now open_loops.now) (progress_seen s.now) }
{
    match e {
        Expr::Number(n) => Ok(*n),
        Expr::Name(_, word) => Ok(scene.named(word.as_str(), s)),
        Expr::Field(_, word, variable) => {
            Ok(field_value(word.as_str(), variable.as_str(), scene, open_loops))
        }
        Expr::Get(_, word) => Ok(scene.got(word.as_str(), s)),
        Expr::At(_, word, subscript) => {
            let index = value(subscript.index.get(), scene, open_loops, s)?;
            let array = scene.array_named(word.as_str(), s);
            element(array, index, s.memory.as_slice(), subscript.line)
        }
        Expr::FieldAt(_, word, variable, subscript) => {
            let index = value(subscript.index.get(), scene, open_loops, s)?;
            let array = scene.member_read(word.as_str(), variable.as_str());
            let row = scene.row_read(word.as_str(), open_loops);
            element(array, index, row, subscript.line)
        }
        Expr::Unary(signs, e) => {
            let inner = value(e, scene, open_loops, s)?;
            signs_value(signs.items(), inner)
        }
        Expr::Chain(e, links) => {
            let first = value(e, scene, open_loops, s)?;
            chain_value(links.items(), first, scene, open_loops, s)
        }
        Expr::All(parts) => all_value(parts.items(), scene, open_loops, s),
        Expr::Any(parts) => any_value(parts.items(), scene, open_loops, s),
    }
}

/// The value of `m_message->x`.
pub(crate) fn field_value(
    word: &str,
    variable: &str,
    scene: &Scene<'_, '_>,
    open_loops: &Open<'_>,
) -> i32
    ensures { result ≡ field_value word.now variable.now (scene_seen scene.now open_loops.now) }
{
    let found = scene.member_read(word, variable);
    number_of(found, scene.row_read(word, open_loops))
}

/// Operators of one level, from left to right.
#[cycle(value)]
fn chain_value(
    links: &[Link],
    first: i32,
    scene: &Scene<'_, '_>,
    open_loops: &Open<'_>,
    s: &Progress<'_>,
) -> Result<i32, Fault>
    ensures { result
        ≡ chain_value (links_seen links.now) (scene_seen scene.now open_loops.now) (progress_seen s.now) first }
{
    let mut value_so_far = first;
    for link in links {
        let right = value(&link.right, scene, open_loops, s)?;
        value_so_far = at_line(link.line, apply(link.op, value_so_far, right))?;
    }
    Ok(value_so_far)
}

/// `&&`
#[cycle(value)]
fn all_value(
    parts: &[Expr],
    scene: &Scene<'_, '_>,
    open_loops: &Open<'_>,
    s: &Progress<'_>,
) -> Result<i32, Fault>
    ensures { result
        ≡ all_value (expressions parts.now) (scene_seen scene.now open_loops.now) (progress_seen s.now) }
{
    for part in parts {
        if value(part, scene, open_loops, s)? == 0 {
            return Ok(0);
        }
    }
    Ok(1)
}

/// `||`
#[cycle(value)]
fn any_value(
    parts: &[Expr],
    scene: &Scene<'_, '_>,
    open_loops: &Open<'_>,
    s: &Progress<'_>,
) -> Result<i32, Fault>
    ensures { result
        ≡ any_value (expressions parts.now) (scene_seen scene.now open_loops.now) (progress_seen s.now) }
{
    for part in parts {
        if value(part, scene, open_loops, s)? != 0 {
            return Ok(1);
        }
    }
    Ok(0)
}
