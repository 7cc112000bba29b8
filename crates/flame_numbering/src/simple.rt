//! Statements that hold no others.

ghost use Rattle.std.specs.Prelude.{◌≡◌, [], IfErr, IfOk, OnOk, map};
ghost use Rattle.flame_spec.specs.FirstFaults.{FailsFirst};
ghost use Rattle.flame_spec.specs.Scopes.{after_items};
ghost use Rattle.flame_spec.specs.Seen.{assigned, declared as seen_items, expression as seen};
ghost use Rattle.flame_spec.specs.StatementFaults.{statement_faults};
ghost use Rattle.flame_spec.specs.Trees as tree;
ghost use Rattle.flame_lookup.specs.Sources.{context_at};
ghost use Rattle.flame_body.specs.NumberedTrees.{numbered_statement};
ghost use Rattle.flame_numbering.specs.WordPlaces.{words_at};

use crate::expression::expression;
use crate::loops::jump;
use crate::spot::Spot;
use crate::stored::{assignment, items};
use flame_body::SlotStmt;
use flame_lookup::Words;
use flame_rows::Fail;
use flame_spec::{Assign, CheckFault, Expr, Item};
use std::alloc::Global;

/// A declaration.
pub(crate) fn declare<'a>(
    alloc: Global,
    words: &Words<'_, '_>,
    spot: &mut Spot<'a>,
    locals: &'a [Item],
) -> Result<SlotStmt, Fail<CheckFault>>
    ensures clean { OnOk result (statement_faults (context_at words.now) spot.old
        (tree.declare (map seen_items locals.now)) ≡ []) }
    ensures stands { IfOk result (λ slots. slots ≡ numbered_statement (words_at words.now) spot.old
        (tree.declare (map seen_items locals.now))) }
    ensures after { OnOk result (spot.new ≡ after_items spot.old (map seen_items locals.now)) }
    ensures first { IfErr result (FailsFirst (statement_faults (context_at words.now) spot.old
        (tree.declare (map seen_items locals.now)))) }
{
    let slots = items(alloc, words, spot, locals)?;
    Ok(SlotStmt::Declare(slots))
}

/// An assignment.
pub(crate) fn assign(
    alloc: Global,
    words: &Words<'_, '_>,
    spot: &Spot<'_>,
    a: &Assign,
) -> Result<SlotStmt, Fail<CheckFault>>
    ensures clean { OnOk result (statement_faults (context_at words.now) spot.now (tree.assign (assigned a.now)) ≡ []) }
    ensures stands { IfOk result (λ slots.
        slots ≡ numbered_statement (words_at words.now) spot.now (tree.assign (assigned a.now))) }
    ensures first { IfErr result
        (FailsFirst (statement_faults (context_at words.now) spot.now (tree.assign (assigned a.now)))) }
{
    let slots = assignment(alloc, words, spot, a)?;
    Ok(SlotStmt::Assign(slots))
}

/// `return`
pub(crate) fn return_value(
    alloc: Global,
    words: &Words<'_, '_>,
    spot: &Spot<'_>,
    e: &Expr,
) -> Result<SlotStmt, Fail<CheckFault>>
    ensures clean { OnOk result (statement_faults (context_at words.now) spot.now (tree.return (seen e.now)) ≡ []) }
    ensures stands { IfOk result (λ slots.
        slots ≡ numbered_statement (words_at words.now) spot.now (tree.return (seen e.now))) }
    ensures first { IfErr result
        (FailsFirst (statement_faults (context_at words.now) spot.now (tree.return (seen e.now)))) }
{
    let slots = expression(alloc, words, spot, e)?;
    Ok(SlotStmt::Return(slots))
}

/// `break`
pub(crate) fn break_loop(
    alloc: Global,
    words: &Words<'_, '_>,
    spot: &Spot<'_>,
    line: u32,
) -> Result<SlotStmt, Fail<CheckFault>>
    ensures clean { OnOk result (statement_faults (context_at words.now) spot.now (tree.break line) ≡ []) }
    ensures stands { IfOk result (λ slots. slots ≡ numbered_statement (words_at words.now) spot.now (tree.break line)) }
    ensures first { IfErr result (FailsFirst (statement_faults (context_at words.now) spot.now (tree.break line))) }
{
    jump(alloc, words, spot, line, "break")?;
    Ok(SlotStmt::Break)
}

/// `continue`
pub(crate) fn continue_loop(
    alloc: Global,
    words: &Words<'_, '_>,
    spot: &Spot<'_>,
    line: u32,
) -> Result<SlotStmt, Fail<CheckFault>>
    ensures clean { OnOk result (statement_faults (context_at words.now) spot.now (tree.continue line) ≡ []) }
    ensures stands { IfOk result (λ slots.
        slots ≡ numbered_statement (words_at words.now) spot.now (tree.continue line)) }
    ensures first { IfErr result (FailsFirst (statement_faults (context_at words.now) spot.now (tree.continue line))) }
{
    jump(alloc, words, spot, line, "continue")?;
    Ok(SlotStmt::Continue)
}
