//! Statements.

ghost use Rattle.std.specs.Prelude.{◌≡◌, ◌++◌, [], ◌∷◌, ℕ, List, IfErr, IfOk, OnOk};
ghost use Rattle.flame_spec.specs.ExpressionFaults.{expression_faults};
ghost use Rattle.flame_spec.specs.FirstFaults.{FailsFirst};
ghost use Rattle.flame_spec.specs.Scopes.{after, after_all, in_loop, in_scope, over_none};
ghost use Rattle.flame_spec.specs.Seen.{arms as arms_seen, expression as seen, tested};
ghost use Rattle.flame_spec.specs.Seen.{statement as statement_seen, statements as statements_seen};
ghost use Rattle.flame_spec.specs.StatementFaults.{arms_faults, statement_faults, statements_faults};
ghost use Rattle.flame_spec.specs.Trees as tree;
ghost use Rattle.flame_lookup.specs.Sources.{context_at};
ghost use Rattle.flame_body.specs.NumberedTrees.{numbered, numbered_arms, numbered_statement, numbered_statements};
ghost use Rattle.flame_numbering.specs.Heads.{head_faults, head_seen, numbered_head};
ghost use Rattle.flame_numbering.specs.SightTables.{loop_of};
ghost use Rattle.flame_numbering.specs.WordPlaces.{words_at};

use crate::call::call;
use crate::expression::{expression, optional};
use crate::loops::{finish, start};
use crate::simple::{assign, break_loop, continue_loop, declare, return_value};
use crate::spot::Spot;
use crate::stored::optional_assignment;
use flame_body::{SlotArm, SlotHead, SlotStmt};
use flame_lookup::Words;
use flame_rows::{Boxed, Fail, Seq};
use flame_spec::{Arm, CheckFault, Expr, Head, Stmt};
use std::alloc::Global;

/// A statement with numbers in place of names, or its first fault.
#[cycle(walk_statement)]
fn statement<'a>(
    alloc: Global,
    words: &Words<'_, 'a>,
    spot: &mut Spot<'a>,
    s: &'a Stmt,
) -> Result<SlotStmt, Fail<CheckFault>>
    ensures clean { OnOk result (statement_faults (context_at words.now) spot.old (statement_seen s.now) ≡ []) }
    ensures stands { IfOk result (λ slots.
        slots ≡ numbered_statement (words_at words.now) spot.old (statement_seen s.now)) }
    ensures after { OnOk result (spot.new ≡ after spot.old (statement_seen s.now)) }
    ensures first { IfErr result
        (FailsFirst (statement_faults (context_at words.now) spot.old (statement_seen s.now))) }
{
    match s {
        Stmt::Empty => Ok(SlotStmt::Empty),
        Stmt::Declare(declared) => declare(alloc, words, spot, declared.items()),
        Stmt::Assign(a) => assign(alloc, words, spot, a),
        Stmt::Call(line, word, es) => { call(alloc, words, spot, *line, word.as_str(), es.items()) }
        Stmt::Block(body) => nested(alloc, words, spot, body.items()),
        Stmt::If(tests, otherwise) => {
            let tests = arms(alloc, words, spot, tests.items())?;
            conditional(alloc, words, spot, otherwise.items(), tests)
        }
        Stmt::While(line, test, body) => while_loop(alloc, words, spot, body.items(), *line, test),
        Stmt::For(line, head, body) => {
            let head = for_head(alloc, words, spot, head.get())?;
            for_loop(alloc, words, spot, body.items(), *line, head)
        }
        Stmt::Do(line, body, test) => do_loop(alloc, words, spot, body.items(), *line, test),
        Stmt::Loop(line, word, body, end_line, end_word) => message_loop(
            alloc,
            words,
            spot,
            body.items(),
            *line,
            word.as_str(),
            *end_line,
            end_word.as_str(),
        ),
        Stmt::Return(e) => return_value(alloc, words, spot, e),
        Stmt::Break(line) => break_loop(alloc, words, spot, *line),
        Stmt::Continue(line) => continue_loop(alloc, words, spot, *line),
    }
}

/// Statements, each of which sees what those before it declare.
#[cycle(walk_statement)]
pub(crate) fn statements<'a>(
    alloc: Global,
    words: &Words<'_, 'a>,
    spot: &mut Spot<'a>,
    body: &'a [Stmt],
) -> Result<Seq<SlotStmt>, Fail<CheckFault>>
    ensures clean { OnOk result (statements_faults (context_at words.now) spot.old (statements_seen body.now) ≡ []) }
    ensures stands { IfOk result (λ slots.
        slots ≡ numbered_statements (words_at words.now) spot.old (statements_seen body.now)) }
    ensures after { OnOk result (spot.new ≡ after_all spot.old (statements_seen body.now)) }
    ensures first { IfErr result
        (FailsFirst (statements_faults (context_at words.now) spot.old (statements_seen body.now))) }
{
    let mut slots = Vec::new(alloc);
    for s in body {
        let slot = statement(alloc, words, spot, s)?;
        slots.push(slot)?;
    }
    Ok(Seq::of(slots))
}

/// Statements in a scope of their own.
#[cycle(walk_statement)]
fn block<'a>(
    alloc: Global,
    words: &Words<'_, 'a>,
    spot: &mut Spot<'a>,
    body: &'a [Stmt],
) -> Result<Seq<SlotStmt>, Fail<CheckFault>>
    ensures clean { OnOk result
        (statements_faults (context_at words.now) (in_scope spot.old) (statements_seen body.now) ≡ []) }
    ensures stands { IfOk result (λ slots.
        slots ≡ numbered_statements (words_at words.now) (in_scope spot.old) (statements_seen body.now)) }
    ensures kept { OnOk result (spot.new ≡ spot.old) }
    ensures first { IfErr result
        (FailsFirst (statements_faults (context_at words.now) (in_scope spot.old) (statements_seen body.now))) }
{
    spot.enter()?;
    let body = statements(alloc, words, spot, body)?;
    spot.leave();
    Ok(body)
}

/// The body of a loop over the message of this name, or over none.
#[cycle(walk_statement)]
fn turn<'a>(
    alloc: Global,
    words: &Words<'_, 'a>,
    spot: &mut Spot<'a>,
    over: Option<&'a str>,
    body: &'a [Stmt],
) -> Result<Seq<SlotStmt>, Fail<CheckFault>>
    ensures clean { OnOk result (statements_faults (context_at words.now) (in_loop (loop_of over.entry) spot.old)
        (statements_seen body.now) ≡ []) }
    ensures stands { IfOk result (λ slots. slots ≡ numbered_statements (words_at words.now)
        (in_loop (loop_of over.entry) spot.old) (statements_seen body.now)) }
    ensures kept { OnOk result (spot.new ≡ spot.old) }
    ensures first { IfErr result (FailsFirst (statements_faults (context_at words.now)
        (in_loop (loop_of over.entry) spot.old) (statements_seen body.now))) }
{
    spot.enter_loop(over)?;
    let body = statements(alloc, words, spot, body)?;
    spot.leave_loop();
    Ok(body)
}

/// A test of an `if` with its body.
#[cycle(walk_statement)]
fn arm<'a>(
    alloc: Global,
    words: &Words<'_, 'a>,
    spot: &mut Spot<'a>,
    a: &'a Arm,
) -> Result<SlotArm, Fail<CheckFault>>
    ensures clean { OnOk result (expression_faults (context_at words.now) spot.old (tested a.now).test
        ++ statements_faults (context_at words.now) (in_scope spot.old) (tested a.now).body ≡ []) }
    ensures stands { IfOk result (λ slots. slots ≡ record {
      test = numbered (words_at words.now) spot.old (tested a.now).test;
      body = numbered_statements (words_at words.now) (in_scope spot.old) (tested a.now).body;
    }) }
    ensures kept { OnOk result (spot.new ≡ spot.old) }
    ensures first { IfErr result (FailsFirst (expression_faults (context_at words.now) spot.old (tested a.now).test
        ++ statements_faults (context_at words.now) (in_scope spot.old) (tested a.now).body)) }
{
    let test = expression(alloc, words, spot, &a.test)?;
    let body = block(alloc, words, spot, a.body.items())?;
    Ok(SlotArm { test, body })
}

/// The tests of an `if` with their bodies.
#[cycle(walk_statement)]
fn arms<'a>(
    alloc: Global,
    words: &Words<'_, 'a>,
    spot: &mut Spot<'a>,
    tests: &'a [Arm],
) -> Result<Seq<SlotArm>, Fail<CheckFault>>
    ensures clean { OnOk result (arms_faults (context_at words.now) spot.old (arms_seen tests.now) ≡ []) }
    ensures stands { IfOk result (λ slots.
        slots ≡ numbered_arms (words_at words.now) spot.old (arms_seen tests.now)) }
    ensures kept { OnOk result (spot.new ≡ spot.old) }
    ensures first { IfErr result (FailsFirst (arms_faults (context_at words.now) spot.old (arms_seen tests.now))) }
{
    let mut slots = Vec::new(alloc);
    for a in tests {
        let slot = arm(alloc, words, spot, a)?;
        slots.push(slot)?;
    }
    Ok(Seq::of(slots))
}

/// A block as a statement.
#[cycle(walk_statement)]
fn nested<'a>(
    alloc: Global,
    words: &Words<'_, 'a>,
    spot: &mut Spot<'a>,
    body: &'a [Stmt],
) -> Result<SlotStmt, Fail<CheckFault>>
    ensures clean { OnOk result
        (statement_faults (context_at words.now) spot.old (tree.block (statements_seen body.now)) ≡ []) }
    ensures stands { IfOk result (λ slots.
        slots ≡ numbered_statement (words_at words.now) spot.old (tree.block (statements_seen body.now))) }
    ensures kept { OnOk result (spot.new ≡ spot.old) }
    ensures first { IfErr result
        (FailsFirst (statement_faults (context_at words.now) spot.old (tree.block (statements_seen body.now)))) }
{
    let body = block(alloc, words, spot, body)?;
    Ok(SlotStmt::Block(body))
}

/// `if` with these tests, and the body of its last `else`.
#[cycle(walk_statement)]
fn conditional<'a>(
    alloc: Global,
    words: &Words<'_, 'a>,
    spot: &mut Spot<'a>,
    otherwise: &'a [Stmt],
    tests: Seq<SlotArm>,
) -> Result<SlotStmt, Fail<CheckFault>>
    ensures clean { OnOk result
        (statements_faults (context_at words.now) (in_scope spot.old) (statements_seen otherwise.now) ≡ []) }
    ensures stands { IfOk result (λ slots. slots ≡ SlotStmt.If tests
        (numbered_statements (words_at words.now) (in_scope spot.old) (statements_seen otherwise.now))) }
    ensures kept { OnOk result (spot.new ≡ spot.old) }
    ensures first { IfErr result
        (FailsFirst (statements_faults (context_at words.now) (in_scope spot.old) (statements_seen otherwise.now))) }
{
    let otherwise = block(alloc, words, spot, otherwise)?;
    Ok(SlotStmt::If(tests, otherwise))
}

/// `while`
#[cycle(walk_statement)]
fn while_loop<'a>(
    alloc: Global,
    words: &Words<'_, 'a>,
    spot: &mut Spot<'a>,
    body: &'a [Stmt],
    line: u32,
    test: &Expr,
) -> Result<SlotStmt, Fail<CheckFault>>
    ensures clean { OnOk result (statement_faults (context_at words.now) spot.old
        (tree.while line (seen test.now) (statements_seen body.now)) ≡ []) }
    ensures stands { IfOk result (λ slots. slots ≡ numbered_statement (words_at words.now) spot.old
        (tree.while line (seen test.now) (statements_seen body.now))) }
    ensures kept { OnOk result (spot.new ≡ spot.old) }
    ensures first { IfErr result (FailsFirst (statement_faults (context_at words.now) spot.old
        (tree.while line (seen test.now) (statements_seen body.now)))) }
{
    let test = expression(alloc, words, spot, test)?;
    let body = turn(alloc, words, spot, None, body)?;
    Ok(SlotStmt::While(line, test, body))
}

/// The head of a `for`: its scope begins.
#[cycle(walk_statement)]
fn for_head<'a>(
    alloc: Global,
    words: &Words<'_, 'a>,
    spot: &mut Spot<'a>,
    head: &'a Head,
) -> Result<SlotHead, Fail<CheckFault>>
    ensures clean { OnOk result (head_faults (context_at words.now) (in_scope spot.old) (head_seen head.now) ≡ []) }
    ensures stands { IfOk result (λ slots.
        slots ≡ numbered_head (words_at words.now) (in_scope spot.old) (head_seen head.now)) }
    ensures after { OnOk result (spot.new ≡ after_all (in_scope spot.old) (head_seen head.now).first) }
    ensures first { IfErr result
        (FailsFirst (head_faults (context_at words.now) (in_scope spot.old) (head_seen head.now))) }
{
    spot.enter()?;
    let first = statements(alloc, words, spot, head.first.items())?;
    let test = optional(alloc, words, spot, &head.test)?;
    let step = optional_assignment(alloc, words, spot, &head.step)?;
    Ok(SlotHead { first, test, step })
}

/// `for` with this head, whose scope ends.
#[cycle(walk_statement)]
fn for_loop<'a>(
    alloc: Global,
    words: &Words<'_, 'a>,
    spot: &mut Spot<'a>,
    body: &'a [Stmt],
    line: u32,
    head: SlotHead,
) -> Result<SlotStmt, Fail<CheckFault>>
    ensures clean { OnOk result
        (statements_faults (context_at words.now) (in_loop over_none spot.old) (statements_seen body.now) ≡ []) }
    ensures stands { IfOk result (λ slots. slots ≡ SlotStmt.For line head
        (numbered_statements (words_at words.now) (in_loop over_none spot.old) (statements_seen body.now))) }
    ensures left { (scope : List (List ℕ)) (outer : List (List (List ℕ))) → spot.old.outer ≡ scope ∷ outer
        → OnOk result (spot.new ≡ record spot.old { scope = scope; outer = outer }) }
    ensures first { IfErr result
        (FailsFirst (statements_faults (context_at words.now) (in_loop over_none spot.old) (statements_seen body.now))) }
{
    let head = Boxed::of(alloc, head)?;
    let body = turn(alloc, words, spot, None, body)?;
    spot.leave();
    Ok(SlotStmt::For(line, head, body))
}

/// `do`
#[cycle(walk_statement)]
fn do_loop<'a>(
    alloc: Global,
    words: &Words<'_, 'a>,
    spot: &mut Spot<'a>,
    body: &'a [Stmt],
    line: u32,
    test: &Expr,
) -> Result<SlotStmt, Fail<CheckFault>>
    ensures clean { OnOk result (statement_faults (context_at words.now) spot.old
        (tree.do_while line (statements_seen body.now) (seen test.now)) ≡ []) }
    ensures stands { IfOk result (λ slots. slots ≡ numbered_statement (words_at words.now) spot.old
        (tree.do_while line (statements_seen body.now) (seen test.now))) }
    ensures kept { OnOk result (spot.new ≡ spot.old) }
    ensures first { IfErr result (FailsFirst (statement_faults (context_at words.now) spot.old
        (tree.do_while line (statements_seen body.now) (seen test.now)))) }
{
    let body = turn(alloc, words, spot, None, body)?;
    let test = expression(alloc, words, spot, test)?;
    Ok(SlotStmt::Do(line, body, test))
}

/// A message loop: the line and the name of its START, its body, and the line and the name of its FINISH.
#[cycle(walk_statement)]
fn message_loop<'a>(
    alloc: Global,
    words: &Words<'_, 'a>,
    spot: &mut Spot<'a>,
    body: &'a [Stmt],
    line: u32,
    word: &str,
    end_line: u32,
    end_word: &str,
) -> Result<SlotStmt, Fail<CheckFault>>
    ensures clean { OnOk result (statement_faults (context_at words.now) spot.old
        (tree.loop_over line word.now (statements_seen body.now) end_line end_word.now) ≡ []) }
    ensures stands { IfOk result (λ slots. slots ≡ numbered_statement (words_at words.now) spot.old
        (tree.loop_over line word.now (statements_seen body.now) end_line end_word.now)) }
    ensures kept { OnOk result (spot.new ≡ spot.old) }
    ensures first { IfErr result (FailsFirst (statement_faults (context_at words.now) spot.old
        (tree.loop_over line word.now (statements_seen body.now) end_line end_word.now))) }
{
    let opening = start(alloc, words, spot, line, word)?;
    let body = turn(alloc, words, spot, Some(opening.over), body)?;
    finish(alloc, words, word, end_line, end_word)?;
    Ok(SlotStmt::Loop(line, opening.input, body))
}
