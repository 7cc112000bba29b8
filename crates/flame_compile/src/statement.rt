//! The code of statements.

ghost use Rattle.std.specs.Prelude.{◌≡◌, length, map, IfOk};
ghost use Rattle.flame_code.specs.declared.instrs.Instr.TheVariants.{Return};
ghost use Rattle.flame_compile.specs.Pieces.{one, both, going, written};
ghost use Rattle.flame_compile.specs.Emit.{arm_piece, arms_code, arm as tested_arm, test_or_1, step_or_none, while_block, do_block, loop_block, statement as stated, statements, expression, arguments, deed as done};

use crate::block_size::{arm_size, arms_size, block_size, step_size, test_size};
use crate::expression::{write_arguments, write_expression};
use crate::places::{here, put, sum, sum3};
use crate::size::expression_size;
use crate::stored::{count, write_assignment, write_deed, write_items};
use flame_body::{SlotArm, SlotAssign, SlotDeed, SlotExpr, SlotStmt};
use flame_code::Instr;
use flame_rows::NoMemory;

/// A test of a `for`, or 1.
fn write_test(out: &mut Vec<Instr>, test: &Option<SlotExpr>) -> Result<(), NoMemory>
    ensures { IfOk result (λ _. out.new.items ≡ written (test_or_1 test.now) out.old.items) }
{
    match test {
        None => put(out, Instr::Push(1))?,
        Some(e) => write_expression(out, e)?,
    }
    Ok(())
}

/// A step of a `for`, or nothing.
#[tactic(auto, using(crate::proofs::Writing::written_none))]
fn write_step(out: &mut Vec<Instr>, step: &Option<SlotAssign>) -> Result<(), NoMemory>
    ensures { IfOk result (λ _. out.new.items ≡ written (step_or_none step.now) out.old.items) }
{
    match step {
        None => (),
        Some(a) => write_assignment(out, a)?,
    }
    Ok(())
}

/// A call statement.
fn write_call(out: &mut Vec<Instr>, deed: SlotDeed, es: &[SlotExpr]) -> Result<(), NoMemory>
    ensures { IfOk result (λ _.
        out.new.items ≡ written (both (arguments es.now) (done deed (length es.now))) out.old.items) }
{
    let count = count(es)?;
    write_arguments(out, es)?;
    write_deed(out, deed, count)?;
    Ok(())
}

/// `return`
fn write_return(out: &mut Vec<Instr>, e: &SlotExpr) -> Result<(), NoMemory>
    ensures { IfOk result (λ _. out.new.items ≡ written (both (expression e.now) (one Return)) out.old.items) }
{
    write_expression(out, e)?;
    put(out, Instr::Return)?;
    Ok(())
}

/// A statement; `break` and `continue` go to these places.
#[cycle(write_statement)]
fn write_statement(
    out: &mut Vec<Instr>,
    statement: &SlotStmt,
    leave: u32,
    again: u32,
) -> Result<(), NoMemory>
    ensures { IfOk result (λ _. out.new.items ≡ written (going leave again (stated statement.now)) out.old.items) }
{
    match statement {
        SlotStmt::Empty => (),
        SlotStmt::Declare(items) => write_items(out, items.items())?,
        SlotStmt::Assign(a) => write_assignment(out, a)?,
        SlotStmt::Call(deed, es) => write_call(out, *deed, es.items())?,
        SlotStmt::Block(body) => write_block(out, body.items(), leave, again)?,
        SlotStmt::If(arms, otherwise) => {
            let arms = arms.items();
            let otherwise = otherwise.items();
            let end = sum3(here(out)?, arms_size(arms)?, block_size(otherwise)?)?;
            write_arms(out, arms, leave, again, end)?;
            write_block(out, otherwise, leave, again)?;
        }
        SlotStmt::While(line, test, body) => write_while(out, body.items(), *line, test)?,
        SlotStmt::For(line, head, body) => {
            let head = head.get();
            let body = body.items();
            let start = sum(here(out)?, block_size(head.first.items())?)?;
            let turn = sum(start, 1)?;
            let step = sum3(start, 2, block_size(body)?)?;
            let test = sum(step, step_size(&head.step)?)?;
            let end = sum3(test, test_size(&head.test)?, 1)?;
            write_block(out, head.first.items(), leave, again)?;
            put(out, Instr::Jump(test))?;
            put(out, Instr::Pay(*line))?;
            write_block(out, body, end, step)?;
            write_step(out, &head.step)?;
            write_test(out, &head.test)?;
            put(out, Instr::JumpNotZero(turn))?;
        }
        SlotStmt::Do(line, body, test) => write_do(out, body.items(), *line, test)?,
        SlotStmt::Loop(line, input, body) => write_loop(out, body.items(), *line, *input)?,
        SlotStmt::Return(e) => write_return(out, e)?,
        SlotStmt::Break => put(out, Instr::Jump(leave))?,
        SlotStmt::Continue => put(out, Instr::Jump(again))?,
    }
    Ok(())
}

/// Statements in order; `break` and `continue` go to these places.
#[cycle(write_statement)]
pub(crate) fn write_block(
    out: &mut Vec<Instr>,
    body: &[SlotStmt],
    leave: u32,
    again: u32,
) -> Result<(), NoMemory>
    ensures { IfOk result (λ _. out.new.items ≡ written (going leave again (statements body.now)) out.old.items) }
{
    for statement in body {
        write_statement(out, statement, leave, again)?;
    }
    Ok(())
}

/// An arm of an `if` that ends in this place.
#[cycle(write_statement)]
fn write_arm(
    out: &mut Vec<Instr>,
    arm: &SlotArm,
    leave: u32,
    again: u32,
    end: u32,
) -> Result<(), NoMemory>
    ensures { IfOk result (λ _.
        out.new.items ≡ written (arm_piece (tested_arm arm.now) leave again end) out.old.items) }
{
    let next = sum(here(out)?, arm_size(arm)?)?;
    write_expression(out, &arm.test)?;
    put(out, Instr::JumpZero(next))?;
    write_block(out, arm.body.items(), leave, again)?;
    put(out, Instr::Jump(end))?;
    Ok(())
}

/// The arms of an `if` that ends in this place.
#[cycle(write_statement)]
fn write_arms(
    out: &mut Vec<Instr>,
    arms: &[SlotArm],
    leave: u32,
    again: u32,
    end: u32,
) -> Result<(), NoMemory>
    ensures { IfOk result (λ _.
        out.new.items ≡ written (arms_code (map tested_arm arms.now) leave again end) out.old.items) }
{
    for arm in arms {
        write_arm(out, arm, leave, again, end)?;
    }
    Ok(())
}

/// `while`
#[cycle(write_statement)]
fn write_while(
    out: &mut Vec<Instr>,
    body: &[SlotStmt],
    line: u32,
    test: &SlotExpr,
) -> Result<(), NoMemory>
    ensures { IfOk result (λ _. out.new.items
        ≡ written (going 0 0 (while_block line (expression test.now) (statements body.now))) out.old.items) }
{
    let start = here(out)?;
    let turn = sum(start, 1)?;
    let check = sum3(start, 2, block_size(body)?)?;
    let end = sum3(check, expression_size(test)?, 1)?;
    put(out, Instr::Jump(check))?;
    put(out, Instr::Pay(line))?;
    write_block(out, body, end, check)?;
    write_expression(out, test)?;
    put(out, Instr::JumpNotZero(turn))?;
    Ok(())
}

/// `do`
#[cycle(write_statement)]
fn write_do(
    out: &mut Vec<Instr>,
    body: &[SlotStmt],
    line: u32,
    test: &SlotExpr,
) -> Result<(), NoMemory>
    ensures { IfOk result (λ _. out.new.items
        ≡ written (going 0 0 (do_block line (statements body.now) (expression test.now))) out.old.items) }
{
    let turn = here(out)?;
    let check = sum3(turn, 1, block_size(body)?)?;
    let end = sum3(check, expression_size(test)?, 1)?;
    put(out, Instr::Pay(line))?;
    write_block(out, body, end, check)?;
    write_expression(out, test)?;
    put(out, Instr::JumpNotZero(turn))?;
    Ok(())
}

/// A message loop.
#[cycle(write_statement)]
fn write_loop(
    out: &mut Vec<Instr>,
    body: &[SlotStmt],
    line: u32,
    input: u32,
) -> Result<(), NoMemory>
    ensures { IfOk result (λ _. out.new.items
        ≡ written (going 0 0 (loop_block line input (statements body.now))) out.old.items) }
{
    let turn = sum(here(out)?, 1)?;
    let end = sum3(turn, 2, block_size(body)?)?;
    put(out, Instr::Enter(input))?;
    put(out, Instr::Next(line, input, end))?;
    write_block(out, body, end, turn)?;
    put(out, Instr::Jump(turn))?;
    put(out, Instr::Leave(input))?;
    Ok(())
}
