//! How many instructions statements have.

ghost use Rattle.std.specs.Prelude.{◌≡◌, map, IfOk};
ghost use Rattle.flame_compile.specs.Emit.{arm_size as arm_sized, arms_size as arms_sized, arm as tested_arm, test_or_1, step_or_none, statement as stated, statements};

use crate::places::{sum, sum3};
use crate::size::{arguments_size, expression_size};
use crate::stored::{assignment_size, deed_size, items_size};
use flame_body::{SlotArm, SlotAssign, SlotExpr, SlotStmt};
use flame_rows::NoMemory;

/// The instructions of a test of a `for`.
pub(crate) fn test_size(test: &Option<SlotExpr>) -> Result<u32, NoMemory>
    ensures { IfOk result (λ n. n ≡ (test_or_1 test.now).size) }
{
    match test {
        None => Ok(1),
        Some(e) => expression_size(e),
    }
}

/// The instructions of a step of a `for`.
pub(crate) fn step_size(step: &Option<SlotAssign>) -> Result<u32, NoMemory>
    ensures { IfOk result (λ n. n ≡ (step_or_none step.now).size) }
{
    match step {
        None => Ok(0),
        Some(a) => assignment_size(a),
    }
}

/// The instructions of a statement.
#[cycle(statement_size)]
pub(crate) fn statement_size(statement: &SlotStmt) -> Result<u32, NoMemory>
    ensures { IfOk result (λ n. n ≡ (stated statement.now).size) }
{
    match statement {
        SlotStmt::Empty => Ok(0),
        SlotStmt::Declare(items) => items_size(items.items()),
        SlotStmt::Assign(a) => assignment_size(a),
        SlotStmt::Call(deed, es) => sum(arguments_size(es.items())?, deed_size(*deed)),
        SlotStmt::Block(body) => block_size(body.items()),
        SlotStmt::If(arms, otherwise) => {
            sum(arms_size(arms.items())?, block_size(otherwise.items())?)
        }
        SlotStmt::While(_, test, body) => {
            sum3(block_size(body.items())?, expression_size(test)?, 3)
        }
        SlotStmt::For(_, head, body) => {
            let head = head.get();
            let blocks = sum(block_size(head.first.items())?, block_size(body.items())?)?;
            let ends = sum(step_size(&head.step)?, test_size(&head.test)?)?;
            sum3(blocks, ends, 3)
        }
        SlotStmt::Do(_, body, test) => sum3(block_size(body.items())?, expression_size(test)?, 2),
        SlotStmt::Loop(_, _, body) => sum(block_size(body.items())?, 4),
        SlotStmt::Return(e) => sum(expression_size(e)?, 1),
        SlotStmt::Break => Ok(1),
        SlotStmt::Continue => Ok(1),
    }
}

/// The instructions of statements.
#[cycle(statement_size)]
pub(crate) fn block_size(body: &[SlotStmt]) -> Result<u32, NoMemory>
    ensures { IfOk result (λ n. n ≡ (statements body.now).size) }
{
    let mut size = 0;
    for statement in body {
        size = sum(size, statement_size(statement)?)?;
    }
    Ok(size)
}

/// The instructions of an arm of an `if`.
#[cycle(statement_size)]
pub(crate) fn arm_size(arm: &SlotArm) -> Result<u32, NoMemory>
    ensures { IfOk result (λ n. n ≡ arm_sized (tested_arm arm.now)) }
{
    sum3(
        expression_size(&arm.test)?,
        block_size(arm.body.items())?,
        2,
    )
}

/// The instructions of the arms of an `if`.
#[cycle(statement_size)]
pub(crate) fn arms_size(arms: &[SlotArm]) -> Result<u32, NoMemory>
    ensures { IfOk result (λ n. n ≡ arms_sized (map tested_arm arms.now)) }
{
    let mut size = 0;
    for arm in arms {
        size = sum(size, arm_size(arm)?)?;
    }
    Ok(size)
}
