//! What statements do.

mod assignments;
mod calls;
mod loops;

ghost use Rattle.std.specs.Prelude.{◌≡◌, IfOk};
ghost use Rattle.flame_spec.specs.Seen.{statement as seen, statements as all_seen, arms as arms_seen};
ghost use Rattle.flame_meaning.specs.Scenes.{Progress as Left};
ghost use Rattle.flame_meaning.specs.Ends.{End, no_fuel, outside, as_scope};
ghost use Rattle.flame_meaning.specs.Statements.{meaning, meanings, first_arm};
ghost use Rattle.flame_sense.specs.StandsFor.{scene_seen, progress_seen, end_of, after};

use crate::ending::Ending;
use crate::expression::value;
use crate::scene::{Open, Progress, Scene};
use crate::statement::assignments::{assign, declare};
use crate::statement::calls::call_statement;
use crate::statement::loops::{do_loop, for_loop, message_loop, turns};
use flame_ops::Cause;
use flame_rows::NoMemory;
use flame_spec::{Arm, Fault, Stmt};

/// A unit was needed and none was left.
fn no_fuel(line: u32) -> Fault
    ensures { result ≡ no_fuel line }
{
    let cause = Cause::Fuel;
    Fault { cause, line }
}

/// What a statement does.
#[cycle(run)]
fn statement<'a>(
    statement: &'a Stmt,
    scene: &Scene<'_, '_>,
    open_loops: &Open<'_>,
    s: &mut Progress<'a>,
) -> Result<Ending, NoMemory>
    ensures { IfOk result (λ ending.
        meaning (seen statement.now) (scene_seen scene.now open_loops.now) (progress_seen s.old)
        ≡ end_of ending (progress_seen s.new)) }
{
    match statement {
        Stmt::Empty => Ok(Ending::WentOn),
        Stmt::Declare(items) => declare(items.items(), scene, open_loops, s),
        Stmt::Assign(a) => assign(a, scene, open_loops, s),
        Stmt::Call(line, word, arguments) => call_statement(
            word.as_str(),
            arguments.items(),
            *line,
            scene,
            open_loops,
            s,
        ),
        Stmt::Block(body) => block(body.items(), scene, open_loops, s),
        Stmt::If(arms, otherwise) => match branch(arms.items(), scene, open_loops, s)? {
            Some(ending) => Ok(ending),
            None => block(otherwise.items(), scene, open_loops, s),
        },
        Stmt::While(line, test, body) => {
            turns(body.items(), *line, Some(test), &None, scene, open_loops, s)
        }
        Stmt::For(line, head, body) => {
            for_loop(head.get(), body.items(), *line, scene, open_loops, s)
        }
        Stmt::Do(line, body, test) => do_loop(body.items(), *line, test, scene, open_loops, s),
        Stmt::Loop(line, word, body, _, _) => {
            message_loop(body.items(), *line, word.as_str(), scene, open_loops, s)
        }
        Stmt::Return(e) => match value(e, scene, open_loops, s) {
            Ok(value) => Ok(Ending::Returned(value)),
            Err(fault) => Ok(Ending::Faulted(fault)),
        },
        Stmt::Break(_) => Ok(Ending::Broke),
        Stmt::Continue(_) => Ok(Ending::Continued),
    }
}

/// One statement after another.
#[cycle(run)]
pub(crate) fn statements<'a>(
    body: &'a [Stmt],
    scene: &Scene<'_, '_>,
    open_loops: &Open<'_>,
    s: &mut Progress<'a>,
) -> Result<Ending, NoMemory>
    ensures { IfOk result (λ ending.
        meanings (all_seen body.now) (scene_seen scene.now open_loops.now) (progress_seen s.old)
        ≡ end_of ending (progress_seen s.new)) }
{
    for one in body {
        match statement(one, scene, open_loops, s)? {
            Ending::WentOn => {}
            Ending::Broke => return Ok(Ending::Broke),
            Ending::Continued => return Ok(Ending::Continued),
            Ending::Returned(value) => return Ok(Ending::Returned(value)),
            Ending::Faulted(fault) => return Ok(Ending::Faulted(fault)),
        }
    }
    Ok(Ending::WentOn)
}

/// A body, which is a scope: its locals end with it.
#[cycle(run)]
fn block<'a>(
    body: &'a [Stmt],
    scene: &Scene<'_, '_>,
    open_loops: &Open<'_>,
    s: &mut Progress<'a>,
) -> Result<Ending, NoMemory>
    ensures { IfOk result (λ ending.
        as_scope (meanings (all_seen body.now) (scene_seen scene.now open_loops.now)) (progress_seen s.old)
        ≡ end_of ending (progress_seen s.new)) }
{
    let depth = s.locals.as_slice().len();
    let ending = statements(body, scene, open_loops, s)?;
    leave(depth, s);
    Ok(ending)
}

/// The locals that are newer than the first ones, so many, end.
fn leave(depth: usize, s: &mut Progress<'_>)
    ensures { progress_seen s.new ≡ outside depth (progress_seen s.old) }
{
    s.locals.truncate(depth);
}

/// The body of the first test that holds. `None` where none does.
#[cycle(run)]
fn branch<'a>(
    arms: &'a [Arm],
    scene: &Scene<'_, '_>,
    open_loops: &Open<'_>,
    s: &mut Progress<'a>,
) -> Result<Option<Ending>, NoMemory>
    ensures { IfOk result (λ ending.
        (otherwise : Left → End)
        → first_arm (arms_seen arms.now) otherwise (scene_seen scene.now open_loops.now) (progress_seen s.old)
        ≡ after ending otherwise (progress_seen s.new)) }
{
    for arm in arms {
        match value(&arm.test, scene, open_loops, s) {
            Ok(value) => {
                if value != 0 {
                    let ending = block(arm.body.items(), scene, open_loops, s)?;
                    return Ok(Some(ending));
                }
            }
            Err(fault) => return Ok(Some(Ending::Faulted(fault))),
        }
    }
    Ok(None)
}
