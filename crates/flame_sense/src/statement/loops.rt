//! What loops do: turn after turn, each of which is paid.

ghost use Rattle.std.specs.Prelude.{◌≡◌, ◌<◌, ◌⊎◌, IfOk, IfNone, option_map};
ghost use Rattle.flame_spec.specs.Trees.{do_while};
ghost use Rattle.flame_spec.specs.Seen.{expression, assigned, statements as all_seen};
ghost use Rattle.flame_meaning.specs.Scenes.{Progress as Left};
ghost use Rattle.flame_meaning.specs.Ends.{End, on_to, as_scope};
ghost use Rattle.flame_meaning.specs.Loops.{after_turn, turn, loop, each_row};
ghost use Rattle.flame_meaning.specs.Statements.{test_value, step_of, loop_currents, inside, meaning, meanings};
ghost use Rattle.flame_sense.specs.StandsFor.{scene_seen, progress_seen, end_of, after};

use crate::ending::Ending;
use crate::expression::value;
use crate::scene::{Open, Progress, Scene};
use crate::statement::assignments::assign;
use crate::statement::{block, leave, no_fuel, statements};
use flame_rows::NoMemory;
use flame_spec::{Assign, Expr, Fault, Head, Stmt};

/// The step of a `for`, if it has one.
#[cycle(run)]
fn step(
    step: &Option<Assign>,
    scene: &Scene<'_, '_>,
    open_loops: &Open<'_>,
    s: &mut Progress<'_>,
) -> Result<Ending, NoMemory>
    ensures { IfOk result (λ ending.
        step_of (option_map assigned step.now) (scene_seen scene.now open_loops.now) (progress_seen s.old)
        ≡ end_of ending (progress_seen s.new)) }
{
    match step {
        None => Ok(Ending::WentOn),
        Some(a) => assign(a, scene, open_loops, s),
    }
}

/// One turn of a loop: a unit of fuel is paid, and the body runs. `None` where the loop goes on.
#[cycle(run)]
fn turn<'a>(
    body: &'a [Stmt],
    line: u32,
    scene: &Scene<'_, '_>,
    open_loops: &Open<'_>,
    s: &mut Progress<'a>,
) -> Result<Option<Ending>, NoMemory>
    ensures means { IfOk result (λ ending.
        (next : Left → End)
        → turn line (as_scope (meanings (all_seen body.now) (scene_seen scene.now open_loops.now))) next
        (progress_seen s.old)
        ≡ after ending next (progress_seen s.new)) }
    ensures pays { IfOk result (λ ending. IfNone ending (s.new.fuel < s.old.fuel)) }
{
    if s.fuel == 0 {
        return Ok(Some(Ending::Faulted(no_fuel(line))));
    }
    s.fuel -= 1;
    let ending = block(body, scene, open_loops, s)?;
    Ok(turned(ending))
}

/// What a turn comes to whose body ended so: `None` where the loop goes on.
fn turned(ending: Ending) -> Option<Ending>
    ensures means { (next : Left → End) (s : Left) → after_turn (end_of ending s) next ≡ after result next s }
    ensures goes_on { IfNone result ((ending ≡ Ending.WentOn) ⊎ (ending ≡ Ending.Continued)) }
{
    match ending {
        Ending::WentOn => None,
        Ending::Broke => Some(Ending::WentOn),
        Ending::Continued => None,
        Ending::Returned(value) => Some(Ending::Returned(value)),
        Ending::Faulted(fault) => Some(Ending::Faulted(fault)),
    }
}

/// The value of a loop's test; without one it is 1.
fn test_value(
    test: Option<&Expr>,
    scene: &Scene<'_, '_>,
    open_loops: &Open<'_>,
    s: &Progress<'_>,
) -> Result<i32, Fault>
    ensures { result
        ≡ test_value (option_map (λ e. expression e.now) test.entry) (scene_seen scene.now open_loops.now)
        (progress_seen s.now) }
{
    match test {
        None => Ok(1),
        Some(e) => value(e, scene, open_loops, s),
    }
}

/// Turn after turn while the test holds, each body followed by the step.
#[cycle(run)]
pub(super) fn turns<'a>(
    body: &'a [Stmt],
    line: u32,
    test: Option<&'a Expr>,
    after: &Option<Assign>,
    scene: &Scene<'_, '_>,
    open_loops: &Open<'_>,
    s: &mut Progress<'a>,
) -> Result<Ending, NoMemory>
    ensures { IfOk result (λ ending.
        loop line
        (test_value (option_map (λ e. expression e.now) test.entry) (scene_seen scene.now open_loops.now))
        (as_scope (meanings (all_seen body.now) (scene_seen scene.now open_loops.now)))
        (step_of (option_map assigned after.now) (scene_seen scene.now open_loops.now))
        (progress_seen s.old)
        ≡ end_of ending (progress_seen s.new)) }
{
    'turns: loop {
        match test_value(test, scene, open_loops, s) {
            Ok(value) => {
                if value == 0 {
                    return Ok(Ending::WentOn);
                }
            }
            Err(fault) => return Ok(Ending::Faulted(fault)),
        }
        match turn(body, line, scene, open_loops, s)? {
            Some(ending) => return Ok(ending),
            None => {}
        }
        match step(after, scene, open_loops, s)? {
            Ending::WentOn => {}
            ending => return Ok(ending),
        }
    }
}

/// `for (first; test; step) body`, which is a scope.
#[cycle(run)]
pub(super) fn for_loop<'a>(
    head: &'a Head,
    body: &'a [Stmt],
    line: u32,
    scene: &Scene<'_, '_>,
    open_loops: &Open<'_>,
    s: &mut Progress<'a>,
) -> Result<Ending, NoMemory>
    ensures { IfOk result (λ ending.
        as_scope (λ t. on_to (meanings (all_seen head.now.first) (scene_seen scene.now open_loops.now) t)
        (loop line
        (test_value (option_map expression head.now.test) (scene_seen scene.now open_loops.now))
        (as_scope (meanings (all_seen body.now) (scene_seen scene.now open_loops.now)))
        (step_of (option_map assigned head.now.step) (scene_seen scene.now open_loops.now))))
        (progress_seen s.old)
        ≡ end_of ending (progress_seen s.new)) }
{
    let depth = s.locals.as_slice().len();
    match statements(head.first.items(), scene, open_loops, s)? {
        Ending::WentOn => {
            let test = head.test.as_ref();
            let ending = turns(body, line, test, &head.step, scene, open_loops, s)?;
            leave(depth, s);
            Ok(ending)
        }
        ending => {
            leave(depth, s);
            Ok(ending)
        }
    }
}

/// `do body while (test);`
#[cycle(run)]
pub(super) fn do_loop<'a>(
    body: &'a [Stmt],
    line: u32,
    test: &'a Expr,
    scene: &Scene<'_, '_>,
    open_loops: &Open<'_>,
    s: &mut Progress<'a>,
) -> Result<Ending, NoMemory>
    ensures { IfOk result (λ ending.
        meaning (do_while line (all_seen body.now) (expression test.now)) (scene_seen scene.now open_loops.now)
        (progress_seen s.old)
        ≡ end_of ending (progress_seen s.new)) }
{
    match turn(body, line, scene, open_loops, s)? {
        None => turns(body, line, Some(test), &None, scene, open_loops, s),
        Some(ending) => Ok(ending),
    }
}

/// A message loop: one turn for each row of what the function reads, in order.
#[cycle(run)]
pub(super) fn message_loop<'a>(
    body: &'a [Stmt],
    line: u32,
    word: &str,
    scene: &Scene<'_, '_>,
    open_loops: &Open<'_>,
    s: &mut Progress<'a>,
) -> Result<Ending, NoMemory>
    ensures { IfOk result (λ ending.
        each_row line
        (λ current. as_scope (meanings (all_seen body.now) (inside current (scene_seen scene.now open_loops.now))))
        (loop_currents word.now (scene_seen scene.now open_loops.now)) (progress_seen s.old)
        ≡ end_of ending (progress_seen s.new)) }
{
    let Some((message, rows)) = scene.loop_rows(word) else {
        return Ok(Ending::WentOn);
    };
    for row in rows {
        let inside = Open::Over(message, *row, &*open_loops);
        match turn(body, line, scene, &inside, s)? {
            Some(ending) => return Ok(ending),
            None => {}
        }
    }
    Ok(Ending::WentOn)
}
