//! Tasks of a layer that the caller runs alone: no lane is needed, and no thread is started.

ghost use Rattle.std.specs.Prelude.{◌≡◌, ◌<◌, ◌+◌, ℕ, ℤ, List, IfOk, OnOk, length, map};
ghost use Rattle.std.specs.List.{All};
ghost use Rattle.flame_world.specs.Fields.{Field as Standing};
ghost use Rattle.flame_round.specs.KeptRounds.{round_of};
ghost use Rattle.flame_lanes.specs.LayerBoards.{weigh_board};
ghost use Rattle.flame_lanes.specs.TaskMeanings.{left_of};
ghost use Rattle.flame_layerrun.specs.LayerTasks.{AreRead, FitsTask};
ghost use Rattle.flame_layerrun.specs.LayerWork.{weigh_all_sent, weigh_of_type, weigh_sent};

use crate::working::{Floor, run};
use flame_field as field;
use flame_lanes::{Left, Task, put_part};
use flame_outside::Gate;
use flame_rows::NoMemory;
use flame_world::Part;
use std::alloc::Global;
use std::sync::Wait;
use std::thread::Threads;

/// These parts join the boards of their messages.
fn put_parts(
    alloc: Global,
    parts: Vec<Part>,
    boards: &mut Vec<field::Board>,
) -> Result<(), NoMemory>
    requires { All (λ part. part.message < length boards.old.items) parts.items }
    ensures moved { OnOk result ((message : ℕ) (weight : List ℤ → ℕ)
        → weigh_board boards.new.items message weight
        ≡ weigh_board boards.old.items message weight + weigh_of_type parts.items message weight) }
    ensures count { OnOk result (length boards.new.items ≡ length boards.old.items) }
{
    for part in parts {
        put_part(alloc, part, boards)?;
    }
    Ok(())
}

/// Runs a task, once the gate lets the caller pass: what its agents leave besides messages, which join the boards.
fn run_one<G: Gate, R: Threads + Wait + Sync>(
    rt: &R,
    alloc: Global,
    floor: &Floor<'_, G>,
    task: Task,
    boards: &mut Vec<field::Board>,
) -> Result<Left, NoMemory>
    requires fits { FitsTask floor.now.round floor.now.readings.now task }
    requires boards { length boards.old.items ≡ length floor.now.round.program.now.model.messages }
    ensures left { IfOk result (λ left. (read : Standing) → AreRead floor.now.round read floor.now.readings.now
        → left ≡ left_of (round_of floor.now.round) read task) }
    ensures sent { OnOk result ((read : Standing) → AreRead floor.now.round read floor.now.readings.now
        → (message : ℕ) (weight : List ℤ → ℕ)
        → weigh_board boards.new.items message weight
        ≡ weigh_board boards.old.items message weight + weigh_sent (round_of floor.now.round) read message weight task) }
    ensures count { OnOk result (length boards.new.items ≡ length boards.old.items) }
{
    let place = task.place;
    floor.gate.enter(rt, task.function, task.number);
    let (rest, parts) = run(alloc, floor, task)?;
    put_parts(alloc, parts, boards)?;
    Ok(Left { place, rest })
}

/// Runs these tasks, one after another.
pub(crate) fn run_alone<G: Gate, R: Threads + Wait + Sync>(
    rt: &R,
    alloc: Global,
    floor: &Floor<'_, G>,
    tasks: Vec<Task>,
    boards: &mut Vec<field::Board>,
) -> Result<Vec<Left>, NoMemory>
    requires fit { All (FitsTask floor.now.round floor.now.readings.now) tasks.items }
    requires boards { length boards.old.items ≡ length floor.now.round.program.now.model.messages }
    ensures lefts { IfOk result (λ lefts. (read : Standing) → AreRead floor.now.round read floor.now.readings.now
        → lefts.items ≡ map (left_of (round_of floor.now.round) read) tasks.items) }
    ensures sent { OnOk result ((read : Standing) → AreRead floor.now.round read floor.now.readings.now
        → (message : ℕ) (weight : List ℤ → ℕ)
        → weigh_board boards.new.items message weight
        ≡ weigh_board boards.old.items message weight
        + weigh_all_sent (round_of floor.now.round) read tasks.items message weight) }
    ensures count { OnOk result (length boards.new.items ≡ length boards.old.items) }
{
    let mut lefts = Vec::new(alloc);
    for task in tasks {
        lefts.push(run_one(rt, alloc, floor, task, boards)?)?;
    }
    Ok(lefts)
}
