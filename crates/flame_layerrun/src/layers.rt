//! Layers: the functions of one run side by side.

ghost use Rattle.std.specs.Prelude.{◌≡◌, ◌<◌, ◌≤◌, ◌+◌, ℕ, ℤ, List, IfOk, OnOk, length, map};
ghost use Rattle.std.specs.List.{All};
ghost use Rattle.flame_spec.specs.Accepted.{IsAccepted};
ghost use Rattle.flame_spec.specs.Before.{function_count};
ghost use Rattle.flame_world.specs.Fields.{Field as Standing};
ghost use Rattle.flame_world.specs.WorldFits.{FitsField};
ghost use Rattle.flame_field.specs.KeptFields.{field_of};
ghost use Rattle.flame_field.specs.KeptPools.{AreDealt};
ghost use Rattle.flame_round.specs.Choices.{choice_at};
ghost use Rattle.flame_round.specs.KeptRounds.{round_of};
ghost use Rattle.flame_layers.specs.LayerFields.{all_takers, first_stop, layer_field, rank_of};
ghost use Rattle.flame_lanes.specs.LayerBoards.{weigh_board};
ghost use Rattle.flame_layerrun.specs.LayerRuns.{AreAllLeft, HasRead};
ghost use Rattle.flame_layerrun.specs.LayerTasks.{AreRead, FitsTask};
ghost use Rattle.flame_layerrun.specs.LayerWork.{weigh_all_sent};

use crate::alone::run_alone;
use crate::bringing::bring_all;
use crate::openings::{Opened, Reading, open_all};
use crate::outputs::list_outputs;
use crate::schedules::Ranked;
use crate::working::{Floor, work_all};
use flame_board::{Key, Layer};
use flame_field::{self as field, Field};
use flame_lanes::{
    Left, Messages, Task, deal_tasks, freeze_all, gain_all, gathered, jobs_of, open_boards,
};
use flame_layers::Stop;
use flame_layers::laws::layers_fit;
use flame_leaving::laws::parts_make_the_whole;
use flame_outside::Gate;
use flame_program::Program;
use flame_round::Round;
use flame_rows::{NoMemory, Seq};
use flame_spec_laws::names_differ;
use std::alloc::Global;
use std::sync::Wait;
use std::thread::Threads;

/// Who runs a layer: how many workers, and what they call just before they run a piece.
#[derive(Clone, Copy)]
pub(crate) struct Crew<'g, G: Gate> {
    pub gate: &'g G,
    pub workers: u32,
}

/// How many lanes so many tasks go to: one for each worker, but no more than there are tasks, and one at least.
fn count_lanes(workers: u32, tasks: usize) -> u32
    requires { 1 ≤ workers }
    ensures { 1 ≤ result }
{
    match u32::try_from(tasks) {
        Ok(0) => 1,
        Ok(tasks) => tasks.min(workers),
        Err(_) => workers,
    }
}

/// The pieces of a layer that has these tasks.
fn pieces_of(
    alloc: Global,
    program: &Program,
    tasks: &[Task],
    lanes: u32,
) -> Result<Layer, NoMemory>
    requires some { 1 ≤ lanes }
    requires there { All (λ task. task.function < function_count program.now.model) tasks.now }
    ensures lanes { IfOk result (λ layer. layer.lanes ≡ lanes) }
{
    let routes = program.routes().routes.items();
    let mut pieces = Vec::new(alloc);
    for task in tasks {
        let outputs = routes[task.function as usize].outputs.items();
        pieces.push(Key {
            function: task.function,
            number: task.number,
            outputs: Seq::of(Vec::from_slice(alloc, outputs)?),
        })?;
    }
    Ok(Layer {
        pieces: Seq::of(pieces),
        lanes,
    })
}

/// Runs these tasks by so many workers, each of which has a lane of its own to each board.
fn run_apart<G: Gate, R: Threads + Wait + Sync>(
    rt: &R,
    alloc: Global,
    crew: &Crew<'_, G>,
    round: &Round<'_>,
    messages: &mut Messages,
    readings: &[Reading],
    tasks: Vec<Task>,
    lanes: u32,
    boards: &mut Vec<field::Board>,
) -> Result<Vec<Left>, NoMemory>
    requires some { 1 ≤ lanes }
    requires fit { All (FitsTask round.now readings.now) tasks.items }
    requires boards { length boards.old.items ≡ length round.now.program.now.model.messages }
    requires read { HasRead round.now readings.now }
    ensures lefts { IfOk result (λ lefts. (read : Standing) → AreRead round.now read readings.now
        → AreAllLeft (round_of round.now) read tasks.items lefts.items) }
    ensures sent { IfOk result (λ lefts. (read : Standing) → AreRead round.now read readings.now
        → (message : ℕ) (weight : List ℤ → ℕ)
        → weigh_board boards.new.items message weight
        ≡ weigh_board boards.old.items message weight
        + weigh_all_sent (round_of round.now) read tasks.items message weight) }
    ensures count { OnOk result (length boards.new.items ≡ length boards.old.items) }
{
    messages.clear();
    list_outputs(messages, round.program, tasks.as_slice())?;
    let layer = pieces_of(alloc, round.program, tasks.as_slice(), lanes)?;
    let (own, columns) = open_boards(alloc, &layer, messages.listed(), boards)?;
    let loads = deal_tasks(alloc, tasks, lanes)?;
    let jobs = jobs_of(alloc, columns, loads)?;
    let floor = Floor {
        gate: crew.gate,
        round: *round,
        readings,
        messages,
        boards: own.as_slice(),
    };
    let dones = work_all(rt, alloc, &floor, jobs)?;
    let (columns, lefts) = gathered(alloc, own.len(), dones)?;
    freeze_all(rt, alloc, lanes, messages.listed(), own, columns, boards)?;
    Ok(lefts)
}

/// Runs these tasks by the caller alone.
fn run_here<G: Gate, R: Threads + Wait + Sync>(
    rt: &R,
    alloc: Global,
    crew: &Crew<'_, G>,
    round: &Round<'_>,
    messages: &Messages,
    readings: &[Reading],
    tasks: Vec<Task>,
    boards: &mut Vec<field::Board>,
) -> Result<Vec<Left>, NoMemory>
    requires fit { All (FitsTask round.now readings.now) tasks.items }
    requires boards { length boards.old.items ≡ length round.now.program.now.model.messages }
    ensures lefts { IfOk result (λ lefts. (read : Standing) → AreRead round.now read readings.now
        → AreAllLeft (round_of round.now) read tasks.items lefts.items) }
    ensures sent { IfOk result (λ lefts. (read : Standing) → AreRead round.now read readings.now
        → (message : ℕ) (weight : List ℤ → ℕ)
        → weigh_board boards.new.items message weight
        ≡ weigh_board boards.old.items message weight
        + weigh_all_sent (round_of round.now) read tasks.items message weight) }
    ensures count { OnOk result (length boards.new.items ≡ length boards.old.items) }
{
    let floor = Floor {
        gate: crew.gate,
        round: *round,
        readings,
        messages,
        boards: &[],
    };
    let lefts = run_alone(rt, alloc, &floor, tasks, boards)?;
    Ok(lefts)
}

/// Runs these tasks of a layer: what their agents leave besides messages, task by task in whatever order; their messages join
/// the boards. After `NoMemory` the boards are of no further use.
fn run_tasks<G: Gate, R: Threads + Wait + Sync>(
    rt: &R,
    alloc: Global,
    crew: &Crew<'_, G>,
    round: &Round<'_>,
    messages: &mut Messages,
    readings: &[Reading],
    tasks: Vec<Task>,
    boards: &mut Vec<field::Board>,
) -> Result<Vec<Left>, NoMemory>
    requires some { 1 ≤ crew.now.workers }
    requires fit { All (FitsTask round.now readings.now) tasks.items }
    requires boards { length boards.old.items ≡ length round.now.program.now.model.messages }
    requires read { HasRead round.now readings.now }
    ensures lefts { IfOk result (λ lefts. (read : Standing) → AreRead round.now read readings.now
        → AreAllLeft (round_of round.now) read tasks.items lefts.items) }
    ensures sent { IfOk result (λ lefts. (read : Standing) → AreRead round.now read readings.now
        → (message : ℕ) (weight : List ℤ → ℕ)
        → weigh_board boards.new.items message weight
        ≡ weigh_board boards.old.items message weight
        + weigh_all_sent (round_of round.now) read tasks.items message weight) }
    ensures count { OnOk result (length boards.new.items ≡ length boards.old.items) }
{
    let lanes = count_lanes(crew.workers, tasks.len());
    if lanes == 1 {
        let lefts = run_here(rt, alloc, crew, round, messages, readings, tasks, boards)?;
        return Ok(lefts);
    }
    let lefts = run_apart(
        rt, alloc, crew, round, messages, readings, tasks, lanes, boards,
    )?;
    Ok(lefts)
}

/// The functions of a layer run side by side, which stand by rank: where the first of them stops the iteration that does.
/// After `NoMemory` the field is of no further use.
pub(crate) fn run_layer<G: Gate, R: Threads + Wait + Sync>(
    rt: &R,
    alloc: Global,
    crew: &Crew<'_, G>,
    round: &Round<'_>,
    messages: &mut Messages,
    functions: &[Ranked],
    field: &mut Field,
) -> Result<Option<Stop>, NoMemory>
    requires some { 1 ≤ crew.now.workers }
    requires accepted { IsAccepted round.now.program.now }
    requires there { All (λ ranked. ranked.function < function_count round.now.program.now.model) functions.now }
    requires ranks { All (λ ranked. ranked.rank ≡ rank_of round.now.program.now.model ranked.function) functions.now }
    requires known { length round.now.constants.now ≡ length round.now.program.now.model.constants }
    requires fits { FitsField round.now.program.now.model (field_of field.old) }
    requires dealt { AreDealt (choice_at round.now.program.now.model round.now.iteration) field.old.pools }
    ensures field { OnOk result (field_of field.new
        ≡ layer_field (round_of round.now) (map (λ ranked. ranked.function) functions.now) (field_of field.old)) }
    ensures stop { IfOk result (λ stop. stop ≡ first_stop (round_of round.now) (field_of field.old)
        (map (λ ranked. ranked.function) functions.now)
        (all_takers (round_of round.now) (map (λ ranked. ranked.function) functions.now) (field_of field.old))) }
    ensures dealt { OnOk result (AreDealt (choice_at round.now.program.now.model round.now.iteration) field.new.pools) }
{
    parts_make_the_whole();
    names_differ();
    layers_fit();
    let opened = open_all(rt, alloc, crew.workers, round, functions, field)?;
    let Opened { readings, tasks } = opened;
    let lefts = run_tasks(
        rt,
        alloc,
        crew,
        round,
        messages,
        readings.as_slice(),
        tasks,
        &mut field.boards,
    )?;
    let gains = gain_all(alloc, readings.len(), lefts)?;
    let stop = bring_all(alloc, round, readings, gains, field)?;
    Ok(stop)
}
