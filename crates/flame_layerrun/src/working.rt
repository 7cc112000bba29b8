//! Workers: each runs its tasks, and hands in what their agents send.

ghost use Rattle.std.specs.Prelude.{◌≡◌, ◌<◌, ◌∷◌, [], ℕ, ℤ, List, IfOk, IsTrue, OnOk, length, map, slice_index_or};
ghost use Rattle.std.specs.List.{All};
ghost use Rattle.flame_spec.specs.Below.{is_in};
ghost use Rattle.flame_world.specs.Fields.{Field as Standing};
ghost use Rattle.flame_events.specs.LegalEvents.{outputs_of};
ghost use Rattle.flame_round.specs.KeptRounds.{round_of};
ghost use Rattle.flame_layerrun.specs.LayerTasks.{AreRead, FitsTask, piece_in};
ghost use Rattle.flame_layerrun.specs.LayerWork.{AreDone, AreLonger, AreOwn, CanDo, IsDone, weigh_all_sent, weigh_of_type, weigh_sent};
ghost use Rattle.flame_lanes.specs.TaskMeanings.{left_of, rest_of};

use crate::openings::Reading;
use flame_board::{Board, Lane};
use flame_lanes::{Done, Job, Left, Messages, Task};
use flame_outside::Gate;
use flame_round::Round;
use flame_rows::{Bag, NoMemory, Seq, all_of};
use flame_share::run_piece;
use flame_world::{Part, Piece, Rest};
use std::alloc::Global;
use std::sync::Wait;
use std::thread;
use std::thread::Threads;

/// What the workers of a layer share.
#[derive(Drop)]
pub(crate) struct Floor<'a, G: Gate> {
    /// What they call just before they run a piece.
    pub gate: &'a G,
    /// What stays the same throughout the iteration.
    pub round: Round<'a>,
    /// The functions of the layer.
    pub readings: &'a [Reading],
    /// The messages that they output.
    pub messages: &'a Messages,
    /// The board of each of these messages.
    pub boards: &'a [Board],
}

/// Hands in a part by the lane of its message.
fn hand_in<G: Gate, R: Wait>(
    rt: &R,
    floor: &Floor<'_, G>,
    lanes: &mut Vec<Lane>,
    part: Part,
) -> Result<(), NoMemory>
    requires listed { IsTrue (is_in part.message floor.now.messages.now) }
    requires own { AreOwn floor.now.boards.now lanes.old.items }
    requires boards { length floor.now.messages.now ≡ length floor.now.boards.now }
    requires long { length floor.now.messages.now ≡ length lanes.old.items }
    ensures longer { OnOk result (AreLonger (weigh_of_type (part ∷ [])) floor.now.messages.now lanes.old.items lanes.new.items) }
{
    let place = floor.messages.place(part.message);
    floor.boards[place].hand_in(rt, &mut lanes[place], part)?;
    Ok(())
}

/// Hands in these parts.
fn hand_in_all<G: Gate, R: Wait>(
    rt: &R,
    floor: &Floor<'_, G>,
    lanes: &mut Vec<Lane>,
    parts: Vec<Part>,
) -> Result<(), NoMemory>
    requires listed { All (λ part. IsTrue (is_in part.message floor.now.messages.now)) parts.items }
    requires own { AreOwn floor.now.boards.now lanes.old.items }
    requires long { length floor.now.messages.now ≡ length lanes.old.items }
    ensures longer { OnOk result (AreLonger (weigh_of_type parts.items) floor.now.messages.now lanes.old.items lanes.new.items) }
{
    for part in parts {
        hand_in(rt, floor, lanes, part)?;
    }
    Ok(())
}

/// The piece that the task is.
fn piece_of(task: Task) -> Result<Piece, NoMemory>
    ensures { IfOk result (λ piece. piece ≡ piece_in task) }
{
    Ok(Piece {
        function: task.function,
        number: task.number,
        agents: Bag::of_rows(task.agents.into_items())?,
    })
}

/// What the agents of the task leave: the rest, and a part for each output.
pub(crate) fn run<G: Gate>(
    alloc: Global,
    floor: &Floor<'_, G>,
    task: Task,
) -> Result<(Rest, Vec<Part>), NoMemory>
    requires fits { FitsTask floor.now.round floor.now.readings.now task }
    ensures rest { IfOk result (λ left. (read : Standing) → AreRead floor.now.round read floor.now.readings.now
        → left.0 ≡ rest_of (round_of floor.now.round) read task) }
    ensures parts { IfOk result (λ left. (read : Standing) → AreRead floor.now.round read floor.now.readings.now
        → (message : ℕ) (weight : List ℤ → ℕ)
        → weigh_of_type left.1.items message weight ≡ weigh_sent (round_of floor.now.round) read message weight task) }
    ensures outputs { IfOk result (λ left. map (λ part. part.message) left.1.items
        ≡ outputs_of floor.now.round.program.now.model task.function) }
{
    let round = &floor.round;
    let _accepted = round.program.source();
    let reading = &floor.readings[task.place];
    let piece = piece_of(task)?;
    let share = run_piece(
        alloc,
        round.program,
        piece,
        round.constants,
        &reading.boards,
        round.iteration,
        round.fuel,
    )?;
    let (rest, parts) = share.split();
    Ok((rest, parts.into_items()))
}

/// Runs a task, once the gate lets the worker pass, and hands in what its agents sent.
fn work_on<G: Gate, R: Threads + Wait + Sync>(
    rt: &R,
    alloc: Global,
    floor: &Floor<'_, G>,
    lanes: &mut Vec<Lane>,
    task: Task,
) -> Result<Left, NoMemory>
    requires fits { FitsTask floor.now.round floor.now.readings.now task }
    requires listed { All (λ message. IsTrue (is_in message floor.now.messages.now))
        (outputs_of floor.now.round.program.now.model task.function) }
    requires own { AreOwn floor.now.boards.now lanes.old.items }
    requires long { length floor.now.messages.now ≡ length lanes.old.items }
    ensures left { IfOk result (λ left. (read : Standing) → AreRead floor.now.round read floor.now.readings.now
        → left ≡ left_of (round_of floor.now.round) read task) }
    ensures longer { OnOk result ((read : Standing) → AreRead floor.now.round read floor.now.readings.now
        → AreLonger (weigh_all_sent (round_of floor.now.round) read (task ∷ [])) floor.now.messages.now
        lanes.old.items lanes.new.items) }
    ensures own { OnOk result (AreOwn floor.now.boards.now lanes.new.items) }
    ensures long { OnOk result (length floor.now.messages.now ≡ length lanes.new.items) }
{
    let place = task.place;
    floor.gate.enter(rt, task.function, task.number);
    let (rest, parts) = run(alloc, floor, task)?;
    hand_in_all(rt, floor, lanes, parts)?;
    Ok(Left { place, rest })
}

/// Does a job: its tasks, one after another.
fn work<G: Gate, R: Threads + Wait + Sync>(
    rt: &R,
    alloc: Global,
    floor: &Floor<'_, G>,
    job: Job,
) -> Result<Done, NoMemory>
    requires can { CanDo floor.now.round floor.now.readings.now floor.now.messages.now floor.now.boards.now job }
    ensures done { IfOk result (λ done. (read : Standing) → AreRead floor.now.round read floor.now.readings.now
        → IsDone (round_of floor.now.round) read floor.now.messages.now job done) }
{
    let Job { tasks, lanes } = job;
    let mut lanes = lanes.into_items();
    let mut lefts = Vec::new(alloc);
    for task in tasks.into_items() {
        lefts.push(work_on(rt, alloc, floor, &mut lanes, task)?)?;
    }
    Ok(Done {
        lefts: Seq::of(lefts),
        lanes: Seq::of(lanes),
    })
}

/// What the workers give back that do these jobs, each one of them; the caller is one of the workers. Where no thread can be
/// started, the caller does its work.
fn work_each<G: Gate, R: Threads + Wait + Sync>(
    rt: &R,
    alloc: Global,
    floor: &Floor<'_, G>,
    jobs: Vec<Job>,
) -> Result<Vec<Result<Done, NoMemory>>, NoMemory>
    requires can { All (CanDo floor.now.round floor.now.readings.now floor.now.messages.now floor.now.boards.now) jobs.items }
    ensures count { IfOk result (λ results. length results.items ≡ length jobs.items) }
    ensures each { IfOk result (λ results. (place : ℕ) (other : _) (job : _) → place < length jobs.items
        → IfOk (slice_index_or results.items place other) (λ done. (read : Standing)
        → AreRead floor.now.round read floor.now.readings.now
        → IsDone (round_of floor.now.round) read floor.now.messages.now (slice_index_or jobs.items place job) done)) }
{
    let results = thread::map_vec(
        rt,
        jobs,
        &|job: Job| -> Result<Done, NoMemory>
            requires { CanDo floor.now.round floor.now.readings.now floor.now.messages.now floor.now.boards.now job }
            ensures { IfOk result (λ done. (read : Standing)
                → AreRead floor.entry.now.round read floor.entry.now.readings.now
                → IsDone (round_of floor.entry.now.round) read floor.entry.now.messages.now job done) }
        { work(rt, alloc, floor, job) },
    )?;
    Ok(results)
}

/// Does all jobs, each by a worker of its own. Want of memory of a worker is answered once all are done.
pub(crate) fn work_all<G: Gate, R: Threads + Wait + Sync>(
    rt: &R,
    alloc: Global,
    floor: &Floor<'_, G>,
    jobs: Vec<Job>,
) -> Result<Vec<Done>, NoMemory>
    requires can { All (CanDo floor.now.round floor.now.readings.now floor.now.messages.now floor.now.boards.now) jobs.items }
    ensures { IfOk result (λ dones. (read : Standing) → AreRead floor.now.round read floor.now.readings.now
        → AreDone (round_of floor.now.round) read floor.now.messages.now jobs.items dones.items) }
{
    let results = work_each(rt, alloc, floor, jobs)?;
    let dones = all_of(alloc, results)?;
    Ok(dones)
}
