//! The functions of a layer begin: their takers leave, in tasks, and the boards that they read are shared.

ghost use Rattle.std.specs.Prelude.{◌≡◌, ◌<◌, ◌≤◌, ℕ, [], IfOk, OnOk, length, map, slice_index_or};
ghost use Rattle.std.specs.List.{All};
ghost use Rattle.flame_rows.specs.Bags.{ascending};
ghost use Rattle.flame_spec.specs.Before.{function_count};
ghost use Rattle.flame_index.specs.FrozenBoards.{shared_messages};
ghost use Rattle.flame_meaning.specs.Outcomes.{place_of};
ghost use Rattle.flame_world.specs.InputBoards.{boards_named};
ghost use Rattle.flame_world.specs.WorldFits.{FitsField};
ghost use Rattle.flame_field.specs.KeptFields.{field_of};
ghost use Rattle.flame_field.specs.KeptPools.{AreDealt};
ghost use Rattle.flame_round.specs.Choices.{choice_at};
ghost use Rattle.flame_round.specs.KeptRounds.{FitsRun, round_of};
ghost use Rattle.flame_layers.specs.LayerFields.{all_takers, left_by_all, left_by_takers, takers_in};
ghost use Rattle.flame_layerrun.specs.LayerTasks.{AreRead, FitsTask};
ghost use Rattle.flame_lanes.specs.LaneTasks.{agents_at};

use crate::choosing::choose_all;
use crate::schedules::Ranked;
use flame_field::{Field, share};
use flame_index::Frozen;
use flame_lanes::{Task, add_tasks};
use flame_layers::laws::layers_fit;
use flame_round::{Round, leave, route_of};
use flame_rows::{NoMemory, Row, Seq};
use std::alloc::Global;
use std::sync::Arc;
use std::thread::Threads;

/// A function that runs in a layer, with the boards that its agents read.
#[derive(Drop)]
pub(crate) struct Reading {
    /// Its place in model order.
    pub rank: u32,
    /// Its number, in document order.
    pub function: u32,
    /// The board of each input, in their order.
    pub boards: Seq<Arc<Frozen>>,
}

/// The functions of a layer, which have begun, and their tasks, by rank and number.
#[derive(Drop)]
pub(crate) struct Opened {
    /// The functions, by rank.
    pub readings: Vec<Reading>,
    /// Their tasks.
    pub tasks: Vec<Task>,
}

/// The takers of the function leave, in any order, and it reads these boards.
fn open<R: Threads + Sync>(
    rt: &R,
    alloc: Global,
    workers: u32,
    round: &Round<'_>,
    ranked: Ranked,
    field: &mut Field,
) -> Result<(Vec<Row>, Reading), NoMemory>
    requires some { 1 ≤ workers }
    requires there { ranked.function < function_count round.now.program.now.model }
    requires known { length round.now.constants.now ≡ length round.now.program.now.model.constants }
    requires fits { FitsField round.now.program.now.model (field_of field.old) }
    requires dealt { AreDealt (choice_at round.now.program.now.model round.now.iteration) field.old.pools }
    ensures takers { IfOk result (λ begun. ascending begun.0.items
        ≡ takers_in (round_of round.now) ranked.function (field_of field.old)) }
    ensures function { IfOk result (λ begun. begun.1.function ≡ ranked.function) }
    ensures rank { IfOk result (λ begun. begun.1.rank ≡ ranked.rank) }
    ensures boards { IfOk result (λ begun. map shared_messages begun.1.boards
        ≡ boards_named (place_of round.now.program.now ranked.function) round.now.program.now.model
        (field_of field.old).boards) }
    ensures fits { IfOk result (λ begun. FitsRun round.now.program.now.model ranked.function round.now.constants.now
        (map shared_messages begun.1.boards) begun.0.items) }
    ensures field { OnOk result (field_of field.new ≡ left_by_takers (round_of round.now) ranked.function (field_of field.old)) }
    ensures dealt { OnOk result (AreDealt (choice_at round.now.program.now.model round.now.iteration) field.new.pools) }
{
    let route = route_of(round, ranked.function);
    choose_all(
        rt,
        alloc,
        workers,
        round,
        ranked.function,
        route,
        &mut field.pools,
    )?;
    let takers = leave(alloc, route, &mut field.pools);
    let boards = share(alloc, &mut field.boards, route.inputs.items(), round.wants)?;
    let reading = Reading {
        rank: ranked.rank,
        function: ranked.function,
        boards: Seq::of(boards),
    };
    Ok((takers, reading))
}

/// All these functions of a layer begin, one after another: their takers leave, in at most as many tasks for each as there are
/// workers.
pub(crate) fn open_all<R: Threads + Sync>(
    rt: &R,
    alloc: Global,
    workers: u32,
    round: &Round<'_>,
    functions: &[Ranked],
    field: &mut Field,
) -> Result<Opened, NoMemory>
    requires there { All (λ ranked. ranked.function < function_count round.now.program.now.model) functions.now }
    requires some { 1 ≤ workers }
    requires known { length round.now.constants.now ≡ length round.now.program.now.model.constants }
    requires fits { FitsField round.now.program.now.model (field_of field.old) }
    requires dealt { AreDealt (choice_at round.now.program.now.model round.now.iteration) field.old.pools }
    ensures functions { IfOk result (λ opened. map (λ reading. reading.function) opened.readings.items
        ≡ map (λ ranked. ranked.function) functions.now) }
    ensures ranks { IfOk result (λ opened. map (λ reading. reading.rank) opened.readings.items
        ≡ map (λ ranked. ranked.rank) functions.now) }
    ensures read { IfOk result (λ opened. AreRead round.now (field_of field.old) opened.readings.items) }
    ensures tasks { IfOk result (λ opened. (place : ℕ) → ascending (agents_at place opened.tasks.items)
        ≡ slice_index_or
        (all_takers (round_of round.now) (map (λ ranked. ranked.function) functions.now) (field_of field.old)) place []) }
    ensures fit { IfOk result (λ opened. All (FitsTask round.now opened.readings.items) opened.tasks.items) }
    ensures field { OnOk result (field_of field.new
        ≡ left_by_all (round_of round.now) (map (λ ranked. ranked.function) functions.now) (field_of field.old)) }
    ensures dealt { OnOk result (AreDealt (choice_at round.now.program.now.model round.now.iteration) field.new.pools) }
{
    layers_fit();
    let mut readings = Vec::new(alloc);
    let mut tasks = Vec::new(alloc);
    for ranked in functions {
        let place = readings.len();
        let (takers, reading) = open(rt, alloc, workers, round, *ranked, field)?;
        add_tasks(alloc, &mut tasks, place, ranked.function, takers, workers)?;
        readings.push(reading)?;
    }
    Ok(Opened { readings, tasks })
}
