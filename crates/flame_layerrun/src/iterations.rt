//! Whole iterations by layers.

ghost use Rattle.std.specs.Prelude.{◌≡◌, ◌≤◌, IfOk, length, option_map};
ghost use Rattle.flame_world.specs.declared.worlds.World.{World as Told};
ghost use Rattle.flame_world.specs.Fields.{opening};
ghost use Rattle.flame_world.specs.Iterations.{iteration as meant, turn_of, unless_faulted};
ghost use Rattle.flame_world.specs.WorldFits.{FitsModel};
ghost use Rattle.flame_field.specs.KeptFields.{field_of};
ghost use Rattle.flame_field.specs.KeptPools.{AreDealt};
ghost use Rattle.flame_round.specs.Choices.{choice_at};
ghost use Rattle.flame_layers.specs.declared.stops.Stop.{Stop as Stopped};
ghost use Rattle.flame_layerrun.specs.LayerRuns.{IsBegun};

use crate::layers::{Crew, run_layer};
use crate::schedules::{by_layer, still};
use flame_field::Field;
use flame_lanes::Messages;
use flame_layers::Stop;
use flame_layers::laws::{layers_fit, layers_lead};
use flame_outside::Gate;
use flame_program::Program;
use flame_round::{Round, closed, opened, wants_of};
use flame_rows::{NoMemory, Row};
use flame_spec_laws::{orders, ranks};
use flame_world::{Turn, World};
use std::alloc::Global;
use std::sync::Wait;
use std::thread::Threads;

/// All layers run, one after another, from the field with which an iteration of this world begins: where it stops.
fn run_all<G: Gate, R: Threads + Wait + Sync>(
    rt: &R,
    alloc: Global,
    crew: &Crew<'_, G>,
    round: &Round<'_>,
    field: &mut Field,
) -> Result<Option<Stop>, NoMemory>
    requires some { 1 ≤ crew.now.workers }
    requires known { length round.now.constants.now ≡ length round.now.program.now.model.constants }
    requires begun { IsBegun round.now (field_of field.old) }
    requires dealt { AreDealt (choice_at round.now.program.now.model round.now.iteration) field.old.pools }
    ensures { (world : Told) → FitsModel round.now.program.now.model world
        → world.constants ≡ round.now.constants.now
        → field_of field.old ≡ opening round.now.program.now.model world.agents
        → IfOk result (λ stop. meant round.now.program.now world round.now.iteration round.now.fuel
        ≡ turn_of world.constants (unless_faulted (option_map (λ (stop : Stopped). stop.fault) stop) (field_of field.new))) }
{
    layers_lead();
    layers_fit();
    orders();
    ranks();
    let _source = round.program.source();
    let layers = by_layer(alloc, round.program)?;
    let mut messages = Messages::empty(alloc);
    let mut stop = None;
    for own in &layers {
        let functions = still(own.as_slice(), &stop);
        let found = run_layer(rt, alloc, crew, round, &mut messages, functions, field)?;
        stop = found.or(stop);
    }
    Ok(stop)
}

/// What an iteration comes to that stopped here, or came to this field.
fn ended(alloc: Global, constants: Row, stop: Option<Stop>, field: Field) -> Result<Turn, NoMemory>
    ensures { IfOk result (λ turn. turn ≡ turn_of constants
        (unless_faulted (option_map (λ (stop : Stopped). stop.fault) stop) (field_of field))) }
{
    match stop {
        Some(stop) => Ok(Turn::Faulted(stop.fault)),
        None => {
            let (world, boards) = closed(alloc, constants, field)?;
            Ok(Turn::Done(world, boards))
        }
    }
}

/// The iteration of this number of a world, by layers.
pub(crate) fn iterate<G: Gate, R: Threads + Wait + Sync>(
    rt: &R,
    alloc: Global,
    crew: &Crew<'_, G>,
    program: &Program,
    world: World,
    iteration: i32,
    fuel: u32,
) -> Result<Turn, NoMemory>
    requires some { 1 ≤ crew.now.workers }
    requires fits { FitsModel program.now.model world }
    ensures { IfOk result (λ turn. turn ≡ meant program.now world iteration fuel) }
{
    let World { constants, agents } = world;
    let wants = wants_of(alloc, program, agents.items(), true);
    let mut field = opened(alloc, program, agents)?;
    let round = Round {
        program,
        constants: &constants,
        iteration,
        fuel,
        wants: wants.as_slice(),
    };
    let stop = run_all(rt, alloc, crew, &round, &mut field)?;
    ended(alloc, constants, stop, field)
}
