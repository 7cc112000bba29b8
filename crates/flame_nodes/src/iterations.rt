//! Whole iterations by nodes.

ghost use Rattle.std.specs.Prelude.{◌≡◌, ◌≤◌, IfOk, length};
ghost use Rattle.flame_spec.specs.ModelOrder.{model_order};
ghost use Rattle.flame_world.specs.Iterations.{iteration as meant, steps, turn_of, unless_faulted};
ghost use Rattle.flame_world.specs.WorldFits.{FitsField, FitsModel};
ghost use Rattle.flame_field.specs.KeptFields.{field_of};
ghost use Rattle.flame_field.specs.KeptPools.{AreDealt};
ghost use Rattle.flame_round.specs.Choices.{choice_at};
ghost use Rattle.flame_round.specs.KeptRounds.{round_of};

use crate::steps::{Crew, step};
use flame_field::Field;
use flame_outside::Gate;
use flame_program::Program;
use flame_round::{Round, closed, opened, wants_of};
use flame_rows::{NoMemory, Row};
use flame_spec_laws::orders;
use flame_world::{SimFault, Turn, World};
use std::alloc::Global;
use std::sync::Wait;
use std::thread::Threads;

/// All functions run in model order, up to the first that faults.
fn run_all<G: Gate, R: Threads + Wait + Sync>(
    rt: &R,
    alloc: Global,
    crew: &Crew<'_, G>,
    round: &Round<'_>,
    field: &mut Field,
) -> Result<Option<SimFault>, NoMemory>
    requires some { 1 ≤ crew.now.nodes }
    requires known { length round.now.constants.now ≡ length round.now.program.now.model.constants }
    requires fits { FitsField round.now.program.now.model (field_of field.old) }
    requires dealt { AreDealt (choice_at round.now.program.now.model round.now.iteration) field.old.pools }
    ensures { IfOk result (λ fault. unless_faulted fault (field_of field.new)
        ≡ steps (round_of round.now) (model_order round.now.program.now.model) (field_of field.old)) }
{
    orders();
    for function in round.program.plan().order.items() {
        let fault = step(rt, alloc, crew, round, *function, field)?;
        if fault.is_some() {
            return Ok(fault);
        }
    }
    Ok(None)
}

/// What an iteration comes to that this fault ended, or that came to this field.
fn ended(
    alloc: Global,
    constants: Row,
    fault: Option<SimFault>,
    field: Field,
) -> Result<Turn, NoMemory>
    ensures { IfOk result (λ turn. turn ≡ turn_of constants (unless_faulted fault (field_of field))) }
{
    match fault {
        Some(fault) => Ok(Turn::Faulted(fault)),
        None => {
            let (world, boards) = closed(alloc, constants, field)?;
            Ok(Turn::Done(world, boards))
        }
    }
}

/// The iteration of this number of a world, by nodes.
pub(crate) fn iterate<G: Gate, R: Threads + Wait + Sync>(
    rt: &R,
    alloc: Global,
    crew: &Crew<'_, G>,
    program: &Program,
    world: World,
    iteration: i32,
    fuel: u32,
) -> Result<Turn, NoMemory>
    requires some { 1 ≤ crew.now.nodes }
    requires fits { FitsModel program.now.model world }
    ensures { IfOk result (λ turn. turn ≡ meant program.now world iteration fuel) }
{
    let World { constants, agents } = world;
    let wants = wants_of(alloc, program, agents.items(), true);
    let mut field = opened(alloc, program, agents)?;
    let round = Round {
        program,
        constants: &constants,
        iteration,
        fuel,
        wants: wants.as_slice(),
    };
    let fault = run_all(rt, alloc, crew, &round, &mut field)?;
    ended(alloc, constants, fault, field)
}
