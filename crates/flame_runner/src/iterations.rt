//! Whole iterations.

ghost use Rattle.std.specs.Prelude.{◌≡◌, IfOk, length};
ghost use Rattle.flame_spec.specs.ModelOrder.{model_order};
ghost use Rattle.flame_world.specs.Iterations.{iteration as meant, steps, turn_of};
ghost use Rattle.flame_world.specs.WorldFits.{FitsField, FitsModel};
ghost use Rattle.flame_field.specs.KeptFields.{field_of};
ghost use Rattle.flame_field.specs.KeptPools.{AreDealt};
ghost use Rattle.flame_round.specs.Choices.{choice_at};
ghost use Rattle.flame_round.specs.KeptRounds.{round_of};
ghost use Rattle.flame_runner.specs.KeptSteps.{result_of};

use crate::steps::{Stepped, step};
use flame_field::Field;
use flame_program::Program;
use flame_round::{Round, closed, opened, wants_of};
use flame_rows::{NoMemory, Row};
use flame_spec_laws::orders;
use flame_world::{Turn, World};
use std::alloc::Global;

/// All functions run in model order, up to the first that faults.
fn run_all(alloc: Global, round: &Round<'_>, field: Field) -> Result<Stepped, NoMemory>
    requires known { length round.now.constants.now ≡ length round.now.program.now.model.constants }
    requires fits { FitsField round.now.program.now.model (field_of field) }
    requires dealt { AreDealt (choice_at round.now.program.now.model round.now.iteration) field.pools }
    ensures { IfOk result (λ stepped. result_of stepped
        ≡ steps (round_of round.now) (model_order round.now.program.now.model) (field_of field)) }
{
    orders();
    let mut field = field;
    for function in round.program.plan().order.items() {
        match step(alloc, round, *function, field)? {
            Stepped::On(next) => field = next,
            Stepped::Faulted(fault) => return Ok(Stepped::Faulted(fault)),
        }
    }
    Ok(Stepped::On(field))
}

/// What an iteration comes to whose functions came to this.
fn ended(alloc: Global, constants: Row, stepped: Stepped) -> Result<Turn, NoMemory>
    ensures { IfOk result (λ turn. turn ≡ turn_of constants (result_of stepped)) }
{
    match stepped {
        Stepped::Faulted(fault) => Ok(Turn::Faulted(fault)),
        Stepped::On(field) => {
            let (world, boards) = closed(alloc, constants, field)?;
            Ok(Turn::Done(world, boards))
        }
    }
}

/// The iteration of this number of a world, on the caller's thread: what `PlainRunner` gives, for callers that have no
/// runtime. The world has a value for each constant of the model, and for each agent type agents as wide as it declares;
/// so has the world at the end (`flame_world::laws::worlds_keep_their_widths`).
pub fn iterate(
    alloc: Global,
    program: &Program,
    world: World,
    iteration: i32,
    fuel: u32,
) -> Result<Turn, NoMemory>
    requires { FitsModel program.now.model world }
    ensures { IfOk result (λ turn. turn ≡ meant program.now world iteration fuel) }
{
    let World { constants, agents } = world;
    let wants = wants_of(alloc, program, agents.items(), true);
    let field = opened(alloc, program, agents)?;
    let round = Round {
        program,
        constants: &constants,
        iteration,
        fuel,
        wants: wants.as_slice(),
    };
    let stepped = run_all(alloc, &round, field)?;
    ended(alloc, constants, stepped)
}
