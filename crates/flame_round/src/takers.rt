//! The agents that take a function.

ghost use Rattle.std.specs.Prelude.{◌≡◌, ℤ, List, IfOk, map};
ghost use Rattle.std.specs.List.{All};
ghost use Rattle.flame_meaning.specs.Outcomes.{outcome, place_of};
ghost use Rattle.flame_index.specs.FrozenBoards.{shared_messages};
ghost use Rattle.flame_world.specs.InputBoards.{boards_named};
ghost use Rattle.flame_world.specs.Settings.{boards_of};
ghost use Rattle.flame_leaving.specs.Leavings.{AreLeft};
ghost use Rattle.flame_agent.specs.FunctionFits.{FitsFunction};
ghost use Rattle.flame_round.specs.KeptRounds.{FitsRun};

use crate::rounds::Round;
use flame_agent::run_agents;
use flame_index::Frozen;
use flame_leaving::Leaving;
use flame_program::Program;
use flame_rows::{NoMemory, Row, Seq};
use flame_world::Setting;
use std::alloc::Global;
use std::sync::Arc;

/// What these agents leave that run the function, where the setting has those boards that the function's inputs name: what
/// they leave over the boards of all messages.
fn run_named(
    alloc: Global,
    program: &Program,
    setting: &Setting<'_>,
    function: u32,
    agents: &[Row],
) -> Result<Leaving, NoMemory>
    requires source { setting.now.source.now ≡ program.now }
    requires fits { All (λ memory. FitsFunction program.now.model function setting.now memory) agents.now }
    ensures { IfOk result (λ leaving. (all : List (List (List ℤ)))
        → boards_of setting.now ≡ boards_named (place_of program.now function) program.now.model all
        → AreLeft setting.now.iteration function (λ memory. outcome program.now function memory all
        setting.now.constants.now setting.now.iteration setting.now.fuel) agents.now leaving) }
{
    run_agents(alloc, program, setting, function, agents)
}

/// The same, with these boards of the function's inputs.
pub fn run_over(
    alloc: Global,
    round: &Round<'_>,
    function: u32,
    agents: &[Row],
    boards: &Seq<Arc<Frozen>>,
) -> Result<Leaving, NoMemory>
    requires { FitsRun round.now.program.now.model function round.now.constants.now (map shared_messages boards.now)
        agents.now }
    ensures { IfOk result (λ leaving. (all : List (List (List ℤ)))
        → map shared_messages boards.now
        ≡ boards_named (place_of round.now.program.now function) round.now.program.now.model all
        → AreLeft round.now.iteration function (λ memory. outcome round.now.program.now function memory all
        round.now.constants.now round.now.iteration round.now.fuel) agents.now leaving) }
{
    let setting = Setting {
        source: round.program.source(),
        constants: round.constants,
        boards,
        iteration: round.iteration,
        fuel: round.fuel,
    };
    run_named(alloc, round.program, &setting, function, agents)
}
