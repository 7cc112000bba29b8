//! Runs of functions for agents.

ghost use Rattle.std.specs.Prelude.{◌≡◌, ◌+◌, ◌<◌, ◌^◌, ◌++◌, ◌∷◌, [], ℤ, List, IfOk, OnOk};
ghost use Rattle.std.specs.List.{All};
ghost use Rattle.flame_machine.specs.RunsInto.{RanInto};
ghost use Rattle.flame_world.specs.Meaning.{outcome_under};
ghost use Rattle.flame_world.specs.Settings.{boards_of};
ghost use Rattle.flame_leaving.specs.Leavings.{AreLeft};
ghost use Rattle.flame_agent.specs.FunctionFits.{FitsFunction};
ghost use Rattle.flame_agent.specs.ViewsForAll.{AreForAll};

use crate::codes::code_of;
use crate::shared::SharedViews;
use crate::views::put_views;
use flame_leaving::Leaving;
use flame_machine::{Ending, Room};
use flame_program::Program;
use flame_program::laws::programs_mean;
use flame_rows::{NoMemory, Row};
use flame_spec::{Born, Sent};
use flame_view::Views;
use flame_world::Setting;
use std::alloc::Global;

/// What the function of this number does for an agent with this memory, under this setting of the program: its messages and
/// births go behind those that these lists have. Its code runs over the views of the boards: those that all agents share,
/// and its own, each of which is made once, before the run; no row of a board is copied. The room's lists, that of the views
/// and those into which they pick rows are used and kept.
fn run_agent<'a>(
    room: &mut Room,
    views: &mut Views<'a>,
    program: &Program,
    setting: &Setting<'a>,
    function: u32,
    shared: &'a SharedViews<'a>,
    memory: &Row,
    sent: &mut Vec<Sent>,
    born: &mut Vec<Born>,
) -> Result<Ending, NoMemory>
    requires source { setting.now.source.now ≡ program.now }
    requires fits { FitsFunction program.now.model function setting.now memory.now }
    requires shared { AreForAll program.now function (boards_of setting.now) shared.now }
    ensures { IfOk result (λ ending. RanInto (λ outcome. outcome ≡ outcome_under setting.now function memory.now)
        ending sent.old.items sent.new.items born.old.items born.new.items) }
{
    programs_mean();
    let _source = program.source();
    let code = code_of(program, setting, function, memory);
    put_views(program, setting, function, shared, memory, views)?;
    let ending = room.run_into(
        code,
        program.helpers(),
        memory,
        views,
        setting.constants,
        setting.iteration,
        setting.fuel,
        sent,
        born,
    )?;
    Ok(ending)
}

/// One agent more runs: what these agents left, it leaves too.
fn run_next<'a>(
    room: &mut Room,
    views: &mut Views<'a>,
    program: &Program,
    setting: &Setting<'a>,
    function: u32,
    shared: &'a SharedViews<'a>,
    memory: &Row,
    leaving: &mut Leaving,
) -> Result<(), NoMemory>
    requires source { setting.now.source.now ≡ program.now }
    requires fits { FitsFunction program.now.model function setting.now memory.now }
    requires shared { AreForAll program.now function (boards_of setting.now) shared.now }
    requires count { leaving.old.ran + 1 < 2 ^ 64 }
    ensures { OnOk result ((agents : List (List ℤ))
        → AreLeft setting.now.iteration function (outcome_under setting.now function) agents leaving.old
        → AreLeft setting.now.iteration function (outcome_under setting.now function) (agents ++ memory.now ∷ [])
        leaving.new) }
{
    let ending = run_agent(
        room,
        views,
        program,
        setting,
        function,
        shared,
        memory,
        &mut leaving.sent,
        &mut leaving.born,
    )?;
    match ending {
        Ending::Ended(kept, _) => {
            leaving.add_ended(kept)?;
            Ok(())
        }
        Ending::Faulted(fault) => {
            leaving.add_faulted(setting.iteration, function, memory, fault)?;
            Ok(())
        }
    }
}

/// What these agents leave that run one after another, over the views that they share.
fn run_all<'a>(
    alloc: Global,
    program: &Program,
    setting: &Setting<'a>,
    function: u32,
    shared: &'a SharedViews<'a>,
    agents: &[Row],
) -> Result<Leaving, NoMemory>
    requires source { setting.now.source.now ≡ program.now }
    requires fits { All (λ memory. FitsFunction program.now.model function setting.now memory) agents.now }
    requires shared { AreForAll program.now function (boards_of setting.now) shared.now }
    ensures { IfOk result (AreLeft setting.now.iteration function (outcome_under setting.now function) agents.now) }
{
    // Their number fits, as that of what any iterator over a slice has left.
    let _agents = agents.iter();
    let mut leaving = Leaving::expecting(alloc, agents.len());
    let mut room = Room::new(alloc);
    let mut views = Views::new(alloc);
    for memory in agents {
        run_next(
            &mut room,
            &mut views,
            program,
            setting,
            function,
            shared,
            memory,
            &mut leaving,
        )?;
    }
    Ok(leaving)
}

/// The same, where the views live shorter than the setting: a list of views holds both at one lifetime.
fn run_over(
    alloc: Global,
    program: &Program,
    setting: &Setting<'_>,
    function: u32,
    shared: &SharedViews<'_>,
    agents: &[Row],
) -> Result<Leaving, NoMemory>
    requires source { setting.now.source.now ≡ program.now }
    requires fits { All (λ memory. FitsFunction program.now.model function setting.now memory) agents.now }
    requires shared { AreForAll program.now function (boards_of setting.now) shared.now }
    ensures { IfOk result (AreLeft setting.now.iteration function (outcome_under setting.now function) agents.now) }
{
    run_all(alloc, program, setting, function, shared, agents)
}

/// What these agents leave, told by their memories, that run the function of this number one after another, under this
/// setting of the program (FLAME User Manual): all of them run, also where one faults, and of their faults that of the least
/// in content order is kept. The agents may stand in any order. The memories, the constants and the messages of the boards are
/// as wide as the model declares. `NoMemory` comes where none is found, and where 32 bits cannot number the function's inputs.
///
/// The views that no memory changes are made once, where there are two agents at least, and one room and one list of views
/// serve all. These keep their lists from agent to agent, however a run ends, also those into which views of an agent's own
/// have picked rows. So an agent takes memory for long rows, those of the messages and births that it makes, of the memory
/// that it leaves and of that of a fault that is kept, for a list that is not there yet or has too little room, and for each
/// call of a helper for which the cells that are left do not suffice; a sort of picked rows takes none.
pub fn run_agents(
    alloc: Global,
    program: &Program,
    setting: &Setting<'_>,
    function: u32,
    agents: &[Row],
) -> Result<Leaving, NoMemory>
    requires source { setting.now.source.now ≡ program.now }
    requires fits { All (λ memory. FitsFunction program.now.model function setting.now memory) agents.now }
    ensures { IfOk result (AreLeft setting.now.iteration function (outcome_under setting.now function) agents.now) }
{
    let shared = SharedViews::of(alloc, program, setting.boards, function, agents.len())?;
    run_over(alloc, program, setting, function, &shared, agents)
}
