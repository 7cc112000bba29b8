//! How a core begins.

ghost use Rattle.std.specs.Prelude.{◌≡◌, ◌↔◌, ℕ, ℤ, List, false, IfOk, IsTrue, length, replicate};
ghost use Rattle.flame_spec.specs.Before.{before, function_count};
ghost use Rattle.flame_spec.specs.Below.{is_in};
ghost use Rattle.flame_spec.specs.Counted.{is_counted};
ghost use Rattle.flame_world.specs.WorldFits.{FitTypes};
ghost use Rattle.flame_events.specs.CoreStates.{opening_core};
ghost use Rattle.flame_events.specs.LegalEvents.{inputs_of, outputs_of};
ghost use Rattle.flame_pieces.specs.FreeThings.{Tells};
ghost use Rattle.flame_field.specs.KeptPools.{AreDealt};
ghost use Rattle.flame_core.specs.KeptStarts.{SameStart};
ghost use Rattle.flame_progress.specs.KeptCores.{core_of, HasOutputsAt};

use flame_depend::edges;
use flame_pieces::{Status, Waits};
use flame_program::Program;
use flame_progress::{Counts, Progress, tell_waiters, wait_for};
use flame_round::opened;
use flame_rows::{Bag, NoMemory, Same, Seq};
use flame_world::World;
use std::alloc::Global;

/// Whether both have the same constants and the same agents.
fn same_world(one: &World, two: &World) -> bool
    ensures { IsTrue result ↔ (one.now ≡ two.now) }
{
    one.constants.same(&two.constants) && one.agents.same(&two.agents)
}

/// With what an iteration begins.
#[derive(Clone, Copy)]
pub(crate) struct Start<'a> {
    pub program: &'a Program,
    pub world: &'a World,
    pub iteration: i32,
    pub fuel: u32,
    pub pieces: u32,
}

impl Start<'_> {
    /// Whether both are equal, programs being equal where their sources are.
    pub(crate) fn same(&self, other: &Start<'_>) -> bool
        ensures { IsTrue result ↔ SameStart self.now other.now }
    {
        self.program.same(other.program)
            && same_world(self.world, other.world)
            && self.iteration == other.iteration
            && self.fuel == other.fuel
            && self.pieces == other.pieces
    }
}

/// `functions` functions, all of which wait.
fn all_waiting(alloc: Global, functions: usize) -> Result<Vec<Status>, NoMemory>
    ensures statuses { IfOk result (λ statuses. statuses.items ≡ replicate functions Status.Waiting) }
{
    let mut statuses = Vec::new(alloc);
    for _function in 0..functions {
        statuses.push(Status::Waiting)?;
    }
    Ok(statuses)
}

/// An iteration begins: functions wait, boards gather, and these agents rest in their start states.
pub(crate) fn begun(
    alloc: Global,
    program: &Program,
    agents: Seq<Bag>,
) -> Result<Progress, NoMemory>
    requires { FitTypes program.now.model agents }
    ensures core { IfOk result (λ progress. core_of progress ≡ opening_core program.now.model agents) }
    ensures outputs { IfOk result (λ progress. (function : ℕ) (outputs : List ℕ) → HasOutputsAt progress function outputs) }
    ensures dealt { IfOk result (λ progress. (choose : ℕ → ℕ → List ℤ → ℕ) → AreDealt choose progress.field.pools) }
{
    let statuses = all_waiting(alloc, program.functions())?;
    let field = opened(alloc, program, agents)?;
    Ok(Progress { statuses, field })
}

/// Functions wait for those that stand before them.
fn functions_counted(alloc: Global, program: &Program) -> Result<Waits, NoMemory>
    requires { IsTrue (is_counted program.now.model) }
    ensures { IfOk result (Tells (function_count program.now.model) (function_count program.now.model)
        (before program.now.model) (λ function. false)) }
{
    let count = program.functions();
    let edges = edges(alloc, &program.source().model)?;
    let mut waits = Waits::new(alloc, count, count)?;
    for edge in edges.items() {
        waits.add(edge.before, edge.after)?;
    }
    Ok(waits)
}

/// Functions wait for the boards of their inputs.
fn inputs_counted(alloc: Global, program: &Program) -> Result<Waits, NoMemory>
    requires { IsTrue (is_counted program.now.model) }
    ensures { IfOk result (Tells (length program.now.model.messages) (function_count program.now.model)
        (λ message function. is_in message (inputs_of program.now.model function)) (λ message. false)) }
{
    let messages = program.source().model.messages.len();
    let mut waits = Waits::new(alloc, messages, program.functions())?;
    let mut function: u32 = 0;
    for route in program.routes().routes.items() {
        wait_for(&mut waits, route.inputs.items(), function)?;
        function += 1;
    }
    Ok(waits)
}

/// Boards wait for the functions that output their messages.
fn outputs_counted(alloc: Global, program: &Program) -> Result<Waits, NoMemory>
    requires { IsTrue (is_counted program.now.model) }
    ensures { IfOk result (Tells (function_count program.now.model) (length program.now.model.messages)
        (λ function message. is_in message (outputs_of program.now.model function)) (λ function. false)) }
{
    let messages = program.source().model.messages.len();
    let mut waits = Waits::new(alloc, program.functions(), messages)?;
    let mut function: u32 = 0;
    for route in program.routes().routes.items() {
        tell_waiters(&mut waits, function, route.outputs.items())?;
        function += 1;
    }
    Ok(waits)
}

/// What functions and boards wait for, where nothing is done.
pub(crate) fn counted(alloc: Global, program: &Program) -> Result<Counts, NoMemory>
    requires { IsTrue (is_counted program.now.model) }
    ensures functions { IfOk result (λ counts. Tells (function_count program.now.model) (function_count program.now.model)
        (before program.now.model) (λ function. false) counts.functions) }
    ensures inputs { IfOk result (λ counts. Tells (length program.now.model.messages) (function_count program.now.model)
        (λ message function. is_in message (inputs_of program.now.model function)) (λ message. false) counts.inputs) }
    ensures outputs { IfOk result (λ counts. Tells (function_count program.now.model) (length program.now.model.messages)
        (λ function message. is_in message (outputs_of program.now.model function)) (λ function. false) counts.outputs) }
{
    let functions = functions_counted(alloc, program)?;
    let inputs = inputs_counted(alloc, program)?;
    let outputs = outputs_counted(alloc, program)?;
    Ok(Counts {
        functions,
        inputs,
        outputs,
    })
}
