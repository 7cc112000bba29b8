//! The runner by workers that share a flow.

ghost use Rattle.std.specs.Prelude.{◌≡◌, ◌≤◌, ℕ, IfOk, IsTrue, true};
ghost use Rattle.flame_world.specs.Iterations.{iteration as meant, round_of};
ghost use Rattle.flame_world.specs.WorldFits.{FitsModel};
ghost use Rattle.flame_events.specs.CoreEnds.{is_complete};
ghost use Rattle.flame_events.specs.CoreStates.{opening_core};
ghost use Rattle.flame_events.specs.EventSteps.{are_legal, replay};
ghost use Rattle.flame_flowrun.specs.FlowRecords.{IsRecordOf};

use crate::desks::{Desk, worker};
use crate::held::{Held, Origin};
use flame_core::Recorded;
use flame_outside::Gate;
use flame_program::Program;
use flame_rows::NoMemory;
use flame_world::{Turn, World};
use std::alloc::Global;
use std::marker::{Brand, Model};
use std::sync::Wait;
use std::thread;
use std::thread::Threads;

/// How many agents there are in the world, but no more than so many.
fn count_agents(world: &World, most: u32) -> u32 {
    let mut left = most;
    for bag in world.agents.items() {
        match u32::try_from(bag.rows().len()) {
            Ok(count) => left = left.saturating_sub(count),
            Err(_) => return most,
        }
    }
    most - left
}

/// `workers` workers at the desk, of which the caller is one, and the caller at least. Where a thread cannot be made, the
/// others do its work.
fn team<K: Origin + Send + Sync, G: Gate, R: Threads + Wait + Sync>(
    rt: &R,
    gate: &G,
    desk: &Desk<'_, K>,
    workers: u32,
) {
    thread::scope(thread::scope_env(), rt, |scope| {
        for _ in 1..workers {
            let _started = scope.spawn(move || worker(rt, gate, desk)).is_ok();
        }
        worker(rt, gate, desk);
    });
}

/// The flow of the iteration of this origin, once the workers ended. There are no more of them than agents in the world, and
/// the caller alone where nothing is left to do.
fn flow_of<'p, K: Origin + Send + Sync, G: Gate, R: Threads + Wait + Sync>(
    rt: &R,
    runner: &FlowRunner<'_, G>,
    alloc: Global,
    program: &'p Program,
    world: World,
    iteration: i32,
    fuel: u32,
) -> Result<Held<'p, K>, NoMemory>
    requires fits { FitsModel program.now.model world }
    requires origin { record { source = program.now; world = world; iteration = iteration; fuel = fuel; pieces = runner.now }
        ≡ K.start }
{
    let agents = count_agents(&world, runner.workers);
    let desk = Desk::<K>::new(alloc, program, world, iteration, fuel, runner.workers)?;
    let workers = if desk.is_done(rt) { 1 } else { agents };
    team(rt, runner.gate, &desk, workers);
    Ok(desk.into_flow())
}

/// The iteration of this origin.
fn run_as<K: Origin + Send + Sync, G: Gate, R: Threads + Wait + Sync>(
    rt: &R,
    runner: &FlowRunner<'_, G>,
    alloc: Global,
    program: &Program,
    world: World,
    iteration: i32,
    fuel: u32,
) -> Result<Turn, NoMemory>
    requires fits { FitsModel program.now.model world }
    requires origin { record { source = program.now; world = world; iteration = iteration; fuel = fuel; pieces = runner.now }
        ≡ K.start }
    ensures { IfOk result (λ turn. turn ≡ meant K.start.source K.start.world K.start.iteration K.start.fuel) }
{
    let flow = flow_of::<K, G, R>(rt, runner, alloc, program, world, iteration, fuel)?;
    flow.finish()
}

/// The same, with the events that came to it.
fn record_as<K: Origin + Send + Sync, G: Gate, R: Threads + Wait + Sync>(
    rt: &R,
    runner: &FlowRunner<'_, G>,
    alloc: Global,
    program: &Program,
    world: World,
    iteration: i32,
    fuel: u32,
) -> Result<Recorded, NoMemory>
    requires fits { FitsModel program.now.model world }
    requires origin { record { source = program.now; world = world; iteration = iteration; fuel = fuel; pieces = runner.now }
        ≡ K.start }
    ensures { IfOk result (IsRecordOf K.start) }
{
    let flow = flow_of::<K, G, R>(rt, runner, alloc, program, world, iteration, fuel)?;
    flow.finish_recorded(alloc)
}

/// Runs iterations by so many workers that share a flow, of which the caller is one: a function runs as soon as all that stand
/// before it are done, whatever its layer. Each worker passes the gate just before it runs a piece. It is seen as the number
/// of its workers.
#[derive(Drop)]
pub struct FlowRunner<'g, G: Gate> {
    gate: &'g G,
    workers: u32,
}

impl<'g, G: Gate> Model for FlowRunner<'g, G> {
    ghost Value = { ℕ };

    ghost view = { λ r. r.workers };

    ghost invariant = { λ r. 1 ≤ r.workers };
}

impl<'g, G: Gate> FlowRunner<'g, G> {
    /// A runner with so many workers, one at least, which pass this gate.
    pub fn new(gate: &'g G, workers: u32) -> FlowRunner<'g, G>
        requires { 1 ≤ workers }
        ensures { result ≡ workers }
    {
        FlowRunner { gate, workers }
    }

    /// The iteration of this number of a world, with this fuel for each call of a function (FLAME User Manual): the world and
    /// the boards at its end, or its fault, whatever the workers do and in whatever order. The world has a value for each
    /// constant of the model, and for each agent type agents as wide as it declares. Where a thread cannot be made, the
    /// others do its work. `NoMemory` where memory is not found, and where 32 bits cannot number the parts of the model.
    pub fn iterate<R: Threads + Wait + Sync>(
        &self,
        rt: &R,
        alloc: Global,
        program: &Program,
        world: World,
        iteration: i32,
        fuel: u32,
    ) -> Result<Turn, NoMemory>
        requires { FitsModel program.now.model world }
        ensures { IfOk result (λ turn. turn ≡ meant program.now world iteration fuel) }
    {
        run_as::<Brand, G, R>(rt, self, alloc, program, world, iteration, fuel)
    }

    /// The same with the history of the flow that the workers shared: the events of a core, each legal when it came, from the
    /// one with which the iteration begins, where functions are cut into as many pieces as there are workers, to one that is
    /// complete. Which of the possible histories it is depends on what the workers did.
    pub fn recorded<R: Threads + Wait + Sync>(
        &self,
        rt: &R,
        alloc: Global,
        program: &Program,
        world: World,
        iteration: i32,
        fuel: u32,
    ) -> Result<Recorded, NoMemory>
        requires { FitsModel program.now.model world }
        ensures turn { IfOk result (λ recorded. recorded.turn ≡ meant program.now world iteration fuel) }
        ensures legal { IfOk result (λ recorded. IsTrue (are_legal (round_of program.now world iteration fuel) self.now
            (opening_core program.now.model world.agents) recorded.events)) }
        ensures complete { IfOk result (λ recorded. is_complete program.now.model
            (replay (round_of program.now world iteration fuel) self.now (opening_core program.now.model world.agents)
            recorded.events) ≡ true) }
    {
        record_as::<Brand, G, R>(rt, self, alloc, program, world, iteration, fuel)
    }
}
