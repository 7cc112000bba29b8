//! Events that are timed.

ghost use Rattle.std.specs.Prelude.{◌≤◌};
ghost use Rattle.flame_world.specs.WorldFits.{FitsModel};

use crate::cores::grids::Grid;
use flame_case_files::Case;
use flame_case_runs::{fits, world_in};
use flame_core::{Core, StepFault};
use flame_events::Event;
use flame_program::Program;
use flame_rows::{Bag, NoMemory};
use flame_world::{Turn, World};
use std::io;
use std::time::{CpuClock, Duration};

/// What was done, and the processor time that it took.
#[derive(Clone, Copy)]
pub(crate) struct Measured {
    events: u64,
    agents: u64,
    messages: u64,
    beginning: Duration,
    stepping: Duration,
}

impl Measured {
    /// Prints what was done, and where asked for the times.
    pub(crate) fn print(
        self,
        rt: &(impl Print + AllocGlobal),
        grid: Grid,
        with_time: bool,
    ) -> io::Result<()> {
        let functions = grid.functions();
        let pieces = functions.saturating_mul(grid.agents as u64);
        print!(rt; "{functions} functions, {pieces} pieces, ")?;
        print!(rt; "{} events, ", self.events)?;
        print!(rt; "{} agents, {} messages", self.agents, self.messages)?;
        if with_time {
            self.print_times(rt)?;
        }
        println!(rt; "")
    }

    fn print_times(self, rt: &impl Print) -> io::Result<()> {
        let microseconds = self.stepping.as_micros().max(1);
        let speed = (self.events as u128).saturating_mul(1000000) / microseconds;
        print!(rt; "; begun in {} milliseconds, ", self.beginning.as_millis())?;
        print!(rt; "events in {} milliseconds, ", self.stepping.as_millis())?;
        print!(rt; "{speed} events a second")
    }
}

/// All events come. Tells whether each was legal.
fn step_all(core: &mut Core<'_>, events: &[Event]) -> Result<bool, NoMemory> {
    for event in events {
        match core.step(*event) {
            Ok(()) => {}
            Err(StepFault::Illegal) => return Ok(false),
            Err(StepFault::NoMemory) => return Err(NoMemory),
        }
    }
    Ok(true)
}

/// How many rows there are.
fn rows_in(bags: &[Bag]) -> u64 {
    let mut rows = 0_u64;
    for bag in bags {
        rows = rows.saturating_add(bag.rows().len() as u64);
    }
    rows
}

/// How many agents and messages the iteration comes to; none where it comes to a fault.
fn counted(turn: &Turn) -> Option<(u64, u64)> {
    match turn {
        Turn::Done(world, boards) => Some((
            rows_in(world.agents.items()),
            rows_in(boards.boards.items()),
        )),
        Turn::Faulted(_) => None,
    }
}

/// How many agents and messages there are at the end; none where there is no end, or a fault.
fn end_of(core: Core<'_>) -> Result<Option<(u64, u64)>, NoMemory> {
    if !core.complete() {
        return Ok(None);
    }
    let turn = core.finish()?;
    Ok(counted(&turn))
}

/// The time since then, where the clock can be read.
fn since(rt: &impl CpuClock, begun: Duration) -> Option<Duration> {
    match rt.process_cpu_time() {
        Ok(now) => Some(now.saturating_sub(begun)),
        Err(_) => None,
    }
}

/// The processor times of a core's beginning and of its steps.
#[derive(Clone, Copy)]
struct Times {
    beginning: Duration,
    stepping: Duration,
}

/// Brings the core to its end that was begun then. None where an event is not legal or the clock cannot be read.
fn times_of(
    rt: &impl CpuClock,
    core: &mut Core<'_>,
    events: &[Event],
    start: Duration,
) -> Result<Option<Times>, NoMemory> {
    let Some(beginning) = since(rt, start) else {
        return Ok(None);
    };
    if !step_all(core, events)? {
        return Ok(None);
    }
    match since(rt, start) {
        Some(end) => Ok(Some(Times {
            beginning,
            stepping: end.saturating_sub(beginning),
        })),
        None => Ok(None),
    }
}

/// What was done to this core, by so many events, in these times.
fn measured_of(core: Core<'_>, events: usize, times: Times) -> Result<Option<Measured>, NoMemory> {
    match end_of(core)? {
        Some((agents, messages)) => Ok(Some(Measured {
            events: events as u64,
            agents,
            messages,
            beginning: times.beginning,
            stepping: times.stepping,
        })),
        None => Ok(None),
    }
}

/// Brings the core to its end that was begun then. None where an event is not legal, the core is not complete behind all, or the
/// clock cannot be read.
fn measure_steps(
    rt: &impl CpuClock,
    mut core: Core<'_>,
    events: &[Event],
    start: Duration,
) -> Result<Option<Measured>, NoMemory> {
    match times_of(rt, &mut core, events, start)? {
        Some(times) => measured_of(core, events.len(), times),
        None => Ok(None),
    }
}

/// The same of the core that begins with this world.
fn measure_core(
    rt: &(impl CpuClock + AllocGlobal),
    program: &Program,
    world: World,
    grid: Grid,
    events: &[Event],
) -> Result<Option<Measured>, NoMemory>
    requires fits { FitsModel program.now.model world }
    requires some { 1 ≤ grid.agents }
{
    match since(rt, Duration::ZERO) {
        Some(start) => {
            let core = Core::new(rt.alloc(), program, world, 1, 1000, grid.agents)?;
            measure_steps(rt, core, events, start)
        }
        None => Ok(None),
    }
}

/// The same, where the world fits.
fn measure_fitting(
    rt: &(impl CpuClock + AllocGlobal),
    program: &Program,
    world: World,
    grid: Grid,
    events: &[Event],
) -> Result<Option<Measured>, NoMemory>
    requires some { 1 ≤ grid.agents }
{
    if fits(&program.source().model, &world)? {
        return measure_core(rt, program, world, grid, events);
    }
    Ok(None)
}

/// The same of the world that the case gives.
pub(crate) fn measure_world(
    rt: &(impl CpuClock + AllocGlobal),
    case: &Case,
    program: &Program,
    grid: Grid,
) -> Result<Option<Measured>, NoMemory> {
    if grid.agents == 0 {
        return Ok(None);
    }
    let events = grid.events(rt.alloc())?;
    let world = world_in(rt.alloc(), case, &program.source().model)?;
    measure_fitting(rt, program, world, grid, events.as_slice())
}
