//! What starts answer to cases: the population file is `p.json`, and the section `turns` has how many iterations are to
//! follow. The answer is `start iteration I agents A`, or the line of the refusal or of the failed read.

use crate::lines::text_of;
use flame_load::{StartFail, start};
use flame_outside::MemDepot;
use flame_popfile::Start;
use flame_program::Program;
use flame_report::{file_text, pop_text};
use flame_rows::{Blob, NoMemory};
use flame_world::World;
use std::alloc::Global;

/// The name of the population file.
const POPULATION: &str = "p.json";

/// The line of why there is no start.
fn fail_line(alloc: Global, fail: &StartFail) -> Result<Blob, NoMemory> {
    match fail {
        StartFail::Missing => file_text(alloc, "missing", POPULATION),
        StartFail::TooLarge => file_text(alloc, "too large", POPULATION),
        StartFail::NotJson => file_text(alloc, "not JSON", POPULATION),
        StartFail::Pop(fault) => pop_text(alloc, POPULATION, fault),
        StartFail::ReadFault => file_text(alloc, "read fault", POPULATION),
        StartFail::NoMemory => Err(NoMemory),
    }
}

/// The same, as a text.
fn refused(alloc: Global, fail: &StartFail) -> Result<String, NoMemory> {
    text_of(alloc, &fail_line(alloc, fail)?)
}

/// How many agents there are.
fn agents_in(world: &World) -> u64 {
    let mut agents = 0_u64;
    for bag in world.agents.items() {
        agents = agents.saturating_add(bag.rows().len() as u64);
    }
    agents
}

/// What is told of a start.
fn begun(alloc: Global, start: &Start) -> Result<String, NoMemory> {
    let itno = start.itno;
    let agents = agents_in(&start.world);
    let mut text = String::from_str(alloc, "start iteration ")?;
    writeln!(text, "{itno} agents {agents}")?;
    Ok(text)
}

/// What is answered of the start that so many iterations are to follow.
pub(crate) fn started(
    alloc: Global,
    depot: &mut MemDepot,
    program: &Program,
    turns: u32,
) -> Result<String, NoMemory> {
    match start(alloc, depot, POPULATION, program, turns) {
        Ok(start) => begun(alloc, &start),
        Err(fail) => refused(alloc, &fail),
    }
}
