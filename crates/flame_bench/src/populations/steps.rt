//! The steps that are timed.

use crate::populations::orders::{Order, Until};
use flame_popfile::{population, text};
use flame_program::Program;
use flame_rows::{Blob, NoMemory, Seq};
use flame_world::{Boards, World};
use serde_json::Value;
use std::alloc::Global;
use std::io;
use std::time::{CpuClock, Duration};

/// Prints the processor time since then, where times are printed, and ends the line.
fn print_time(rt: &(impl Print + CpuClock), begun: Duration, order: Order) -> io::Result<()> {
    if order.timed {
        let taken = rt.process_cpu_time()?.saturating_sub(begun);
        print!(rt; "; {} milliseconds", taken.as_millis())?;
    }
    println!(rt; "")
}

/// The text of the world, without messages.
fn text_of(
    alloc: Global,
    program: &Program,
    world: &World,
    order: Order,
) -> Result<Blob, NoMemory> {
    let boards = Boards {
        boards: Seq::of(Vec::new(alloc)),
    };
    text(alloc, program, order.format, 0, world, &boards)
}

/// How many agents there are.
fn agents_in(world: &World) -> u64 {
    let mut agents = 0_u64;
    for bag in world.agents.items() {
        agents = agents.saturating_add(bag.rows().len() as u64);
    }
    agents
}

/// Reads the population that the value is. Tells whether it is one.
fn read_population(
    rt: &(impl Print + CpuClock + AllocGlobal),
    program: &Program,
    value: &Value,
    order: Order,
) -> io::Result<bool> {
    let begun = rt.process_cpu_time()?;
    let Ok(start) = population(rt.alloc(), value, program, 0) else {
        return Ok(false);
    };
    print!(rt; "population: {} agents", agents_in(&start.world))?;
    print_time(rt, begun, order)?;
    Ok(true)
}

/// Reads these bytes up to the last step. Tells whether they are a population.
fn read_back(
    rt: &(impl Print + CpuClock + AllocGlobal),
    program: &Program,
    bytes: &[u8],
    order: Order,
) -> io::Result<bool> {
    let begun = rt.process_cpu_time()?;
    let Ok(value) = Value::from_slice(rt.alloc(), bytes) else {
        return Ok(false);
    };
    print!(rt; "serde_json: a value")?;
    print_time(rt, begun, order)?;
    if order.until == Until::Value {
        return Ok(true);
    }
    read_population(rt, program, &value, order)
}

/// Writes the world, and reads what was written up to the last step. Tells whether it could.
pub(crate) fn write_and_read(
    rt: &(impl Print + CpuClock + AllocGlobal),
    program: &Program,
    world: &World,
    order: Order,
) -> io::Result<bool> {
    let begun = rt.process_cpu_time()?;
    let Ok(written) = text_of(rt.alloc(), program, world, order) else {
        return Ok(false);
    };
    print!(rt; "text: {} bytes", written.bytes().len())?;
    print_time(rt, begun, order)?;
    if order.until == Until::Text {
        return Ok(true);
    }
    read_back(rt, program, written.bytes(), order)
}
