//! Worlds, from cases and as texts.

use flame_case_files::{Case, numbers_in};
use flame_rows::{Bag, NoMemory, Row, Seq};
use flame_spec::Model;
use flame_world::{Boards, SimFault, Turn, World};
use std::alloc::{AllocError, Global};

/// Adds the agent `0 [1, 2]` to the rows of its type, where there is one.
fn add_agent(alloc: Global, rows: &mut Vec<Vec<Row>>, agent: &str) -> Result<(), AllocError> {
    let Some((number, memory)) = agent.split_once(' ') else {
        return Ok(());
    };
    let Ok(number) = number.parse::<usize>() else {
        return Ok(());
    };
    if let Some(own) = rows.get_mut(number) {
        own.push(Row::of(numbers_in(alloc, memory)?))?;
    }
    Ok(())
}

/// No rows for each of so many types.
fn no_rows(alloc: Global, types: usize) -> Result<Vec<Vec<Row>>, AllocError> {
    let mut rows: Vec<Vec<Row>> = Vec::new(alloc);
    for _type in 0..types {
        rows.push(Vec::new(alloc))?;
    }
    Ok(rows)
}

/// The rows of the lines `agent 0 [1, 2]`, for each of so many types.
fn rows_in(alloc: Global, case: &Case, types: usize) -> Result<Vec<Vec<Row>>, AllocError> {
    let mut rows = no_rows(alloc, types)?;
    for line in case.text("given").split('\n') {
        if let Some(agent) = line.strip_prefix("agent ") {
            add_agent(alloc, &mut rows, agent)?;
        }
    }
    Ok(rows)
}

/// The bags of these rows.
fn bags_of(alloc: Global, rows: Vec<Vec<Row>>) -> Result<Vec<Bag>, NoMemory> {
    let mut bags = Vec::new(alloc);
    for rows in rows {
        bags.push(Bag::of_rows(rows)?)?;
    }
    Ok(bags)
}

/// The world that the case gives: the constants of the line `constants [1000]`, and an agent for each line `agent 0 [1, 2]`.
pub fn world_in(alloc: Global, case: &Case, model: &Model) -> Result<World, NoMemory> {
    let rows = rows_in(alloc, case, model.agents.len())?;
    let agents = bags_of(alloc, rows)?;
    let constants = Row::of(numbers_in(alloc, case.given("constants "))?);
    Ok(World {
        constants,
        agents: Seq::of(agents),
    })
}

/// Adds a line for each row of each bag, with this word and the number of the bag.
fn print_bags(out: &mut String, word: &str, bags: &[Bag]) -> Result<(), AllocError> {
    for (i, bag) in bags.iter().enumerate() {
        for row in bag.rows() {
            writeln!(out, "{word} {i} {:?}", row.values())?;
        }
    }
    Ok(())
}

fn print_end(out: &mut String, world: &World, boards: &Boards) -> Result<(), AllocError> {
    print_bags(out, "agent", world.agents.items())?;
    print_bags(out, "message", boards.boards.items())
}

fn print_fault(out: &mut String, fault: &SimFault) -> Result<(), AllocError> {
    let cause = fault.cause;
    writeln!(
        out,
        "iteration {} function {}: {cause:?} at line {}: {:?}",
        fault.iteration,
        fault.function,
        fault.line,
        fault.memory.values()
    )
}

/// Adds lines `agent 0 [1, 2]` and `message 0 [1]`, in the order of the model and in content order; or the fault, as
/// `iteration 1 function 0: Overflow at line 1: [2147483647]`.
pub(crate) fn print_turn(out: &mut String, turn: &Turn) -> Result<(), AllocError> {
    match turn {
        Turn::Done(world, boards) => print_end(out, world, boards),
        Turn::Faulted(fault) => print_fault(out, fault),
    }
}
