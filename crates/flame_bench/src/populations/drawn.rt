//! A model of one agent type, and a world of it with drawn numbers.

use flame_case_files::{Case, read_cases};
use flame_rows::{Bag, NoMemory, Row, Seq};
use flame_world::World;
use std::alloc::{AllocError, Global};

/// A model of one agent type with three variables, as a case gives it.
const MODEL: &str = concat!(
    "case agents\nmodel\n",
    r#"|{"xmodel":{"agents":[{"name":"Agent","memory":["#,
    r#"{"type":"int","name":"x"},{"type":"int","name":"y"},{"type":"int","name":"z"}"#,
    r#"]}]}}"#,
    "\n----\n"
);

/// The cases of the model of agents, of which there is one.
pub(crate) fn cases_of_agents(alloc: Global) -> Result<Vec<Case>, AllocError> {
    read_cases(alloc, MODEL)
}

/// The state behind this one of a linear congruential generator.
fn next(state: u32) -> u32 {
    state.wrapping_mul(1664525).wrapping_add(1013904223)
}

/// The memory that is drawn from this state: numbers below 65536.
fn memory_of(alloc: Global, state: u32) -> Result<Row, NoMemory> {
    let mut values = Vec::new(alloc);
    let mut drawn = state;
    for _ in 0..3 {
        drawn = next(drawn);
        values.push((drawn >> 16) as i32)?;
    }
    Ok(Row::of(values))
}

/// A world of so many agents of one type.
pub(crate) fn world_of(alloc: Global, agents: u32) -> Result<World, NoMemory> {
    let mut memories = Vec::new(alloc);
    let mut state = 7;
    for _ in 0..agents {
        state = next(next(next(state)));
        memories.push(memory_of(alloc, state)?)?;
    }
    let mut types = Vec::new(alloc);
    types.push(Bag::of_rows(memories)?)?;
    Ok(World {
        constants: Row::of(Vec::new(alloc)),
        agents: Seq::of(types),
    })
}
