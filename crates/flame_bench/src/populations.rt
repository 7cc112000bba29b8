//! Writes and reads a large population, so that both can be timed beside serde_json's own reading.
//!
//! The words are how many agents there are, `1` or `2` for the version, and the last step that is made: `text`, `value` or
//! `start`. It prints what each step gives and the processor time that it took. Without words there are 1000 agents in
//! version 1, all steps are made, and no time is printed.

mod drawn;
mod orders;
mod steps;

use crate::programs::measure_program;
use drawn::{cases_of_agents, world_of};
use flame_program::Program;
use orders::{Order, SMALL, order_of};
use std::io;
use std::time::CpuClock;
use steps::write_and_read;

/// Makes the steps of the order. Tells whether it could.
fn follow(
    rt: &(impl Print + CpuClock + AllocGlobal),
    program: &Program,
    order: Order,
) -> io::Result<bool> {
    match world_of(rt.alloc(), order.agents) {
        Ok(world) => write_and_read(rt, program, &world, order),
        Err(_) => Ok(false),
    }
}

/// The same for the program of the model of agents.
fn follow_all(rt: &(impl Print + CpuClock + AllocGlobal), order: Order) -> io::Result<bool> {
    let cases = cases_of_agents(rt.alloc())?;
    match cases.first() {
        Some(case) => measure_program(rt.alloc(), case, |program: &Program| -> io::Result<bool> {
            follow(rt, program, order)
        }),
        None => Ok(false),
    }
}

/// The order that the words give; none where they give no order.
fn order_in(words: &[String]) -> Option<Order> {
    match words {
        [] => Some(SMALL),
        [agents, format, until] => order_of(agents.as_str(), format.as_str(), until.as_str()),
        _ => None,
    }
}

/// Writes and reads the population that the words give. Tells whether it could.
pub(crate) fn measure_populations(
    rt: &(impl Print + CpuClock + AllocGlobal),
    words: &[String],
) -> io::Result<bool> {
    match order_in(words) {
        Some(order) => follow_all(rt, order),
        None => Ok(false),
    }
}
