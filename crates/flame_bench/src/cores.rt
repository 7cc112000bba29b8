//! Brings cores of many functions and pieces to their end, event by event, so that events can be timed.
//!
//! The words are how many functions there are, and how many agents of each, which are a piece each. It prints for two models
//! how many events came, what agents and messages there are at the end, the processor time, and how many events came a
//! second. Without words there are 20 functions of 3 agents, and no time is printed.

mod grids;
mod steps;
mod texts;

use crate::programs::measure_program;
use flame_case_files::Case;
use flame_program::Program;
use grids::Grid;
use std::io;
use std::time::CpuClock;
use steps::measure_world;
use texts::case_of;

/// How many functions there are, and how many agents of each.
#[derive(Clone, Copy)]
struct Order {
    functions: u32,
    agents: u32,
    with_time: bool,
}

/// What is made without words.
const SMALL: Order = Order {
    functions: 20,
    agents: 3,
    with_time: false,
};

/// Brings the core of this program to its end, which the case is of. Tells whether it could.
fn measure_core(
    rt: &(impl Print + CpuClock + AllocGlobal),
    case: &Case,
    program: &Program,
    grid: Grid,
    with_time: bool,
) -> io::Result<bool> {
    match measure_world(rt, case, program, grid) {
        Ok(Some(measured)) => {
            measured.print(rt, grid, with_time)?;
            Ok(true)
        }
        _ => Ok(false),
    }
}

/// The same of the grid.
fn measure(
    rt: &(impl Print + CpuClock + AllocGlobal),
    name: &str,
    grid: Grid,
    with_time: bool,
) -> io::Result<bool> {
    print!(rt; "{name}: ")?;
    let case = case_of(rt.alloc(), grid)?;
    measure_program(rt.alloc(), &case, |program: &Program| -> io::Result<bool> {
        measure_core(rt, &case, program, grid, with_time)
    })
}

/// The order that the words give; none where they give no order.
fn order_in(words: &[String]) -> Option<Order> {
    match words {
        [] => Some(SMALL),
        [functions, agents] => Some(Order {
            functions: functions.parse::<u32>().ok()?,
            agents: agents.parse::<u32>().ok()?,
            with_time: true,
        }),
        _ => None,
    }
}

/// Brings the cores of the two models that the words give to their ends. Tells whether it could.
pub(crate) fn measure_cores(
    rt: &(impl Print + CpuClock + AllocGlobal),
    words: &[String],
) -> io::Result<bool> {
    let Some(order) = order_in(words) else {
        return Ok(false);
    };
    let wide = Grid::wide(order.functions, order.agents);
    let deep = Grid::deep(order.functions, order.agents);
    Ok(measure(rt, "wide", wide, order.with_time)? && measure(rt, "deep", deep, order.with_time)?)
}
