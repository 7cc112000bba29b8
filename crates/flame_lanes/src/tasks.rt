//! The agents of the functions of a layer, in pieces.

ghost use Rattle.std.specs.Prelude.{◌≡◌, ◌++◌, ◌≤◌, IfOk, OnOk};
ghost use Rattle.flame_rows.specs.Cuts.{cut};
ghost use Rattle.flame_lanes.specs.LaneTasks.{tasks_of};

use flame_rows::{NoMemory, Row, Seq, number};
use std::alloc::Global;

/// Some of the agents that take a function of a layer, which one worker runs.
#[derive(Debug, Drop)]
pub struct Task {
    /// The place of the function among those of the layer.
    pub place: usize,
    /// Its number, in document order.
    pub function: u32,
    /// The number of the piece among those of the function.
    pub number: u32,
    /// The agents, in any order.
    pub agents: Seq<Row>,
}

/// The rows in at most so many runs, in the order in which they stand: all as long as an equal share is, rounded up, but the
/// last, which may be shorter. Where there are no rows there is no run. The last run is cut off first, so that each row is moved
/// once at most, and those of the first run stay where they are.
fn cut_rows(alloc: Global, rows: Vec<Row>, pieces: u32) -> Result<Vec<Seq<Row>>, NoMemory>
    requires { 1 ≤ pieces }
    ensures { IfOk result (λ runs. runs.items ≡ cut pieces rows.items) }
{
    let mut runs = Vec::new(alloc);
    let Some(others) = rows.len().checked_sub(1) else {
        return Ok(runs);
    };
    let size = others / (pieces as usize) + 1;
    let mut rest = rows;
    while rest.len() > size {
        let at = (rest.len() - 1) / size * size;
        let run = rest.split_off(at)?;
        runs.push(Seq::of(run))?;
    }
    runs.push(Seq::of(rest))?;
    runs.reverse();
    Ok(runs)
}

/// The agents that take the function of this place and number, in at most so many tasks, which come behind the others.
pub fn add_tasks(
    alloc: Global,
    tasks: &mut Vec<Task>,
    place: usize,
    function: u32,
    takers: Vec<Row>,
    pieces: u32,
) -> Result<(), NoMemory>
    requires { 1 ≤ pieces }
    ensures { OnOk result (tasks.new.items ≡ tasks.old.items ++ tasks_of place function (cut pieces takers.items)) }
{
    let first = tasks.len();
    for agents in cut_rows(alloc, takers, pieces)? {
        let number = number(tasks.len() - first)?;
        tasks.push(Task {
            place,
            function,
            number,
            agents,
        })?;
    }
    Ok(())
}
