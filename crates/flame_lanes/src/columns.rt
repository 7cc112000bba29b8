//! The lanes of a layer, by board and by worker.

ghost use Rattle.std.specs.Prelude.{◌≡◌, ◌<◌, [], IfOk, OnOk, length, map};
ghost use Rattle.std.specs.List.{All, flat_map};
ghost use Rattle.flame_lanes.specs.LaneColumns.{AreColumns, AreLongerBy, AreNone};

use crate::jobs::{Done, Job, Left};
use crate::tasks::Task;
use flame_board::Lane;
use flame_rows::{NoMemory, Seq};
use std::alloc::Global;

/// Takes the last lane of each column.
fn deal(alloc: Global, columns: &mut Vec<Vec<Lane>>) -> Result<Vec<Lane>, NoMemory>
    requires { All (λ column. 0 < length column.items) columns.old.items }
    ensures { IfOk result (λ row. AreLongerBy columns.new.items row.items columns.old.items) }
{
    let mut row = Vec::new(alloc);
    for place in 0..columns.len() {
        match columns[place].pop() {
            Some(lane) => row.push(lane)?,
            None => unreachable!(),
        }
    }
    Ok(row)
}

/// A job for each load of tasks, with a lane of each column; each column has as many lanes as there are loads.
pub fn jobs_of(
    alloc: Global,
    columns: Vec<Vec<Lane>>,
    loads: Vec<Vec<Task>>,
) -> Result<Vec<Job>, NoMemory>
    requires { All (λ column. length column.items ≡ length loads.items) columns.items }
    ensures lanes { IfOk result (λ jobs. AreColumns (map (λ job. job.lanes) jobs.items) columns.items) }
    ensures tasks { IfOk result (λ jobs. map (λ job. job.tasks) jobs.items ≡ map (λ load. load.items) loads.items) }
{
    let mut columns = columns;
    let mut jobs = Vec::new(alloc);
    for load in loads {
        let lanes = deal(alloc, &mut columns)?;
        jobs.push(Job {
            tasks: Seq::of(load),
            lanes: Seq::of(lanes),
        })?;
    }
    Ok(jobs)
}

/// `width` columns without lanes.
fn no_columns(alloc: Global, width: usize) -> Result<Vec<Vec<Lane>>, NoMemory>
    ensures none { IfOk result (λ columns. AreNone columns.items) }
    ensures width { IfOk result (λ columns. length columns.items ≡ width) }
{
    let mut columns = Vec::new(alloc);
    for _column in 0..width {
        columns.push(Vec::new(alloc))?;
    }
    Ok(columns)
}

/// Each column has a lane of the row more.
fn add_row(columns: &mut Vec<Vec<Lane>>, row: Vec<Lane>) -> Result<(), NoMemory>
    requires { length row.items ≡ length columns.old.items }
    ensures longer { OnOk result (AreLongerBy columns.old.items row.items columns.new.items) }
    ensures width { OnOk result (length columns.new.items ≡ length columns.old.items) }
{
    for (place, lane) in row.into_iter().enumerate() {
        columns[place].push(lane)?;
    }
    Ok(())
}

/// The columns, so many, that these rows make up.
fn columns_of(alloc: Global, width: usize, rows: Vec<Vec<Lane>>) -> Result<Vec<Vec<Lane>>, NoMemory>
    requires { All (λ row. length row.items ≡ width) rows.items }
    ensures columns { IfOk result (λ columns. AreColumns (map (λ row. row.items) rows.items) columns.items) }
    ensures width { IfOk result (λ columns. length columns.items ≡ width) }
{
    let mut rows = rows;
    let mut columns = no_columns(alloc, width)?;
    while let Some(row) = rows.pop() {
        add_row(&mut columns, row)?;
    }
    Ok(columns)
}

/// What all workers gave back: the columns of their lanes, and what agents left, job by job.
pub fn gathered(
    alloc: Global,
    width: usize,
    dones: Vec<Done>,
) -> Result<(Vec<Vec<Lane>>, Vec<Left>), NoMemory>
    requires { All (λ done. length done.lanes ≡ width) dones.items }
    ensures columns { IfOk result (λ all. AreColumns (map (λ done. done.lanes) dones.items) all.0.items) }
    ensures width { IfOk result (λ all. length all.0.items ≡ width) }
    ensures lefts { IfOk result (λ all. all.1.items ≡ flat_map (λ done. done.lefts) dones.items) }
{
    let mut rows = Vec::new(alloc);
    let mut lefts = Vec::new(alloc);
    for done in dones {
        let mut own = done.lefts.into_items();
        lefts.append(&mut own)?;
        rows.push(done.lanes.into_items())?;
    }
    Ok((columns_of(alloc, width, rows)?, lefts))
}
