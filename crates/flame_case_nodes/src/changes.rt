//! Under what pieces are run: the lines `constants [3]`, `iteration 4`, `fuel 7` and, for each input of the function, `board [[5],
//! [6]]` of the section `given`. The words behind `under` in the line of a share say one part of it otherwise: `constants [3]`,
//! `iteration 4`, `fuel 7` or `board 0 [5] [6]`, the messages that the input of this number reads.

use crate::readings::{bag_in, number_first};
use flame_case_files::{Case, boards_in, numbers_in};
use flame_index::Frozen;
use flame_rows::{Bag, NoMemory, Row, Seq};
use std::alloc::Global;
use std::sync::Arc;

/// Under what a piece is run.
#[derive(Drop)]
pub(crate) struct Under {
    /// The constants, in the order of the model.
    pub constants: Row,
    /// The board of each input of the function.
    pub boards: Seq<Arc<Frozen>>,
    /// The number of the iteration.
    pub iteration: i32,
    /// The fuel of each agent.
    pub fuel: u32,
}

/// What stands behind this name in the words that change something, and else in the case.
fn said<'a>(case: &'a Case, changed: &'a str, name: &str) -> &'a str {
    match changed.strip_prefix(name) {
        Some(rest) => rest,
        None => case.given(name),
    }
}

/// The number of the board that these words change, and its messages; none where they change none.
fn board_changed(changed: &str) -> Option<(u32, &str)> {
    number_first(changed.strip_prefix("board ")?)
}

/// The boards of the case, but for the one that these words change.
fn boards_said(alloc: Global, case: &Case, changed: &str) -> Result<Vec<Bag>, NoMemory> {
    let mut boards = boards_in(alloc, case)?.into_items();
    if let Some((input, rows)) = board_changed(changed) {
        let rows = bag_in(alloc, rows)?;
        if let Some(board) = boards.get_mut(input as usize) {
            *board = rows;
        }
    }
    Ok(boards)
}

/// The board, with an index of the column of this number as a mark, where one is given.
fn marked(alloc: Global, board: Bag, mark: Option<u32>) -> Result<Frozen, NoMemory> {
    let frozen = Frozen::of(board);
    match mark {
        Some(column) => frozen.with_index(alloc, column),
        None => Ok(frozen),
    }
}

/// These boards, to be read.
fn boards_marked(
    alloc: Global,
    boards: Vec<Bag>,
    mark: Option<u32>,
) -> Result<Seq<Arc<Frozen>>, NoMemory> {
    let mut read = Vec::new(alloc);
    for board in boards {
        read.push(Arc::new(alloc, marked(alloc, board, mark)?)?)?;
    }
    Ok(Seq::of(read))
}

/// Under what a piece is run by the case, but for what these words change, with this mark on each board: iteration 1 and fuel
/// 1000000 where neither gives them.
pub(crate) fn under_in(
    alloc: Global,
    case: &Case,
    changed: &str,
    mark: Option<u32>,
) -> Result<Under, NoMemory> {
    let boards = boards_said(alloc, case, changed)?;
    let boards = boards_marked(alloc, boards, mark)?;
    let constants = numbers_in(alloc, said(case, changed, "constants "))?;
    Ok(Under {
        constants: Row::of(constants),
        boards,
        iteration: said(case, changed, "iteration ")
            .parse::<i32>()
            .unwrap_or(1),
        fuel: said(case, changed, "fuel ")
            .parse::<u32>()
            .unwrap_or(1000000),
    })
}
