//! Boards that cases give.

use flame_case_files::{Case, numbers_in};
use flame_rows::{Bag, NoMemory, Row, Seq};
use flame_spec::Model;
use flame_world::Boards;
use std::alloc::Global;

/// What stands between the outer brackets.
fn inside(text: &str) -> &str {
    let text = text.trim();
    let text = text.strip_prefix("[").unwrap_or(text);
    text.strip_suffix("]").unwrap_or(text)
}

/// The board of the rows between brackets, as `[[1, 2], [3, 4]]`; a row may be empty.
fn board_in(alloc: Global, text: &str) -> Result<Bag, NoMemory> {
    let mut rows = Vec::new(alloc);
    for part in inside(text).split(']') {
        if let Some((_before, row)) = part.split_once('[') {
            rows.push(Row::of(numbers_in(alloc, row)?))?;
        }
    }
    Bag::of_rows(rows)
}

/// A board for each message of the model: that of its line in the section `boards`, and an empty one where it has none.
pub(crate) fn boards_in(alloc: Global, case: &Case, model: &Model) -> Result<Boards, NoMemory> {
    let lines = case.lines(alloc, "boards")?;
    let mut boards = Vec::new(alloc);
    for number in 0..model.messages.len() {
        let line = match lines.get(number) {
            Some(line) => line.as_str(),
            None => "",
        };
        boards.push(board_in(alloc, line)?)?;
    }
    Ok(Boards {
        boards: Seq::of(boards),
    })
}
