//! Numbers, rows and boards that cases give.

use crate::case::Case;
use flame_rows::{Bag, Row, Seq};
use std::alloc::{AllocError, Global};

/// The numbers between commas, whatever brackets and blanks stand round them.
pub fn numbers_in(alloc: Global, text: &str) -> Result<Vec<i32>, AllocError> {
    let mut numbers = Vec::new(alloc);
    for part in text.split(',') {
        let number = part.trim_matches(|c: char| -> bool { c == '[' || c == ']' || c == ' ' });
        if let Ok(number) = number.parse::<i32>() {
            numbers.push(number)?;
        }
    }
    Ok(numbers)
}

/// The board of the rows between brackets.
fn board_in(alloc: Global, text: &str) -> Result<Bag, AllocError> {
    let mut rows = Vec::new(alloc);
    for part in text.split(']') {
        let row = numbers_in(alloc, part)?;
        if !row.is_empty() {
            rows.push(Row::of(row))?;
        }
    }
    Bag::of_rows(rows).map_err(|_| -> AllocError { AllocError })
}

/// The boards of the lines `board [[1, 2], [3, 4]]` of the section `given`, in order.
pub fn boards_in(alloc: Global, case: &Case) -> Result<Seq<Bag>, AllocError> {
    let mut boards = Vec::new(alloc);
    for line in case.text("given").split('\n') {
        if let Some(rest) = line.strip_prefix("board ") {
            boards.push(board_in(alloc, rest)?)?;
        }
    }
    Ok(Seq::of(boards))
}
