//! Lines that name pieces: `0 1 [5] [6]` is the piece of number 1 of function 0 that has these agents.

use flame_case_files::{Case, numbers_in};
use flame_rows::{Bag, NoMemory, Row};
use flame_world::Piece;
use std::alloc::Global;

/// The number that begins these words, and those behind it.
pub(crate) fn number_first(words: &str) -> Option<(u32, &str)> {
    let (number, rest) = words.split_once(' ').unwrap_or((words, ""));
    Some((number.parse::<u32>().ok()?, rest))
}

/// The rows between brackets, as `[1, 2] [3, 4]`, on one line or on more.
pub(crate) fn bag_in(alloc: Global, text: &str) -> Result<Bag, NoMemory> {
    let mut rows = Vec::new(alloc);
    for part in text.split(']') {
        if let Some((_before, row)) = part.split_once('[') {
            rows.push(Row::of(numbers_in(alloc, row)?))?;
        }
    }
    Bag::of_rows(rows)
}

/// The piece that these words name; none where they name none.
pub(crate) fn piece_in(alloc: Global, words: &str) -> Result<Option<Piece>, NoMemory> {
    let Some((function, rest)) = number_first(words) else {
        return Ok(None);
    };
    let Some((number, rest)) = number_first(rest) else {
        return Ok(None);
    };
    let agents = bag_in(alloc, rest)?;
    Ok(Some(Piece {
        function,
        number,
        agents,
    }))
}

/// The pieces that the lines of the section `pieces` name.
pub(crate) fn pieces_in(alloc: Global, case: &Case) -> Result<Vec<Piece>, NoMemory> {
    let mut pieces = Vec::new(alloc);
    for line in &case.lines(alloc, "pieces")? {
        if let Some(piece) = piece_in(alloc, line.as_str())? {
            pieces.push(piece)?;
        }
    }
    Ok(pieces)
}
