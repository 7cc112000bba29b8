//! What the words behind a line of events change: `fuel 7`, `iteration 4`, `constants [3]`, `pieces 3`, `agents [5] [6]`, those
//! of a piece, `agent 0 [5] [6]`, those of a type, and `board 0 [5] [6]`, the messages that an input reads.

use flame_case_files::numbers_in;
use flame_rows::{Bag, NoMemory, Row};
use std::alloc::Global;

/// What is changed.
#[derive(Drop)]
pub(crate) enum Change {
    /// Nothing.
    Nothing,
    /// The fuel of each call of a function.
    Fuel(u32),
    /// The number of the iteration.
    Iteration(i32),
    /// The constants.
    Constants(Row),
    /// Into how many pieces the agents of a function are cut at most.
    Pieces(u32),
    /// The agents of a piece.
    Agents(Bag),
    /// The agents of the type of this number.
    OfType(u32, Bag),
    /// The messages of the board of the input of this number.
    Board(u32, Bag),
}

/// The number that begins these words, and those behind it.
fn number_first(words: &str) -> Option<(u32, &str)> {
    let (number, rest) = words.split_once(' ').unwrap_or((words, ""));
    Some((number.parse::<u32>().ok()?, rest))
}

/// The numbers of a function and of a piece of it that begin these words, and the change behind them; none where they are others.
pub(crate) fn share_in(alloc: Global, words: &str) -> Result<Option<(u32, u32, Change)>, NoMemory> {
    let Some((function, rest)) = number_first(words) else {
        return Ok(None);
    };
    let Some((piece, rest)) = number_first(rest) else {
        return Ok(None);
    };
    match change_in(alloc, rest)? {
        Some(change) => Ok(Some((function, piece, change))),
        None => Ok(None),
    }
}

/// The rows between brackets, as `[1, 2] [3, 4]`.
fn bag_in(alloc: Global, words: &str) -> Result<Bag, NoMemory> {
    let mut rows = Vec::new(alloc);
    for part in words.split(']') {
        if part.contains('[') {
            rows.push(Row::of(numbers_in(alloc, part)?))?;
        }
    }
    Bag::of_rows(rows)
}

/// The change of a number; none where the words name none.
fn number_changed(words: &str) -> Option<Change> {
    if let Some(fuel) = words.strip_prefix("fuel ") {
        return Some(Change::Fuel(fuel.parse::<u32>().ok()?));
    }
    if let Some(iteration) = words.strip_prefix("iteration ") {
        return Some(Change::Iteration(iteration.parse::<i32>().ok()?));
    }
    let pieces = words.strip_prefix("pieces ")?;
    Some(Change::Pieces(pieces.parse::<u32>().ok()?))
}

/// The change of rows that have a number; none where the words name none.
fn bag_changed(alloc: Global, words: &str) -> Result<Option<Change>, NoMemory> {
    if let Some(rest) = words.strip_prefix("agent ") {
        return match number_first(rest) {
            Some((kind, rows)) => Ok(Some(Change::OfType(kind, bag_in(alloc, rows)?))),
            None => Ok(None),
        };
    }
    if let Some(rest) = words.strip_prefix("board ") {
        return match number_first(rest) {
            Some((input, rows)) => Ok(Some(Change::Board(input, bag_in(alloc, rows)?))),
            None => Ok(None),
        };
    }
    Ok(None)
}

/// What these words change; none where they are no such words.
pub(crate) fn change_in(alloc: Global, words: &str) -> Result<Option<Change>, NoMemory> {
    if words.is_empty() {
        return Ok(Some(Change::Nothing));
    }
    if let Some(change) = number_changed(words) {
        return Ok(Some(change));
    }
    if let Some(constants) = words.strip_prefix("constants ") {
        let constants = Row::of(numbers_in(alloc, constants)?);
        return Ok(Some(Change::Constants(constants)));
    }
    if let Some(rows) = words.strip_prefix("agents") {
        return Ok(Some(Change::Agents(bag_in(alloc, rows)?)));
    }
    bag_changed(alloc, words)
}
