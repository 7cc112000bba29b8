//! Lines `absorb 1 0`: the share of this piece of this function, as the core tells of it, comes to the core. Where there is no
//! such piece, it has no agents. Words behind the numbers change a part of the share; its setting is otherwise that of the core
//! and the function, with an empty board where messages gather.

use crate::beginnings::Beginning;
use crate::changes::{Change, share_in};
use crate::makings::{Made, Making};
use flame_core::{Core, StepFault};
use flame_rows::{Bag, NoMemory, number};
use flame_world::Piece;
use std::alloc::Global;

/// The piece of this number of the function.
fn piece_told(
    alloc: Global,
    core: &Core<'_>,
    function: u32,
    piece: u32,
) -> Result<Piece, NoMemory> {
    if piece < core.pieces(function) {
        return core.piece(function, piece);
    }
    Ok(Piece {
        function,
        number: piece,
        agents: Bag::empty(alloc),
    })
}

/// The board of each message.
fn boards_told(alloc: Global, core: &Core<'_>, messages: u32) -> Result<Vec<Bag>, NoMemory> {
    let mut boards = Vec::new(alloc);
    for message in 0..messages {
        boards.push(match core.frozen(message) {
            Some(frozen) => frozen.bag().copy()?,
            None => Bag::empty(alloc),
        })?;
    }
    Ok(boards)
}

/// What the share of the piece of this number of the function is made from, as the core tells of it.
fn making_told<'a>(
    alloc: Global,
    core: &Core<'_>,
    begun: &Beginning<'a>,
    function: u32,
    piece: u32,
) -> Result<Making<'a>, NoMemory> {
    let messages = begun.program.source().model.messages.len();
    let boards = boards_told(alloc, core, number(messages)?)?;
    Making::new(begun, piece_told(alloc, core, function, piece)?, boards)
}

/// The share comes to the core. Tells whether it could be absorbed.
fn absorbs(alloc: Global, core: &mut Core<'_>, made: &Made<'_>) -> Result<bool, NoMemory> {
    match core.absorb(made.share(alloc)?) {
        Ok(()) => Ok(true),
        Err(StepFault::Illegal) => Ok(false),
        Err(StepFault::NoMemory) => Err(NoMemory),
    }
}

/// The share that is made so, with this change, comes to the core. Tells whether it could be absorbed; none where the share has
/// no such part.
fn came(
    alloc: Global,
    core: &mut Core<'_>,
    mut making: Making<'_>,
    change: Change,
) -> Result<Option<bool>, NoMemory> {
    if !making.change(change) {
        return Ok(None);
    }
    let made = making.made(alloc)?;
    Ok(Some(absorbs(alloc, core, &made)?))
}

/// The share that these words name comes to the core. Tells whether it could be absorbed; none where they name no share.
pub(crate) fn absorbed(
    alloc: Global,
    core: &mut Core<'_>,
    begun: &Beginning<'_>,
    words: &str,
) -> Result<Option<bool>, NoMemory> {
    match share_in(alloc, words)? {
        Some((function, piece, change)) => {
            let making = making_told(alloc, core, begun, function, piece)?;
            came(alloc, core, making, change)
        }
        None => Ok(None),
    }
}
