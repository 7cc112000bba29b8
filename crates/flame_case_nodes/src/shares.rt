//! The shares that arrive in a case: a line of the section `arrived` names the piece, and behind `under` what is changed for it. The
//! boards of each are its own, with an index of the column of the share's number, from 0: by that a share is known again.

ghost use Rattle.std.specs.Prelude.{◌≡◌, IfOk};

use crate::changes::{Under, under_in};
use crate::fitting::piece_fits;
use crate::readings::piece_in;
use flame_case_files::Case;
use flame_program::Program;
use flame_rows::{NoMemory, number};
use flame_share::run_piece;
use flame_world::{Piece, Share};
use std::alloc::Global;

/// A run of a piece, whose share arrives.
#[derive(Drop)]
pub(crate) struct Run {
    piece: Piece,
    under: Under,
}

/// The run that this line names; none where it names none.
fn run_in(alloc: Global, case: &Case, line: &str, mark: u32) -> Result<Option<Run>, NoMemory> {
    let (words, changed) = line.split_once(" under ").unwrap_or((line, ""));
    let under = under_in(alloc, case, changed, Some(mark))?;
    match piece_in(alloc, words)? {
        Some(piece) => Ok(Some(Run { piece, under })),
        None => Ok(None),
    }
}

/// The runs whose shares arrive, in their order.
pub(crate) fn runs_in(alloc: Global, case: &Case) -> Result<Vec<Run>, NoMemory> {
    let mut runs = Vec::new(alloc);
    for line in &case.lines(alloc, "arrived")? {
        let mark = number(runs.len())?;
        if let Some(run) = run_in(alloc, case, line.as_str(), mark)? {
            runs.push(run)?;
        }
    }
    Ok(runs)
}

/// The piece again.
fn copy_of(piece: &Piece) -> Result<Piece, NoMemory>
    ensures { IfOk result (λ copy. copy ≡ piece.now) }
{
    Ok(Piece {
        function: piece.function,
        number: piece.number,
        agents: piece.agents.copy()?,
    })
}

/// The share of the run; none where the piece cannot be run.
fn share_of<'a>(
    alloc: Global,
    program: &'a Program,
    run: &'a Run,
) -> Result<Option<Share<'a>>, NoMemory> {
    let under = &run.under;
    if !piece_fits(program, under, &run.piece)? {
        return Ok(None);
    }
    let piece = copy_of(&run.piece)?;
    let share = run_piece(
        alloc,
        program,
        piece,
        &under.constants,
        &under.boards,
        under.iteration,
        under.fuel,
    )?;
    Ok(Some(share))
}

/// The shares of these runs, in their order; none where one of them cannot be run.
pub(crate) fn shares_of<'a>(
    alloc: Global,
    program: &'a Program,
    runs: &'a [Run],
) -> Result<Option<Vec<Share<'a>>>, NoMemory> {
    let mut shares = Vec::new(alloc);
    for run in runs {
        match share_of(alloc, program, run)? {
            Some(share) => shares.push(share)?,
            None => return Ok(None),
        }
    }
    Ok(Some(shares))
}
