//! Cases of shares that are gathered: the section `model` is a model in JSON, each section `text` a function file, in the order of
//! the model. Under what pieces are run is given as [`crate::changes`] reads it. The section `pieces` names a piece a line, as
//! [`crate::readings`] reads it, and the section `arrived` a share a line, as [`crate::shares`] does. The answer has the share of
//! each piece, as [`crate::printing`] prints it.

ghost use Rattle.std.specs.Prelude.{IsTrue, map};
ghost use Rattle.std.specs.List.{All};
ghost use Rattle.flame_index.specs.FrozenBoards.{shared_messages};
ghost use Rattle.flame_share.specs.PieceFits.{FitsPiece};
ghost use Rattle.flame_spec.specs.WellFormed.{is_well_formed};

use crate::changes::{Under, under_in};
use crate::fitting::pieces_fit;
use crate::printing::print_shares;
use crate::readings::pieces_in;
use crate::shares::{Run, runs_in, shares_of};
use flame_case_files::Case;
use flame_case_programs::{Sourced, program_of, source_in};
use flame_nodes::gather;
use flame_program::Program;
use flame_rows::{NoMemory, Seq, number};
use flame_spec::Source;
use flame_world::{Piece, Share};
use std::alloc::{AllocError, Global};

/// The shares of these pieces, gathered from those that arrived, as a text.
fn told<'a>(
    alloc: Global,
    program: &'a Program,
    under: &'a Under,
    pieces: Vec<Piece>,
    arrived: Vec<Share<'a>>,
) -> Result<String, NoMemory>
    requires { All (FitsPiece program.now.model under.now.constants (map shared_messages under.now.boards)) pieces.items }
{
    let count = number(arrived.len())?;
    let shares = gather(
        alloc,
        program,
        Seq::of(pieces),
        Seq::of(arrived),
        &under.constants,
        &under.boards,
        under.iteration,
        under.fuel,
    )?;
    let mut out = String::new(alloc);
    print_shares(&mut out, shares.into_items(), count)?;
    Ok(out)
}

/// The same from the shares of these runs, where all pieces can be run.
fn gathered(
    alloc: Global,
    case: &Case,
    program: &Program,
    under: &Under,
    runs: &[Run],
) -> Result<String, NoMemory> {
    let pieces = pieces_in(alloc, case)?;
    if !pieces_fit(program, under, pieces.as_slice())? {
        return Ok(String::from_str(alloc, "a piece does not fit\n")?);
    }
    match shares_of(alloc, program, runs)? {
        Some(arrived) => told(alloc, program, under, pieces, arrived),
        None => Ok(String::from_str(alloc, "a share does not fit\n")?),
    }
}

/// The same of a program, and of what the case gives.
fn of_case(alloc: Global, case: &Case, program: &Program) -> Result<String, NoMemory> {
    let under = under_in(alloc, case, "", None)?;
    let runs = runs_in(alloc, case)?;
    gathered(alloc, case, program, &under, runs.as_slice())
}

/// The same of a source, where it is accepted.
fn answered(alloc: Global, case: &Case, source: Source) -> Result<String, NoMemory>
    requires formed { IsTrue (is_well_formed source.model) }
{
    match program_of(alloc, source)? {
        Some(program) => of_case(alloc, case, &program),
        None => Ok(String::from_str(alloc, "not accepted\n")?),
    }
}

/// The answer to a case of the kind `gather`.
pub fn answer_gather(alloc: Global, case: &Case) -> Result<String, AllocError> {
    match source_in(alloc, case)? {
        Sourced::Told(told) => Ok(told),
        Sourced::Source(source) => match answered(alloc, case, source) {
            Ok(out) => Ok(out),
            Err(NoMemory) => Err(AllocError),
        },
    }
}
