//! Under what pieces run.

ghost use Rattle.std.specs.Prelude.{◌≡◌, IfOk};
ghost use Rattle.flame_world.specs.Shares.{piece_of, setting_of};
ghost use Rattle.flame_nodes.specs.NodeWork.{CanRun, IsUnder};

use flame_index::Frozen;
use flame_program::Program;
use flame_rows::{NoMemory, Row, Seq};
use flame_share::run_piece;
use flame_world::{Piece, Setting, Share};
use std::alloc::Global;
use std::sync::Arc;

/// Under what the pieces of a function run.
#[derive(Clone, Copy)]
pub(crate) struct Terms<'a> {
    /// The program.
    pub program: &'a Program,
    /// The constants, in the order of the model.
    pub constants: &'a Row,
    /// The board of each input of the function, in their order.
    pub boards: &'a Seq<Arc<Frozen>>,
    /// The number of the iteration.
    pub iteration: i32,
    /// The fuel of each call of the function.
    pub fuel: u32,
}

/// The setting of these terms.
pub(crate) fn setting_under<'a>(terms: Terms<'a>) -> Setting<'a>
    ensures { IsUnder terms.entry result }
{
    Setting {
        source: terms.program.source(),
        constants: terms.constants,
        boards: terms.boards,
        iteration: terms.iteration,
        fuel: terms.fuel,
    }
}

/// Runs a piece.
pub(crate) fn run_under<'a>(
    alloc: Global,
    terms: Terms<'a>,
    piece: Piece,
) -> Result<Share<'a>, NoMemory>
    requires { CanRun terms piece }
    ensures piece { IfOk result (λ share. piece_of share ≡ piece) }
    ensures setting { IfOk result (λ share. IsUnder terms.entry (setting_of share)) }
{
    run_piece(
        alloc,
        terms.program,
        piece,
        terms.constants,
        terms.boards,
        terms.iteration,
        terms.fuel,
    )
}
