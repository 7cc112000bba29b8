//! Pieces that are run.

ghost use Rattle.std.specs.Prelude.{◌≡◌, IfOk, map};
ghost use Rattle.flame_rows.specs.Bags.{ascending};
ghost use Rattle.flame_index.specs.FrozenBoards.{shared_messages};
ghost use Rattle.flame_world.specs.Settings.{boards_of};
ghost use Rattle.flame_world.specs.Shares.{piece_of, setting_of};
ghost use Rattle.flame_share.specs.PieceFits.{FitsPiece};

use crate::parts::parts_of;
use flame_agent::run_agents;
use flame_index::Frozen;
use flame_leaving::Leaving;
use flame_program::Program;
use flame_rows::{Bag, NoMemory, Row, Seq};
use flame_spec::Born;
use flame_world::{Piece, Rest, Setting, Share, SimFault};
use std::alloc::Global;
use std::sync::Arc;

/// What agents leave besides messages: these survive, these are born, and this is their fault.
fn rest_of(survivors: Vec<Row>, born: Vec<Born>, fault: Option<SimFault>) -> Result<Rest, NoMemory>
    ensures { IfOk result (λ rest. rest
        ≡ record { survivors = ascending survivors.items; born = born.items; fault = fault }) }
{
    Ok(Rest {
        survivors: Bag::of_rows(survivors)?,
        born: Seq::of(born),
        fault,
    })
}

/// The share of the piece under this setting of the program.
fn share_of<'a>(
    alloc: Global,
    program: &Program,
    setting: Setting<'a>,
    piece: Piece,
) -> Result<Share<'a>, NoMemory>
    requires source { setting.source.now ≡ program.now }
    requires fits { FitsPiece program.now.model setting.constants.now (boards_of setting) piece }
    ensures setting { IfOk result (λ share. setting_of share ≡ setting.entry) }
    ensures piece { IfOk result (λ share. piece_of share ≡ piece) }
{
    let rows = piece.agents.rows();
    let leaving = run_agents(alloc, program, &setting, piece.function, rows)?;
    let Leaving {
        ran: _,
        survivors,
        sent,
        born,
        fault,
    } = leaving;
    let parts = parts_of(alloc, program, &piece, sent)?;
    let rest = rest_of(survivors, born, fault)?;
    Ok(Share::new(setting, piece, rest, Seq::of(parts)))
}

/// Runs the agents of a piece, one after another (FLAME User Manual): what the function of the piece means for them, under the
/// setting of the program with these constants, the boards of the function's inputs in their order, the number of the
/// iteration, and the fuel of each agent. The piece's function is one of the program's; there is a board for each of its
/// inputs, and memories, constants and messages are as wide as the model declares. NoMemory where memory is not found, and
/// where 32 bits cannot number the function's inputs.
pub fn run_piece<'a>(
    alloc: Global,
    program: &'a Program,
    piece: Piece,
    constants: &'a Row,
    boards: &'a Seq<Arc<Frozen>>,
    iteration: i32,
    fuel: u32,
) -> Result<Share<'a>, NoMemory>
    requires { FitsPiece program.now.model constants.now (map shared_messages boards.now) piece }
    ensures piece { IfOk result (λ share. piece_of share ≡ piece) }
    ensures source { IfOk result (λ share. (setting_of share).source.now ≡ program.now) }
    ensures constants { IfOk result (λ share. (setting_of share).constants.now ≡ constants.now) }
    ensures boards { IfOk result (λ share. (setting_of share).boards.now ≡ boards.now) }
    ensures iteration { IfOk result (λ share. (setting_of share).iteration ≡ iteration) }
    ensures fuel { IfOk result (λ share. (setting_of share).fuel ≡ fuel) }
{
    let setting = Setting {
        source: program.source(),
        constants,
        boards,
        iteration,
        fuel,
    };
    share_of(alloc, program, setting, piece)
}
