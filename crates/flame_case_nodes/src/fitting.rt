//! Whether pieces can be run: agents, constants and messages are as wide as the model declares.

ghost use Rattle.std.specs.Prelude.{◌≡◌, IfOk, IsTrue, Some, map, option_map, slice_get};
ghost use Rattle.std.specs.List.{All};
ghost use Rattle.flame_agent.specs.FunctionFits.{AreBoardsFor, IsBoardFor};
ghost use Rattle.flame_index.specs.FrozenBoards.{shared_messages};
ghost use Rattle.flame_share.specs.PieceFits.{FitsPiece};
ghost use Rattle.flame_spec.specs.Functions.{functions};
ghost use Rattle.flame_spec.specs.KnownNames.{variables_in};
ghost use Rattle.flame_world.specs.WorldFits.{AreWide};
ghost use Rattle.flame_case_nodes.specs.PiecePlaces.{place_in};

use crate::changes::Under;
use flame_index::Frozen;
use flame_lookup::width;
use flame_program::Program;
use flame_rows::{NoMemory, Row};
use flame_spec::{AgentType, Function, Input, MessageType, Model, Variable};
use flame_world::Piece;
use std::sync::Arc;

/// Whether each of these rows has this width.
fn are_wide(rows: &[Row], wide: u32) -> bool
    ensures { IsTrue result → AreWide wide rows.now }
{
    for row in rows {
        if row.values().len() != wide as usize {
            return false;
        }
    }
    true
}

/// The variables of the first of these messages that has the name; none where there is no such message.
fn variables_of<'a>(messages: &'a [MessageType], name: &str) -> &'a [Variable]
    ensures { result.now ≡ variables_in messages.now name.now }
{
    for message in messages {
        if name == message.name.as_str() {
            return message.variables.items();
        }
    }
    &[]
}

/// Whether the messages of the board are as wide as the model declares those that the input reads.
fn board_fits(model: &Model, input: &Input, board: &Arc<Frozen>) -> Result<bool, NoMemory>
    ensures { IfOk result (λ fits. IsTrue fits → IsBoardFor model.now input.now (shared_messages board.now)) }
{
    let wide = width(variables_of(model.messages.items(), input.message.as_str()))?;
    Ok(are_wide(board.bag().rows(), wide))
}

/// Whether there is a board for each of these inputs, whose messages are as wide as declared.
fn boards_fit(model: &Model, inputs: &[Input], boards: &[Arc<Frozen>]) -> Result<bool, NoMemory>
    ensures { IfOk result (λ fit. IsTrue fit → AreBoardsFor model.now inputs.now (map shared_messages boards.now)) }
{
    if inputs.len() != boards.len() {
        return Ok(false);
    }
    for i in 0..inputs.len() {
        if !board_fits(model, &inputs[i], &boards[i])? {
            return Ok(false);
        }
    }
    Ok(true)
}

/// A function of the model with its type.
#[derive(Clone, Copy)]
pub(crate) struct Found<'a> {
    /// The number of the type.
    pub number: usize,
    /// The type.
    pub agent: &'a AgentType,
    /// The function.
    pub function: &'a Function,
}

/// The function of this number in document order, with its type.
fn function_of(model: &Model, function: u32) -> Option<Found<'_>>
    ensures { option_map place_in result ≡ slice_get (functions model.now) function }
{
    let mut left = function as usize;
    for (number, agent) in model.agents.items().iter().enumerate() {
        let functions = agent.functions.items();
        if left < functions.len() {
            return Some(Found {
                number,
                agent,
                function: &functions[left],
            });
        }
        left -= functions.len();
    }
    None
}

/// Whether agents, constants and boards are as wide as the model declares for this function of it, which is the piece's.
fn place_fits(
    model: &Model,
    place: &Found<'_>,
    under: &Under,
    piece: &Piece,
) -> Result<bool, NoMemory>
    requires { slice_get (functions model.now) piece.now.function ≡ Some (place_in place.now) }
    ensures { IfOk result (λ fits. IsTrue fits
        → FitsPiece model.now under.now.constants (map shared_messages under.now.boards) piece.now) }
{
    if under.constants.values().len() != model.constants.len() {
        return Ok(false);
    }
    let wide = width(place.agent.memory.items())?;
    if !are_wide(piece.agents.rows(), wide) {
        return Ok(false);
    }
    boards_fit(model, place.function.inputs.items(), under.boards.items())
}

/// Whether the piece can be run: its function is one of the program's, and agents, constants and boards fit.
pub(crate) fn piece_fits(program: &Program, under: &Under, piece: &Piece) -> Result<bool, NoMemory>
    ensures { IfOk result (λ fits. IsTrue fits
        → FitsPiece program.now.model under.now.constants (map shared_messages under.now.boards) piece.now) }
{
    let model = &program.source().model;
    match function_of(model, piece.function) {
        Some(place) => place_fits(model, &place, under, piece),
        None => Ok(false),
    }
}

/// Whether each of these pieces can be run.
pub(crate) fn pieces_fit(
    program: &Program,
    under: &Under,
    pieces: &[Piece],
) -> Result<bool, NoMemory>
    ensures { IfOk result (λ fit. IsTrue fit
        → All (FitsPiece program.now.model under.now.constants (map shared_messages under.now.boards)) pieces.now) }
{
    for piece in pieces {
        if !piece_fits(program, under, piece)? {
            return Ok(false);
        }
    }
    Ok(true)
}
