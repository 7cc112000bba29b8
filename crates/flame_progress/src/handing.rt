//! Messages of a piece join their board.

ghost use Rattle.std.specs.Prelude.{◌≡◌, ◌<◌, ℕ, ℤ, List, false, Some, OnOk, OnErr, length, map, slice_get};
ghost use Rattle.std.specs.Prelude.{slice_set, slice_index_or};
ghost use Rattle.std.specs.List.{All};
ghost use Rattle.flame_rows.specs.Bags.{merge};
ghost use Rattle.flame_spec.specs.Below.{HasNoTwice};
ghost use Rattle.flame_world.specs.Fields.{changed};
ghost use Rattle.flame_events.specs.CoreStates.{Work as Meant, Open, part_in, works_of};
ghost use Rattle.flame_pieces.specs.KeptWorks.{work_of, outputs_in};
ghost use Rattle.flame_pieces.specs.KeptStatuses.{status_of, HasOutputs};
ghost use Rattle.flame_field.specs.KeptBoards.{board_bag, is_board_frozen};
ghost use Rattle.flame_progress.specs.KeptWorkEvents.{without, OutputsOnce};

use flame_field::Board;
use flame_pieces::{Status, Work};
use flame_rows::NoMemory;
use std::alloc::Global;

/// The piece hands in its messages of this type to this board, which gathers.
fn hand_over(
    alloc: Global,
    work: &mut Work,
    message: u32,
    board: &mut Board,
) -> Result<(), NoMemory>
    requires once { HasNoTwice (outputs_in work.old) }
    requires gathers { is_board_frozen board.old ≡ false }
    ensures board { OnOk result ((rows : List (List ℤ))
        → part_in (outputs_in work.old) (work_of work.old).parts message ≡ Some rows
        → board_bag board.new ≡ merge (board_bag board.old) rows) }
    ensures work { OnOk result (work_of work.new ≡ without (outputs_in work.old) message (work_of work.old)) }
    ensures gathers { is_board_frozen board.new ≡ false }
    ensures outputs { outputs_in work.new ≡ outputs_in work.old }
    ensures same_board { OnErr result (board_bag board.new ≡ board_bag board.old) }
    ensures same_work { OnErr result (work_of work.new ≡ work_of work.old) }
{
    match board {
        Board::Gathering(messages) => {
            messages.make_room(work.count(message))?;
            messages.put(work.hand_in(alloc, message));
            Ok(())
        }
        Board::Frozen(_) => unreachable!(),
        Board::Shared(_) => unreachable!(),
    }
}

/// The same of the piece of this number.
fn hand_over_piece(
    alloc: Global,
    works: &mut Vec<Work>,
    piece: u32,
    message: u32,
    board: &mut Board,
) -> Result<(), NoMemory>
    requires there { piece < length works.old.items }
    requires once { All (λ kept. HasNoTwice (outputs_in kept)) works.old.items }
    requires gathers { is_board_frozen board.old ≡ false }
    ensures board { OnOk result ((outputs : List ℕ) (work : Meant) (rows : List (List ℤ))
        → All (λ kept. outputs_in kept ≡ outputs) works.old.items
        → slice_get (map work_of works.old.items) piece ≡ Some work
        → part_in outputs work.parts message ≡ Some rows
        → board_bag board.new ≡ merge (board_bag board.old) rows) }
    ensures works { OnOk result ((outputs : List ℕ) (work : Meant)
        → All (λ kept. outputs_in kept ≡ outputs) works.old.items
        → slice_get (map work_of works.old.items) piece ≡ Some work
        → map work_of works.new.items ≡ slice_set (map work_of works.old.items) piece (without outputs message work)) }
    ensures gathers { is_board_frozen board.new ≡ false }
    ensures outputs { (outputs : List ℕ) → All (λ kept. outputs_in kept ≡ outputs) works.old.items
        → All (λ kept. outputs_in kept ≡ outputs) works.new.items }
    ensures same_board { OnErr result (board_bag board.new ≡ board_bag board.old) }
    ensures same_works { OnErr result (map work_of works.new.items ≡ map work_of works.old.items) }
{
    hand_over(alloc, &mut works[piece as usize], message, board)?;
    Ok(())
}

/// Whether the piece handed in its messages of this type.
fn has_handed_in(work: &Work, message: u32) -> bool {
    work.outputs
        .iter()
        .all(|output| output.message != message || output.handed)
}

/// Puts a board in order once all these pieces handed in their messages of this type, where no other function may send more,
/// so that nothing is left to do for it where no memory may be taken. Pieces hand in from the first to the last mostly, so
/// the last is asked first.
fn order_at_last(works: &[Work], message: u32, board: &mut Board, is_last: bool)
    ensures bag { board_bag board.new ≡ board_bag board.old }
    ensures frozen { is_board_frozen board.new ≡ is_board_frozen board.old }
{
    if is_last && works.iter().rev().all(|work| has_handed_in(work, message)) {
        board.put_in_order();
    }
}

/// The same of a piece of a function that is this far, which may be the last that sends messages of this type.
fn hand_over_function(
    alloc: Global,
    status: &mut Status,
    piece: u32,
    message: u32,
    board: &mut Board,
    is_last: bool,
) -> Result<(), NoMemory>
    requires there { piece < length (works_of (status_of status.old)) }
    requires once { OutputsOnce status.old }
    requires gathers { is_board_frozen board.old ≡ false }
    ensures board { OnOk result ((outputs : List ℕ) (work : Meant) (rows : List (List ℤ))
        → HasOutputs outputs status.old
        → slice_get (works_of (status_of status.old)) piece ≡ Some work
        → part_in outputs work.parts message ≡ Some rows
        → board_bag board.new ≡ merge (board_bag board.old) rows) }
    ensures status { OnOk result ((outputs : List ℕ) (work : Meant)
        → HasOutputs outputs status.old
        → slice_get (works_of (status_of status.old)) piece ≡ Some work
        → status_of status.new
        ≡ Open (slice_set (works_of (status_of status.old)) piece (without outputs message work))) }
    ensures gathers { is_board_frozen board.new ≡ false }
    ensures outputs { (outputs : List ℕ) → HasOutputs outputs status.old → HasOutputs outputs status.new }
    ensures same_board { OnErr result (board_bag board.new ≡ board_bag board.old) }
    ensures same_status { OnErr result (status_of status.new ≡ status_of status.old) }
{
    match status {
        Status::Waiting => unreachable!(),
        Status::Open(works) => {
            hand_over_piece(alloc, works, piece, message, board)?;
            order_at_last(works, message, board, is_last);
            Ok(())
        }
        Status::Shut => unreachable!(),
        Status::Faulted(_) => unreachable!(),
    }
}

/// The same, where the message's board is that of this number.
pub(crate) fn hand_over_at(
    alloc: Global,
    status: &mut Status,
    piece: u32,
    message: u32,
    boards: &mut Vec<Board>,
    is_last: bool,
) -> Result<(), NoMemory>
    requires there { piece < length (works_of (status_of status.old)) }
    requires known { message < length boards.old.items }
    requires once { OutputsOnce status.old }
    requires gathers { slice_index_or (map is_board_frozen boards.old.items) message false ≡ false }
    ensures boards { OnOk result ((outputs : List ℕ) (work : Meant) (rows : List (List ℤ))
        → HasOutputs outputs status.old
        → slice_get (works_of (status_of status.old)) piece ≡ Some work
        → part_in outputs work.parts message ≡ Some rows
        → map board_bag boards.new.items ≡ changed message (λ board. merge board rows) (map board_bag boards.old.items)) }
    ensures status { OnOk result ((outputs : List ℕ) (work : Meant)
        → HasOutputs outputs status.old
        → slice_get (works_of (status_of status.old)) piece ≡ Some work
        → status_of status.new
        ≡ Open (slice_set (works_of (status_of status.old)) piece (without outputs message work))) }
    ensures frozen { map is_board_frozen boards.new.items ≡ map is_board_frozen boards.old.items }
    ensures outputs { (outputs : List ℕ) → HasOutputs outputs status.old → HasOutputs outputs status.new }
    ensures same_boards { OnErr result (map board_bag boards.new.items ≡ map board_bag boards.old.items) }
    ensures same_status { OnErr result (status_of status.new ≡ status_of status.old) }
{
    hand_over_function(
        alloc,
        status,
        piece,
        message,
        &mut boards[message as usize],
        is_last,
    )?;
    Ok(())
}
