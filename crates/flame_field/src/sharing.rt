//! Boards that are read.

ghost use Rattle.std.specs.Prelude.{◌≡◌, ◌<◌, [], true, false, IfOk, length, map, slice_index_or};
ghost use Rattle.std.specs.List.{All};
ghost use Rattle.flame_index.specs.FrozenBoards.{shared_messages};
ghost use Rattle.flame_field.specs.KeptBoards.{board_bag, board_keeps, is_board_frozen};
ghost use Rattle.flame_field.specs.KeptOrders.{wants_at, KeepsWanted, KeepWanted};

use crate::boards::Board;
use crate::keeping::Want;
use flame_index::Frozen;
use flame_rows::NoMemory;
use std::alloc::Global;
use std::sync::Arc;

/// What is wanted of the board of this message; of one that is not listed nothing.
fn wants_at(wants: &[Vec<Want>], message: u32) -> &[Want]
    ensures { result.now ≡ wants_at wants.now message }
{
    match wants.get(message as usize) {
        Some(wants) => wants.as_slice(),
        None => &[],
    }
}

/// The board is put in order and frozen, where it gathers, and is read.
fn share_one(alloc: Global, board: &mut Board, wants: &[Want]) -> Result<Arc<Frozen>, NoMemory>
    ensures read { IfOk result (λ shared. shared_messages shared ≡ board_bag board.old) }
    ensures bag { board_bag board.new ≡ board_bag board.old }
    ensures frozen { is_board_frozen board.new ≡ true }
    ensures keeps { KeepsWanted (length (board_bag board.old)) wants.now (board_keeps board.old) (board_keeps board.new) }
{
    board.put_in_order();
    board.freeze();
    board.share(alloc, wants)
}

/// The boards of these messages, to be read, in this order: those that gather are put in order and frozen. Beside a board that
/// nobody read before is kept what all its readers want, which is told for each message, as far as it pays and memory is found.
pub fn share(
    alloc: Global,
    boards: &mut Vec<Board>,
    messages: &[u32],
    wants: &[Vec<Want>],
) -> Result<Vec<Arc<Frozen>>, NoMemory>
    requires { All (λ message. message < length boards.old.items) messages.now }
    ensures read { IfOk result (λ shared. map shared_messages shared.items
        ≡ map (λ message. slice_index_or (map board_bag boards.old.items) message []) messages.now) }
    ensures bags { map board_bag boards.new.items ≡ map board_bag boards.old.items }
    ensures frozen { All (λ message. slice_index_or (map is_board_frozen boards.old.items) message false ≡ true)
        messages.now → map is_board_frozen boards.new.items ≡ map is_board_frozen boards.old.items }
    ensures keeps { KeepWanted wants.now boards.old.items boards.new.items }
{
    let mut shared = Vec::new(alloc);
    for message in messages {
        let wanted = wants_at(wants, *message);
        shared.push(share_one(alloc, &mut boards[*message as usize], wanted)?)?;
    }
    Ok(shared)
}
