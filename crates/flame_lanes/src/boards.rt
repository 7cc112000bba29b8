//! The boards of a layer.

ghost use Rattle.std.specs.Prelude.{◌≡◌, ◌<◌, ◌+◌, ◌==◌, ◌∷◌, if◌then◌else◌, ℕ, ℤ, List, [], IfOk, IsTrue, OnOk, length, map, slice_index_or};
ghost use Rattle.std.specs.List.{All};
ghost use Rattle.flame_rows.specs.Bags.{ascending, merge, merge_all, weigh};
ghost use Rattle.flame_world.specs.Fields.{changed};
ghost use Rattle.flame_index.specs.FrozenBoards.{messages_on};
ghost use Rattle.flame_field.specs.KeptBoards.{board_bag};
ghost use Rattle.flame_board.specs.SeenBoards.{AreLanesOf, before_of};
ghost use Rattle.flame_board.specs.SeenLanes.{bags_of, weigh_lanes};
ghost use Rattle.flame_lanes.specs.LayerBoards.{AreNewBoards, TakeFrom, weigh_before, weigh_board, weigh_columns};

use flame_board::{Board, Lane, Layer};
use flame_field::{self as field, Gathering};
use flame_index::Frozen;
use flame_merging::merge_bags;
use flame_rows::{Bag, NoMemory, Row, Seq};
use flame_world::Part;
use std::alloc::Global;
use std::mem;
use std::sync::Wait;
use std::thread::Threads;

/// Takes the messages of this type from their board.
fn take(alloc: Global, boards: &mut Vec<field::Board>, message: u32) -> Result<Bag, NoMemory>
    requires { message < length boards.old.items }
    ensures bag { IfOk result (λ bag. bag ≡ slice_index_or (map board_bag boards.old.items) message []) }
    ensures others { map board_bag boards.new.items ≡ changed message (λ bag. []) (map board_bag boards.old.items) }
{
    mem::replace(&mut boards[message as usize], field::Board::empty(alloc)).into_bag()
}

/// Whether the board gathers and has no messages yet.
fn is_new(board: &field::Board) -> bool
    ensures { IsTrue result → board_bag board.now ≡ [] }
{
    match board {
        field::Board::Gathering(messages) => messages.is_empty(),
        field::Board::Frozen(_) => false,
        field::Board::Shared(_) => false,
    }
}

/// Messages join their board, which gathers from then on.
fn join(alloc: Global, board: &mut field::Board, rows: Vec<Row>) -> Result<(), NoMemory>
    ensures { OnOk result (board_bag board.new ≡ merge (board_bag board.old) (ascending rows.items)) }
{
    let mut all = match mem::replace(board, field::Board::empty(alloc)) {
        field::Board::Gathering(messages) => messages,
        frozen => Gathering::of(frozen.into_bag()?),
    };
    all.add_all(rows)?;
    *board = field::Board::Gathering(all);
    Ok(())
}

/// The messages of a frozen board join a board of the field. Where that has none yet the frozen one takes its place as it
/// stands, so that nobody has to look whether its messages are in order.
fn put(alloc: Global, board: &mut field::Board, frozen: Frozen) -> Result<(), NoMemory>
    ensures { OnOk result (board_bag board.new ≡ merge (board_bag board.old) (ascending (messages_on frozen))) }
{
    if is_new(board) {
        *board = field::Board::Frozen(frozen);
        return Ok(());
    }
    join(alloc, board, frozen.into_bag().into_rows())
}

/// A board of the layer for each of these messages, with what its board in the field has, and the lanes to it.
pub fn open_boards(
    alloc: Global,
    layer: &Layer,
    messages: &[u32],
    field: &mut Vec<field::Board>,
) -> Result<(Vec<Board>, Vec<Vec<Lane>>), NoMemory>
    requires { All (λ message. message < length field.old.items) messages.now }
    ensures new { IfOk result (λ made. AreNewBoards layer.now.lanes made.0.items made.1.items) }
    ensures long { IfOk result (λ made. length made.0.items ≡ length messages.now) }
    ensures moved { IfOk result (λ made. (message : ℕ) (weight : List ℤ → ℕ)
        → weigh_board field.new.items message weight + weigh_before messages.now made.0.items message weight
        ≡ weigh_board field.old.items message weight) }
    ensures count { OnOk result (length field.new.items ≡ length field.old.items) }
{
    let mut boards = Vec::new(alloc);
    let mut columns = Vec::new(alloc);
    for message in messages {
        let before = take(alloc, field, *message)?;
        let (board, lanes) = Board::new(alloc, layer, *message, before)?;
        boards.push(board)?;
        columns.push(lanes.into_items())?;
    }
    Ok((boards, columns))
}

/// The messages of the part join their board of the field.
pub fn put_part(alloc: Global, part: Part, field: &mut Vec<field::Board>) -> Result<(), NoMemory>
    requires { part.message < length field.old.items }
    ensures moved { OnOk result ((message : ℕ) (weight : List ℤ → ℕ)
        → weigh_board field.new.items message weight
        ≡ weigh_board field.old.items message weight
        + (if part.message == message then weigh weight part.rows else 0)) }
    ensures count { OnOk result (length field.new.items ≡ length field.old.items) }
{
    let Part { message, rows, .. } = part;
    put(alloc, &mut field[message as usize], Frozen::of(rows))?;
    Ok(())
}

/// The board is frozen, of which these are all lanes. `workers` workers share its messages where they are many.
fn frozen<R: Threads + Wait + Sync>(
    rt: &R,
    alloc: Global,
    workers: u32,
    board: Board,
    column: Vec<Lane>,
) -> Result<Frozen, NoMemory>
    requires { AreLanesOf board column.items }
    ensures { IfOk result (λ frozen. messages_on frozen ≡ merge_all (before_of board ∷ bags_of column.items)) }
{
    let bags = board.gather(rt, Seq::of(column))?;
    let bag = merge_bags(rt, alloc, workers, bags)?;
    Ok(Frozen::of(bag))
}

/// The board is frozen, of which these are all lanes, and its messages join those of the board of the field.
fn freeze_into<R: Threads + Wait + Sync>(
    rt: &R,
    alloc: Global,
    workers: u32,
    board: Board,
    column: Vec<Lane>,
    into: &mut field::Board,
) -> Result<(), NoMemory>
    requires { AreLanesOf board column.items }
    ensures { OnOk result ((weight : List ℤ → ℕ)
        → weigh weight (board_bag into.new)
        ≡ weigh weight (board_bag into.old) + (weigh weight (before_of board) + weigh_lanes weight column.items)) }
{
    let frozen = frozen(rt, alloc, workers, board, column)?;
    put(alloc, into, frozen)?;
    Ok(())
}

/// The boards of the layer are frozen, one after another, and their messages join those of the field. `workers` workers, of
/// which the caller is one, share the messages of a board that has many.
pub fn freeze_all<R: Threads + Wait + Sync>(
    rt: &R,
    alloc: Global,
    workers: u32,
    messages: &[u32],
    boards: Vec<Board>,
    columns: Vec<Vec<Lane>>,
    field: &mut Vec<field::Board>,
) -> Result<(), NoMemory>
    requires there { All (λ message. message < length field.old.items) messages.now }
    requires long { length boards.items ≡ length messages.now }
    requires own { TakeFrom boards.items columns.items }
    ensures moved { OnOk result ((message : ℕ) (weight : List ℤ → ℕ)
        → weigh_board field.new.items message weight
        ≡ weigh_board field.old.items message weight
        + (weigh_before messages.now boards.items message weight
        + weigh_columns messages.now columns.items message weight)) }
    ensures count { OnOk result (length field.new.items ≡ length field.old.items) }
{
    for (message, (board, column)) in messages.iter().zip(boards.into_iter().zip(columns)) {
        freeze_into(
            rt,
            alloc,
            workers,
            board,
            column,
            &mut field[*message as usize],
        )?;
    }
    Ok(())
}
