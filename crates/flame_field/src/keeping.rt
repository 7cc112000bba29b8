//! What is kept beside a board for those who read it.

ghost use Rattle.std.specs.Prelude.{◌≡◌, length, OnOk, OnErr};
ghost use Rattle.flame_index.specs.FrozenBoards.{messages_on};
ghost use Rattle.flame_field.specs.KeptOrders.{are_enough, pays, with_want, with_wants, KeepsWanted};

use flame_cond::SortBy;
use flame_index::Frozen;
use flame_rows::NoMemory;
use std::alloc::Global;

/// An order of a board's messages in which they are found without a look at each.
#[derive(Clone, Copy, Debug)]
pub struct Want {
    /// The key of the order.
    pub by: SortBy,
    /// How many views find their messages by it, at most.
    pub views: usize,
}

/// Whether so many rows are halved down to none by no more steps than there are views.
fn are_enough(views: usize, rows: usize) -> bool
    ensures { result ≡ are_enough views rows }
{
    views >= 64 || rows >> views == 0
}

/// Whether it pays to put so many rows in order for so many views: each row is compared about as often as all are halved down
/// to none, and without the order once for each view.
fn pays(views: usize, rows: usize) -> bool
    ensures { result ≡ pays views rows }
{
    rows > 1 && are_enough(views, rows)
}

/// Keeps beside the board an order that is wanted, if it pays.
fn keep_one(alloc: Global, board: &mut Frozen, want: Want) -> Result<(), NoMemory>
    ensures messages { messages_on board.new ≡ messages_on board.old }
    ensures ok { OnOk result (board.new.kept ≡ with_want (length (messages_on board.old)) want board.old.kept) }
    ensures err { OnErr result (board.new ≡ board.old) }
{
    if pays(want.views, board.bag().rows().len()) {
        board.keep(alloc, want.by)?;
    }
    Ok(())
}

/// Keeps beside the board the orders that are wanted, as far as they pay. Where memory is not found for one, those before it
/// are kept. The messages stay in every case.
pub(crate) fn keep(alloc: Global, board: &mut Frozen, wants: &[Want]) -> Result<(), NoMemory>
    ensures messages { messages_on board.new ≡ messages_on board.old }
    ensures kept { OnOk result (board.new.kept ≡ with_wants (length (messages_on board.old)) wants.now board.old.kept) }
    ensures keeps { KeepsWanted (length (messages_on board.old)) wants.now board.old.kept board.new.kept }
{
    for want in wants {
        keep_one(alloc, board, *want)?;
    }
    Ok(())
}
