//! Boards on the way from a gathering of messages to a list that is read.

ghost use Rattle.std.specs.Prelude.{◌≡◌, IsTrue, length, [], ◌∷◌, true, false, Some, None, IfOk, OnOk, OnErr, option_map, if◌then◌else◌};
ghost use Rattle.std.specs.Arc.{arc_value};
ghost use Rattle.flame_rows.specs.Bags.{ascending, merge};
ghost use Rattle.flame_index.specs.FrozenBoards.{messages_on, shared_messages};
ghost use Rattle.flame_field.specs.KeptGatherings.{bag_of};
ghost use Rattle.flame_field.specs.KeptBoards.{board_bag, board_keeps, is_board_frozen, is_board_shared};
ghost use Rattle.flame_field.specs.KeptOrders.{KeepsWanted};

use crate::gatherings::Gathering;
use crate::keeping::{Want, keep};
use flame_index::Frozen;
use flame_rows::{Bag, NoMemory, Row};
use std::alloc::Global;
use std::mem;
use std::sync::Arc;

/// The board of a message (libmboard).
#[derive(Debug, Drop)]
pub enum Board {
    /// Messages still come, in any order.
    Gathering(Gathering),
    /// No message comes any more.
    Frozen(Frozen),
    /// The same, where those who read it may share it.
    Shared(Arc<Frozen>),
}

/// The board, whose messages stand in order.
fn in_order(board: &Frozen) -> &Frozen
    ensures board { result.now ≡ board.now }
    ensures order { messages_on board.now ≡ ascending (messages_on board.now) }
{
    let _rows = board.bag().rows();
    board
}

/// The board, moved to where it may be shared.
fn moved(alloc: Global, board: &mut Frozen) -> Result<Arc<Frozen>, NoMemory>
    ensures ok { IfOk result (λ shared. arc_value shared ≡ board.old) }
    ensures err { OnErr result (board.new ≡ board.old) }
{
    let mut shared = Arc::new(alloc, Frozen::of(Bag::empty(alloc)))?;
    match Arc::get_mut(&mut shared) {
        Some(place) => mem::swap(place, board),
        // Nobody else has it yet.
        None => return Err(NoMemory),
    }
    Ok(shared)
}

/// The messages of a board that may be shared, given back. They are copied only where somebody still reads them.
fn unshared(board: Arc<Frozen>) -> Result<Bag, NoMemory>
    ensures { IfOk result (λ bag. bag ≡ shared_messages board) }
{
    match Arc::try_unwrap(board) {
        Ok(frozen) => Ok(frozen.into_bag()),
        Err(board) => board.bag().copy(),
    }
}

impl Board {
    /// A board that gathers, without messages.
    pub fn empty(alloc: Global) -> Board
        ensures bag { board_bag result ≡ [] }
        ensures gathers { is_board_frozen result ≡ false }
    {
        Board::Gathering(Gathering::empty(alloc))
    }

    /// Whether no message comes any more.
    pub fn is_frozen(&self) -> bool
        ensures { result ≡ is_board_frozen self.now }
    {
        !matches!(self, Board::Gathering(_))
    }

    /// The messages, where no more come.
    pub fn frozen(&self) -> Option<&Frozen>
        ensures { option_map (λ board. messages_on board.now) result
            ≡ (if is_board_frozen self.now then Some (board_bag self.now) else None) }
    {
        match self {
            Board::Gathering(_) => None,
            Board::Frozen(board) => Some(in_order(board)),
            Board::Shared(board) => Some(in_order(board)),
        }
    }

    /// Puts the messages that gathered so far in order, where memory is found.
    pub fn put_in_order(&mut self)
        ensures bag { board_bag self.new ≡ board_bag self.old }
        ensures frozen { is_board_frozen self.new ≡ is_board_frozen self.old }
        ensures left { IsTrue (is_board_frozen self.old) → self.new ≡ self.old }
        ensures keeps { board_keeps self.new ≡ board_keeps self.old }
    {
        match self {
            Board::Gathering(messages) => messages.put_in_order(),
            Board::Frozen(_) => {}
            Board::Shared(_) => {}
        }
    }

    /// No message comes any more: the board is put in order, which takes no memory. Where it is in order already, as
    /// the last piece to hand in mostly leaves it, this goes over it once. A board that is frozen is left as it is.
    pub fn freeze(&mut self)
        ensures bag { board_bag self.new ≡ board_bag self.old }
        ensures frozen { is_board_frozen self.new ≡ true }
        ensures left { IsTrue (is_board_frozen self.old) → self.new ≡ self.old }
        ensures keeps { board_keeps self.new ≡ board_keeps self.old }
    {
        if let Board::Gathering(messages) = self {
            let empty = Vec::new(*messages.rows.allocator());
            let gathered = mem::replace(&mut messages.rows, empty);
            *self = Board::Frozen(Frozen::of(Bag::gathered(gathered)));
        }
    }

    /// Moves a board that is frozen to where it may be shared, with what is wanted kept beside it.
    fn make_shared(&mut self, alloc: Global, wants: &[Want]) -> Result<(), NoMemory>
        requires { is_board_frozen self.old ≡ true }
        ensures bag { board_bag self.new ≡ board_bag self.old }
        ensures frozen { is_board_frozen self.new ≡ true }
        ensures shared { OnOk result (is_board_shared self.new ≡ true) }
        ensures keeps { KeepsWanted (length (board_bag self.old)) wants.now (board_keeps self.old) (board_keeps self.new) }
        ensures left { IsTrue (is_board_shared self.old) → self.new ≡ self.old }
    {
        if let Board::Frozen(board) = self {
            // Without what is wanted the messages are found too.
            let _kept = keep(alloc, board, wants);
            let shared = moved(alloc, board)?;
            *self = Board::Shared(shared);
        }
        Ok(())
    }

    /// One who reads the board more.
    fn reader(&self) -> Result<Arc<Frozen>, NoMemory>
        requires { is_board_shared self.now ≡ true }
        ensures messages { IfOk result (λ board. shared_messages board ≡ board_bag self.now) }
        ensures kept { IfOk result (λ board. (arc_value board).kept ≡ board_keeps self.now) }
    {
        match self {
            Board::Gathering(_) => unreachable!(),
            Board::Frozen(_) => unreachable!(),
            Board::Shared(board) => {
                let _in_order = in_order(board);
                Ok(Arc::try_clone(board)?)
            }
        }
    }

    /// The board, which is frozen, to be read. Where nobody read it before, what all its readers want is kept beside it, as far
    /// as it pays and memory is found.
    pub fn share(&mut self, alloc: Global, wants: &[Want]) -> Result<Arc<Frozen>, NoMemory>
        requires { is_board_frozen self.old ≡ true }
        ensures read { IfOk result (λ board. shared_messages board ≡ board_bag self.old) }
        ensures kept { IfOk result (λ board. (arc_value board).kept ≡ board_keeps self.new) }
        ensures bag { board_bag self.new ≡ board_bag self.old }
        ensures frozen { is_board_frozen self.new ≡ true }
        ensures keeps { KeepsWanted (length (board_bag self.old)) wants.now (board_keeps self.old) (board_keeps self.new) }
        ensures left { IsTrue (is_board_shared self.old) → self.new ≡ self.old }
    {
        self.make_shared(alloc, wants)?;
        self.reader()
    }

    /// The board as it gathers, whether it was frozen or not.
    fn into_gathering(self) -> Result<Gathering, NoMemory>
        ensures { IfOk result (λ messages. bag_of messages ≡ board_bag self) }
    {
        match self {
            Board::Gathering(messages) => Ok(messages),
            Board::Frozen(board) => Ok(Gathering::of(board.into_bag())),
            Board::Shared(board) => Ok(Gathering::of(unshared(board)?)),
        }
    }

    /// A board that was frozen gathers again. After `NoMemory` it may have lost its messages.
    fn thaw(&mut self, alloc: Global) -> Result<(), NoMemory>
        ensures bag { OnOk result (board_bag self.new ≡ board_bag self.old) }
        ensures gathers { OnOk result (is_board_frozen self.new ≡ false) }
    {
        if self.is_frozen() {
            let messages = mem::replace(self, Board::empty(alloc)).into_gathering()?;
            *self = Board::Gathering(messages);
        }
        Ok(())
    }

    /// Adds a message to a board that gathers.
    fn push(&mut self, row: Row) -> Result<(), NoMemory>
        requires { is_board_frozen self.old ≡ false }
        ensures { OnOk result (board_bag self.new ≡ merge (board_bag self.old) (row ∷ [])) }
    {
        match self {
            Board::Gathering(messages) => messages.add(row)?,
            Board::Frozen(_) => unreachable!(),
            Board::Shared(_) => unreachable!(),
        }
        Ok(())
    }

    /// Adds a message. A board that was frozen gathers again; after `NoMemory` it may have lost its messages, and is of no
    /// further use.
    pub fn add(&mut self, alloc: Global, row: Row) -> Result<(), NoMemory>
        ensures { OnOk result (board_bag self.new ≡ merge (board_bag self.old) (row ∷ [])) }
    {
        self.thaw(alloc)?;
        self.push(row)
    }

    /// The messages.
    pub fn into_bag(self) -> Result<Bag, NoMemory>
        ensures { IfOk result (λ bag. bag ≡ board_bag self) }
    {
        match self {
            Board::Gathering(messages) => messages.into_bag(),
            Board::Frozen(board) => {
                let _in_order = in_order(&board);
                Ok(board.into_bag())
            }
            Board::Shared(board) => {
                let _in_order = in_order(&board);
                unshared(board)
            }
        }
    }
}
