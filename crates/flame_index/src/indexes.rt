//! Indexes of boards.

ghost use Rattle.std.specs.Prelude.{◌≡◌, ℕ, ◌+◌, ◌*◌, ◌^◌, ◌<◌, ◌≤◌, ◌↔◌, false, ℤ, IfOk, IfSome, length, slice_get, IsTrue};
ghost use Rattle.flame_cond.specs.Said.{key_by};
ghost use Rattle.flame_index.specs.FrozenBoards.{FrozenBoard, ascending_by, messages_on};
ghost use Rattle.flame_index.specs.Indexes.{IsRangeOf, StandsFor, places_of, values_of};
ghost use Rattle.flame_index.specs.IndexBodies.{IsBoundOf, is_passed};

use crate::boards::Frozen;
use crate::entries;
use crate::starts::Starts;
use crate::steps::Steps;
use flame_cond::SortBy;
use flame_rows::NoMemory;
use std::alloc::Global;
use std::marker::{Brand, Model};
use std::sync::ledger::{Blank, Ledger};

/// The places of a board's messages in the order of a key: by the number in its column, the least first or the greatest,
/// and equal numbers by place, which is by content. Seen as the key and, for each message, its number and its place.
/// A message that lacks the column counts as 0 there. It takes 8 bytes for a message.
#[derive(Debug, Drop)]
pub struct Index {
    by: SortBy,
    values: Vec<i32>,
    places: Vec<u32>,
    starts: Starts,
}

impl Model for Index {
    ghost use Rattle.std.specs.Prelude.{◌≡◌, length};
    ghost use Rattle.flame_cond.specs.Said.{key_by};
    ghost use Rattle.flame_index.specs.Indexes.{IndexTable};
    ghost use Rattle.flame_index.specs.IndexBodies.{IsTableOf, entries_of};

    ghost Value = { IndexTable };

    ghost view = { λ a. record { key = key_by a.by; entries = entries_of a.values.items a.places.items } };

    ghost invariant = { λ a. (length a.values.items ≡ length a.places.items)
        × IsTableOf a.starts.least a.starts.counts.items a.values.items };
}

impl Index {
    /// The index of a board by the numbers in a column, the least first. Takes n log n comparisons for n messages.
    /// NoMemory where memory is not found, and where 32 bits do not number the messages.
    pub fn of(alloc: Global, board: &Frozen, column: u32) -> Result<Index, NoMemory>
        ensures key { IfOk result (λ index. index.key ≡ ascending_by column) }
        ensures stands { IfOk result (λ index. StandsFor index board.now) }
    {
        Index::by(
            alloc,
            board,
            SortBy {
                variable: column,
                descending: false,
            },
        )
    }

    /// The index of a board by a key. NoMemory as for `of`.
    pub fn by(alloc: Global, board: &Frozen, by: SortBy) -> Result<Index, NoMemory>
        ensures key { IfOk result (λ index. index.key ≡ key_by by) }
        ensures stands { IfOk result (λ index. StandsFor index board.now) }
    {
        let pairs = entries::ordered(alloc, board.bag().rows(), by)?;
        let values = entries::values(alloc, &pairs)?;
        let places = entries::places(alloc, &pairs)?;
        let starts = if by.descending {
            Starts::none(alloc)
        } else {
            Starts::of(alloc, &values)
        };
        Ok(Index {
            by,
            values,
            places,
            starts,
        })
    }

    /// Its key.
    pub fn key(&self) -> SortBy
        ensures { key_by result ≡ self.now.key }
    {
        self.by
    }

    /// How many entries it has: one for each message.
    pub fn len(&self) -> usize
        ensures { result ≡ length self.now.entries }
    {
        self.values.len()
    }

    /// The number at a place of the index. It is one step.
    pub fn probe<L: Ledger>(&self, _board: &Frozen, at: usize, steps: &mut Steps<L>) -> i32
        requires stands { StandsFor self.now _board.now }
        requires within { at < length self.now.entries }
        ensures value { slice_get (values_of self.now) at ≡ Some result }
        ensures step { steps.new ≡ steps.old + 1 }
    {
        steps.tick();
        self.values[at]
    }

    /// How many of its messages a search for the number goes past: those with a lesser number, and those that have it
    /// where it goes through them.
    fn bound<L: Ledger>(
        &self,
        board: &Frozen,
        wanted: i32,
        through: bool,
        steps: &mut Steps<L>,
    ) -> usize
        requires stands { StandsFor self.now board.now }
        requires ascending { self.now.key.descending ≡ false }
        ensures within { result ≤ length self.now.entries }
        ensures sides { (at : ℕ) (value : ℤ) → slice_get (values_of self.now) at ≡ Some value
            → (at < result) ↔ IsTrue (is_passed through wanted value) }
        ensures cost { (d : ℕ) → length self.now.entries < 2 ^ d → steps.new ≤ steps.old + d }
    {
        let mut low = 0;
        let mut high = self.len();
        while low < high {
            let middle = low + (high - low) / 2;
            if is_passed(through, wanted, self.probe(board, middle, steps)) {
                low = middle + 1;
            } else {
                high = middle;
            }
        }
        low
    }

    /// What `bound` gives, where the table of starts tells it.
    fn told(&self, wanted: i32, through: bool) -> Option<usize>
        ensures { IfSome result (λ place. IsBoundOf through wanted (values_of self.now) place) }
    {
        self.starts.passed(wanted, through)
    }

    /// What `bound` gives, by the table of starts where it tells, else by a search.
    fn passed<L: Ledger>(
        &self,
        board: &Frozen,
        wanted: i32,
        through: bool,
        steps: &mut Steps<L>,
    ) -> usize
        requires stands { StandsFor self.now board.now }
        requires ascending { self.now.key.descending ≡ false }
        ensures within { result ≤ length self.now.entries }
        ensures sides { (at : ℕ) (value : ℤ) → slice_get (values_of self.now) at ≡ Some value
            → (at < result) ↔ IsTrue (is_passed through wanted value) }
        ensures cost { (d : ℕ) → length self.now.entries < 2 ^ d → steps.new ≤ steps.old + d }
    {
        match self.told(wanted, through) {
            Some(place) => place,
            None => self.bound(board, wanted, through, steps),
        }
    }

    /// The places of the index whose messages have this number in its column: from the first up to the second. The index
    /// stands for this board, and its key ascends, as those of `Index::of` and `Frozen::indexed` do. Where the numbers of
    /// the board are dense, a table tells the range of any number without a step; else it takes at most 2d steps, where d
    /// is how many binary digits the number of messages has. That numbers are read by `probe` alone, and when the table
    /// tells, no clause says.
    pub fn equal<L: Ledger>(
        &self,
        board: &Frozen,
        value: i32,
        steps: &mut Steps<L>,
    ) -> (usize, usize)
        requires stands { StandsFor self.now board.now }
        requires ascending { self.now.key.descending ≡ false }
        ensures range { IsRangeOf self.now board.now value result.0 result.1 }
        ensures cost { (d : ℕ) → length self.now.entries < 2 ^ d → steps.new ≤ steps.old + 2 * d }
    {
        let from = self.passed(board, value, false, steps);
        let to = self.passed(board, value, true, steps);
        (from, to)
    }

    /// The range that `equal` gives, for a caller that counts no steps.
    pub fn range(&self, board: &Frozen, value: i32) -> (usize, usize)
        requires stands { StandsFor self.now board.now }
        requires ascending { self.now.key.descending ≡ false }
        ensures { IsRangeOf self.now board.now value result.0 result.1 }
    {
        counted::<Brand>(self, board, value, Blank::new(1))
    }

    /// The place on the board of the message at a place of the index.
    pub fn place(&self, at: usize) -> usize
        requires { at < length self.now.entries }
        ensures place { slice_get (places_of self.now) at ≡ Some result }
        ensures within { (board : FrozenBoard) → StandsFor self.now board → result < length (messages_on board) }
    {
        self.places[at] as usize
    }

    /// The places on the board of all its messages, in its order.
    pub fn places(&self) -> &[u32]
        ensures { result.now ≡ places_of self.now }
    {
        self.places.as_slice()
    }
}

fn counted<L: Ledger>(index: &Index, board: &Frozen, value: i32, blank: Blank) -> (usize, usize)
    requires name { blank.name ≡ L.name }
    requires parts { blank.parts ≡ L.parts }
    requires some { 0 < blank.parts }
    requires stands { StandsFor index.now board.now }
    requires ascending { index.now.key.descending ≡ false }
    ensures { IsRangeOf index.now board.now value result.0 result.1 }
{
    let mut steps = Steps::<L>::new(blank);
    index.equal(board, value, &mut steps)
}

/// Whether a search for the first number goes past the second.
fn is_passed(through: bool, wanted: i32, value: i32) -> bool
    ensures { result ≡ is_passed through wanted value }
{
    if through {
        value <= wanted
    } else {
        value < wanted
    }
}
