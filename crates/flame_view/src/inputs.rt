//! The views of all inputs of a function.

ghost use Rattle.std.specs.Prelude.{◌≡◌, ◌<◌, [], ◌∷◌, ◌++◌, length, IsSome, Some, OnOk, OnErr};
ghost use Rattle.std.specs.Option.{option_copied};
ghost use Rattle.flame_code.specs.Feeds.{at_start, has_next, at_next, field, not_begun};
ghost use Rattle.flame_index.specs.FrozenBoards.{messages_on};
ghost use Rattle.flame_view.specs.Compiled.{view_by};

use crate::lists::Lists;
use crate::shown::View;
use flame_code::Feed;
use flame_cond::{Filter, SortBy};
use flame_index::Frozen;
use flame_rows::{NoMemory, Row};
use std::alloc::Global;
use std::marker::Model;

/// A view and how many of its rows have come.
#[derive(Debug, Drop)]
struct Cursor<'a> {
    view: View<'a>,
    passed: usize,
}

/// Takes the views away, the last one first, and keeps the lists of the rows that they have picked.
fn put_back<'a>(cursors: &mut Vec<Cursor<'a>>, lists: &mut Lists<'a>)
    ensures { cursors.new.items ≡ [] }
{
    while let Some(cursor) = cursors.pop() {
        lists.keep(cursor.view);
    }
}

/// One view for each input of a function, in their order, each read from its first row to its last.
#[derive(Debug, Drop)]
pub struct Views<'a> {
    cursors: Vec<Cursor<'a>>,
    lists: Lists<'a>,
}

impl<'a> Model for Views<'a> {
    ghost use Rattle.std.specs.Prelude.{List};
    ghost use Rattle.flame_code.specs.Feeds.{Fed};
    ghost use Rattle.flame_view.specs.Cursors.{feeds_of};

    ghost Value = { List Fed };

    ghost view = { λ a. feeds_of a.cursors.items };
}

impl<'a> Views<'a> {
    /// No view yet.
    pub fn new(alloc: Global) -> Views<'a>
        ensures { result ≡ [] }
    {
        Views {
            cursors: Vec::new(alloc),
            lists: Lists::new(alloc),
        }
    }

    /// No view again, so that those of another run may come. The list keeps its memory, and so do the lists into which views
    /// have picked rows: `push_new` picks into them again, each input into its own where the same inputs pick.
    pub fn clear(&mut self)
        ensures { self.new ≡ [] }
    {
        put_back(&mut self.cursors, &mut self.lists);
    }

    /// Adds the view of the next input, before its first row.
    pub fn push(&mut self, view: View<'a>) -> Result<(), NoMemory>
        ensures ok { OnOk result (self.new ≡ self.old ++ not_begun view.entry ∷ []) }
        ensures err { OnErr result (self.new ≡ self.old) }
    {
        self.cursors.push(Cursor { view, passed: 0 })?;
        Ok(())
    }

    /// Adds the view that `View::new` gives of the board, before its first row. Where its rows are picked, they are picked into
    /// a list that views have left to `clear`, if one is left: then memory is taken for them only where it has too little room.
    /// Where no memory is found there is no view more.
    pub fn push_new(
        &mut self,
        board: &'a Frozen,
        filter: Option<&Filter>,
        sort: Option<SortBy>,
        memory: &Row,
    ) -> Result<(), NoMemory>
        ensures ok { OnOk result (self.new ≡ self.old ++ not_begun
            (view_by (option_copied filter.entry) sort memory.now (messages_on board.now)) ∷ []) }
        ensures err { OnErr result (self.new ≡ self.old) }
    {
        let view = View::within(&mut self.lists, board, filter, sort, memory)?;
        self.push(view)?;
        Ok(())
    }
}

impl<'a> Feed for Views<'a> {
    ghost feeds = { λ views. views };

    fn begin(&mut self, input: u32) {
        self.cursors[input as usize].passed = 0;
    }

    fn advance(&mut self, input: u32) -> bool {
        let cursor = &mut self.cursors[input as usize];
        if cursor.passed < cursor.view.len() {
            cursor.passed += 1;
            return true;
        }
        false
    }

    fn value(&self, input: u32, variable: u32) -> i32 {
        let cursor = &self.cursors[input as usize];
        cursor.view.row(cursor.passed - 1).values()[variable as usize]
    }
}
