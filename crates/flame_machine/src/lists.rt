//! A feed over rows in memory.

ghost use Rattle.std.specs.Prelude.{◌≡◌, ◌==◌, ◌<◌, ◌↔◌, ℕ, ℤ, List, [], ◌∷◌, ◌++◌, length, IsTrue, IsSome, Some, OnOk, OnErr};
ghost use Rattle.std.specs.List.{list_all, zip};
ghost use Rattle.flame_code.specs.Feeds.{at_start, has_next, at_next, field, not_begun};
ghost use Rattle.flame_code.specs.InputRows.{HaveWidths, rows_of};
ghost use Rattle.flame_machine.specs.declared.lists.Cursor.{Cursor as Read};
ghost use Rattle.flame_machine.specs.Fitting.{rows_fit as fitting};

use flame_code::Feed;
use flame_rows::{NoMemory, Row};
use std::alloc::Global;
use std::marker::Model;

/// The rows of an input and how many of them have come.
#[derive(Debug, Drop)]
struct Cursor<'a> {
    rows: &'a [Row],
    come: usize,
}

/// Lists of rows in memory, one for each input of a function, in their order, each read from its first row to its last.
#[derive(Debug, Drop)]
pub struct Lists<'a> {
    cursors: Vec<Cursor<'a>>,
}

impl<'a> Model for Lists<'a> {
    ghost use Rattle.std.specs.Prelude.{List};
    ghost use Rattle.flame_code.specs.Feeds.{Fed};
    ghost use Rattle.flame_machine.specs.ListCursors.{feeds_of};

    ghost Value = { List Fed };

    ghost view = { λ a. feeds_of a.cursors.items };
}

/// Whether the rows have this width.
fn rows_fit(width: u32, rows: &[Row]) -> bool
    ensures { result ≡ fitting width rows.now }
{
    rows.iter().all(
        |row: &Row| -> bool
            ensures { result ≡ (length row.now == width) }
        { row.values().len() == width as usize },
    )
}

/// Whether the rows of each cursor have the width in its place.
fn all_fit(widths: &[u32], cursors: &[Cursor]) -> bool
    ensures { result ≡ list_all (λ (pair : ℕ × Read). fitting pair.0 pair.1.rows.now) (zip widths.now cursors.now) }
{
    widths.iter().zip(cursors.iter()).all(
        |pair: (&u32, &Cursor)| -> bool
            ensures { result ≡ fitting (pair.entry.0).now (pair.entry.1).now.rows.now }
        { rows_fit(*pair.0, pair.1.rows) },
    )
}

impl<'a> Lists<'a> {
    /// No list yet: what helpers read, and functions without inputs.
    pub fn new(alloc: Global) -> Lists<'a>
        ensures { result ≡ [] }
    {
        Lists {
            cursors: Vec::new(alloc),
        }
    }

    /// Adds the rows of the next input, of which none has come.
    pub fn push(&mut self, rows: &'a [Row]) -> Result<(), NoMemory>
        ensures ok { OnOk result (self.new ≡ self.old ++ not_begun rows.entry.now ∷ []) }
        ensures err { OnErr result (self.new ≡ self.old) }
    {
        self.cursors.push(Cursor { rows, come: 0 })?;
        Ok(())
    }

    /// Whether there is a list of rows for each of these widths, and its rows have that width.
    pub fn have_widths(&self, widths: &[u32]) -> bool
        ensures { IsTrue result ↔ HaveWidths widths.now (rows_of self.now) }
    {
        let cursors = self.cursors.as_slice();
        cursors.len() == widths.len() && all_fit(widths, cursors)
    }
}

impl<'a> Feed for Lists<'a> {
    ghost feeds = { λ lists. lists };

    fn begin(&mut self, input: u32) {
        self.cursors[input as usize].come = 0;
    }

    fn advance(&mut self, input: u32) -> bool {
        let cursor = &mut self.cursors[input as usize];
        if cursor.come < cursor.rows.len() {
            cursor.come += 1;
            return true;
        }
        false
    }

    fn value(&self, input: u32, variable: u32) -> i32 {
        let cursor = &self.cursors[input as usize];
        cursor.rows[cursor.come - 1].values()[variable as usize]
    }
}
