//! Views.

ghost use Rattle.std.specs.Prelude.{◌≡◌, ◌<◌, length, map, slice_get, Some};
ghost use Rattle.flame_index.specs.Indexes.{rows_at};
ghost use Rattle.flame_view.specs.ViewWays.{AreWithin};

use flame_rows::Row;
use std::marker::Model;

/// Where the rows of a view lie.
#[derive(Debug, Drop)]
enum Rows<'a> {
    /// Rows of a board that lie beside each other, as they lie there.
    All(&'a [Row]),
    /// The rows of a board in these places.
    Placed(&'a [Row], &'a [u32]),
    /// Some rows of a board, in an order of their own.
    Picked(Vec<&'a Row>),
    /// The rows that another view has picked.
    Lent(&'a Vec<&'a Row>),
}

/// The rows of a board that a message loop goes over, in order, seen as their list (libmboard's iterators). They stay
/// where they are: no row is copied.
#[derive(Debug, Drop)]
pub struct View<'a> {
    rows: Rows<'a>,
}

impl<'a> Model for View<'a> {
    ghost use Rattle.std.specs.Prelude.{List, ℤ};
    ghost use Rattle.flame_view.specs.ViewRows.{rows_of_view, AreThere};

    ghost Value = { List (List ℤ) };

    ghost view = { λ a. rows_of_view a.rows };

    ghost invariant = { λ a. AreThere a.rows };
}

fn row_of(rows: &[Row], place: usize) -> &Row
    requires { place < length rows.now }
    ensures { slice_get rows.now place ≡ Some result.now }
{
    &rows[place]
}

fn placed_row<'a>(rows: &'a [Row], places: &[u32], place: usize) -> &'a Row
    requires within { place < length places.now }
    requires there { AreWithin places.now rows.now }
    ensures { slice_get (rows_at places.now rows.now) place ≡ Some result.now }
{
    let at = places[place] as usize;
    &rows[at]
}

fn picked_row<'a>(rows: &[&'a Row], place: usize) -> &'a Row
    requires { place < length rows.now }
    ensures { slice_get (map (λ row. row.now) rows.now) place ≡ Some result.now }
{
    rows[place]
}

impl<'a> View<'a> {
    /// The rows as they lie.
    pub(crate) fn all(rows: &'a [Row]) -> View<'a>
        ensures { result ≡ rows.now }
    {
        View {
            rows: Rows::All(rows),
        }
    }

    /// The rows in these places, in the order of the places.
    pub(crate) fn placed(rows: &'a [Row], places: &'a [u32]) -> View<'a>
        requires { AreWithin places.now rows.now }
        ensures { result ≡ rows_at places.now rows.now }
    {
        View {
            rows: Rows::Placed(rows, places),
        }
    }

    /// These rows, in their order.
    pub(crate) fn picked(rows: Vec<&'a Row>) -> View<'a>
        ensures { result ≡ map (λ row. row.now) rows.entry.items }
    {
        View {
            rows: Rows::Picked(rows),
        }
    }

    /// These rows, which another view has picked.
    fn lent(rows: &'a Vec<&'a Row>) -> View<'a>
        ensures { result ≡ map (λ row. row.now) rows.now.items }
    {
        View {
            rows: Rows::Lent(rows),
        }
    }

    /// The list of the rows that it has picked, if it has picked rows.
    pub(crate) fn into_picked(self) -> Option<Vec<&'a Row>> {
        match self.rows {
            Rows::Picked(rows) => Some(rows),
            Rows::All(_) => None,
            Rows::Placed(_, _) => None,
            Rows::Lent(_) => None,
        }
    }

    /// The same view once more, which reads the rows where they lie and takes no memory.
    pub fn shared<'b>(&'b self) -> View<'b>
        ensures { result ≡ self.now }
    {
        match &self.rows {
            Rows::Picked(rows) => return View::lent(rows),
            Rows::All(rows) => View::all(rows),
            Rows::Placed(rows, places) => View::placed(rows, places),
            Rows::Lent(rows) => View::lent(rows),
        }
    }

    /// How many rows it has.
    pub fn len(&self) -> usize
        ensures { result ≡ length self.now }
    {
        match &self.rows {
            Rows::All(rows) => rows.len(),
            Rows::Placed(_, places) => places.len(),
            Rows::Picked(rows) => rows.len(),
            Rows::Lent(rows) => rows.len(),
        }
    }

    /// The row in this place.
    pub fn row(&self, place: usize) -> &'a Row
        requires { place < length self.now }
        ensures { slice_get self.now place ≡ Some result.now }
    {
        match &self.rows {
            Rows::All(rows) => row_of(rows, place),
            Rows::Placed(rows, places) => placed_row(rows, places, place),
            Rows::Picked(rows) => picked_row(rows, place),
            Rows::Lent(rows) => picked_row(rows, place),
        }
    }
}
