//! Rows of a board that are found without a look at each.

ghost use Rattle.std.specs.Prelude.{◌≡◌, false, Some, IfSome};
ghost use Rattle.std.specs.List.{filter};
ghost use Rattle.flame_rows.specs.Sorted.{sorted_by};
ghost use Rattle.flame_spec.specs.Views.{view_order};
ghost use Rattle.flame_cond.specs.Said.{key_by};
ghost use Rattle.flame_cond.specs.Equalities.{has_value};
ghost use Rattle.flame_index.specs.FrozenBoards.{messages_on};
ghost use Rattle.flame_index.specs.Indexes.{StandsFor};
ghost use Rattle.flame_view.specs.ViewWays.{goes_by_first};

use crate::ranges::{first_has_number, with_first};
use crate::shown::View;
use flame_cond::SortBy;
use flame_index::laws::{orders_the_board, stays_on_the_board};
use flame_index::{Frozen, Index};

/// The rows of the board with this number in the column of the index, in content order.
fn equal_in<'a>(board: &'a Frozen, index: &'a Index, value: i32) -> View<'a>
    requires stands { StandsFor index.now board.now }
    requires ascending { index.now.key.descending ≡ false }
    ensures { result ≡ filter (has_value index.now.key.column value) (messages_on board.now) }
{
    stays_on_the_board();
    let (from, to) = index.range(board, value);
    View::placed(board.bag().rows(), &index.places()[from..to])
}

/// The rows of the board with this number in the column, in content order, where they can be found: in column 0 where no
/// row is empty, and else by an index that is kept.
pub fn equal_rows<'a>(board: &'a Frozen, column: u32, value: i32) -> Option<View<'a>>
    ensures { IfSome result (λ rows. rows ≡ filter (has_value column value) (messages_on board.now)) }
{
    let rows = board.bag().rows();
    if column == 0 && first_has_number(rows) {
        return Some(View::all(with_first(rows, value)));
    }
    let index = board.indexed(column)?;
    Some(equal_in(board, index, value))
}

/// All rows of the board, in the order of the index.
fn all_in<'a>(board: &'a Frozen, index: &'a Index) -> View<'a>
    requires { StandsFor index.now board.now }
    ensures { result ≡ sorted_by (view_order (Some index.now.key)) (messages_on board.now) }
{
    stays_on_the_board();
    orders_the_board();
    View::placed(board.bag().rows(), index.places())
}

/// Whether the key is column 0 with the least number first.
pub fn goes_by_first(by: SortBy) -> bool
    ensures { result ≡ goes_by_first (key_by by) }
{
    by.variable == 0 && !by.descending
}

/// All rows of the board, in the order of the key, where the board has that order or keeps it.
pub fn ordered_rows<'a>(board: &'a Frozen, by: SortBy) -> Option<View<'a>>
    ensures { IfSome result (λ rows. rows
        ≡ sorted_by (view_order (Some (key_by by))) (messages_on board.now)) }
{
    let rows = board.bag().rows();
    if goes_by_first(by) && first_has_number(rows) {
        return Some(View::all(rows));
    }
    let index = board.ordered(by)?;
    Some(all_in(board, index))
}
