//! The ways to a view, of which the first that fits is taken.

ghost use Rattle.std.specs.Prelude.{◌≡◌, ℤ, List, IsTrue, Some, IfOk, IfSome};
ghost use Rattle.std.specs.Option.{option_copied};
ghost use Rattle.flame_rows.specs.Order.{row_order};
ghost use Rattle.flame_rows.specs.Sorted.{IsAscending};
ghost use Rattle.flame_cond.specs.TestForms.{form_of};
ghost use Rattle.flame_cond.specs.Equalities.{is_one_equality};
ghost use Rattle.flame_index.specs.FrozenBoards.{messages_on};
ghost use Rattle.flame_view.specs.Compiled.{picked_by, view_by};
ghost use Rattle.flame_view.specs.ViewWays.{in_order_of};

use crate::lists::Lists;
use crate::picks::narrowed;
use crate::ranges::first_has_number;
use crate::shown::View;
use crate::ways::{equal_rows, goes_by_first, ordered_rows};
use flame_cond::laws::{one_equality_is_all, passing_is_equal};
use flame_cond::{Filter, SortBy};
use flame_index::Frozen;
use flame_rows::{NoMemory, Row};
use std::alloc::Global;

/// The rows among which are all that pass, in content order, where the filter asks for a number by which they are found.
fn found<'a>(board: &'a Frozen, filter: &Filter, memory: &Row) -> Option<View<'a>>
    ensures among { IfSome result (λ rows. picked_by (Some filter.now) memory.now rows
        ≡ picked_by (Some filter.now) memory.now (messages_on board.now)) }
    ensures all { IsTrue (is_one_equality (form_of filter.now))
        → IfSome result (λ rows. rows ≡ picked_by (Some filter.now) memory.now (messages_on board.now)) }
{
    passing_is_equal();
    one_equality_is_all();
    let equality = filter.equality()?;
    equal_rows(board, equality.column, equality.equal.value(memory))
}

/// Whether the rows that pass are in the order of the key as they are by content: the key is column 0 with the least
/// number first, and no row is empty; or the filter asks for one number in its column.
fn is_in_order(rows: &[Row], filter: &Filter, by: SortBy) -> bool
    requires { IsAscending row_order rows.now }
    ensures { IsTrue result → (memory : List ℤ)
        → in_order_of (Some by) (picked_by (Some filter.now) memory rows.now)
        ≡ picked_by (Some filter.now) memory rows.now }
{
    passing_is_equal();
    if goes_by_first(by) && first_has_number(rows) {
        return true;
    }
    match filter.equality() {
        Some(equality) => equality.column == by.variable,
        None => false,
    }
}

/// What is left to sort of the rows that pass, in content order.
fn left_to_sort(rows: &[Row], filter: &Filter, sort: Option<SortBy>) -> Option<SortBy>
    requires { IsAscending row_order rows.now }
    ensures { (memory : List ℤ)
        → in_order_of result (picked_by (Some filter.now) memory rows.now)
        ≡ view_by (Some filter.now) sort memory rows.now }
{
    match sort {
        Some(by) if is_in_order(rows, filter, by) => None,
        Some(by) => Some(by),
        None => None,
    }
}

/// The view of the rows that were found among all.
fn of_found<'a>(
    lists: &mut Lists<'a>,
    found: View<'a>,
    rows: &[Row],
    filter: &Filter,
    sort: Option<SortBy>,
    memory: &Row,
) -> Result<View<'a>, NoMemory>
    requires order { IsAscending row_order rows.now }
    requires among { picked_by (Some filter.now) memory.now found ≡ picked_by (Some filter.now) memory.now rows.now }
    requires all { IsTrue (is_one_equality (form_of filter.now))
        → found ≡ picked_by (Some filter.now) memory.now rows.now }
    ensures { IfOk result (λ view. view ≡ view_by (Some filter.now) sort memory.now rows.now) }
{
    let left = left_to_sort(rows, filter, sort);
    if filter.is_equality() {
        return narrowed(lists, found, None, left, memory);
    }
    narrowed(lists, found, Some(filter), left, memory)
}

/// The view by a look at each row, in an order that the board has or sorted.
fn of_all<'a>(
    lists: &mut Lists<'a>,
    board: &'a Frozen,
    filter: Option<&Filter>,
    sort: Option<SortBy>,
    memory: &Row,
) -> Result<View<'a>, NoMemory>
    ensures { IfOk result (λ view. view
        ≡ view_by (option_copied filter.entry) sort memory.now (messages_on board.now)) }
{
    if let Some(by) = sort {
        if let Some(rows) = ordered_rows(board, by) {
            return narrowed(lists, rows, filter, None, memory);
        }
    }
    narrowed(lists, View::all(board.bag().rows()), filter, sort, memory)
}

impl<'a> View<'a> {
    /// The rows of the board that pass the filter with the agent's memory at entry, each as often as it stands there,
    /// by the key in its direction and ties by content ascending; without a sort by content ascending. A column that a
    /// row or the memory lacks counts as 0.
    ///
    /// Where the filter asks for a number in column 0 and no row is empty, and where it asks for one in a column by which
    /// the board keeps an index, two binary searches find the rows, or two look-ups where the index has a table of starts;
    /// they are tested only where the filter says more. A sort takes n log n comparisons for the n rows that pass, but for
    /// a key that the board keeps, for the column of that number, and for column 0 with the least number first where no
    /// row is empty: these take none. Where nothing is left to test and to sort no memory is taken, and else that for the list
    /// of the rows that pass; their sort takes none beside it. `NoMemory` comes where none is found for it.
    pub fn new(
        alloc: Global,
        board: &'a Frozen,
        filter: Option<&Filter>,
        sort: Option<SortBy>,
        memory: &Row,
    ) -> Result<View<'a>, NoMemory>
        ensures { IfOk result (λ view. view
            ≡ view_by (option_copied filter.entry) sort memory.now (messages_on board.now)) }
    {
        View::within(&mut Lists::new(alloc), board, filter, sort, memory)
    }

    /// The same view. Rows that are picked are picked into one of these lists, which takes memory only where they are more
    /// than it has room for.
    pub(crate) fn within(
        lists: &mut Lists<'a>,
        board: &'a Frozen,
        filter: Option<&Filter>,
        sort: Option<SortBy>,
        memory: &Row,
    ) -> Result<View<'a>, NoMemory>
        ensures { IfOk result (λ view. view
            ≡ view_by (option_copied filter.entry) sort memory.now (messages_on board.now)) }
    {
        if let Some(filter) = filter {
            if let Some(found) = found(board, filter, memory) {
                return of_found(lists, found, board.bag().rows(), filter, sort, memory);
            }
        }
        of_all(lists, board, filter, sort, memory)
    }
}
