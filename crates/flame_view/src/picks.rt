//! Rows that pass a filter, and rows that are sorted.

ghost use Rattle.std.specs.Prelude.{◌≡◌, ℤ, List, map, Some, IfOk};
ghost use Rattle.std.specs.Option.{option_copied};
ghost use Rattle.flame_rows.specs.Sorted.{sorted_by};
ghost use Rattle.flame_spec.specs.Views.{view_order};
ghost use Rattle.flame_cond.specs.RowTests.{row_passes};
ghost use Rattle.flame_cond.specs.Said.{key_by};
ghost use Rattle.flame_view.specs.Compiled.{is_read_by, picked_by};
ghost use Rattle.flame_view.specs.ViewWays.{in_order_of};

use crate::lists::Lists;
use crate::order::compare;
use crate::shown::View;
use flame_cond::{Filter, RowTest, SortBy};
use flame_rows::{NoMemory, Row};
use std::cmp::Ordering;

/// What the filter asks of a row, for an agent with this memory; without one nothing.
fn asked<'a>(filter: Option<&'a Filter>, memory: &'a Row) -> RowTest<'a>
    ensures { (row : List ℤ) → row_passes result row ≡ is_read_by (option_copied filter.entry) memory.now row }
{
    match filter {
        Some(filter) => filter.row_test(memory),
        None => RowTest::Every,
    }
}

/// The rows of a view that pass the filter with this memory, in its order, in one of the lists.
fn picked<'a>(
    lists: &mut Lists<'a>,
    rows: &View<'a>,
    filter: Option<&Filter>,
    memory: &Row,
) -> Result<Vec<&'a Row>, NoMemory>
    ensures { IfOk result (λ picked.
        map (λ row. row.now) picked.items ≡ picked_by (option_copied filter.entry) memory.now rows.now) }
{
    let test = asked(filter, memory);
    let mut picked = lists.empty();
    for place in 0..rows.len() {
        let row = rows.row(place);
        if test.passes(row) {
            picked.push(row)?;
        }
    }
    Ok(picked)
}

/// The rows in the order of the key. Rows that tie are equal, so that they may change places.
fn sorted<'a>(rows: Vec<&'a Row>, by: SortBy) -> Vec<&'a Row>
    ensures { map (λ row. row.now) result.items
        ≡ sorted_by (view_order (Some (key_by by))) (map (λ row. row.now) rows.entry.items) }
{
    let mut rows = rows;
    rows.sort_unstable_by(
        |a: &&Row, b: &&Row| -> Ordering
            ensures { result ≡ view_order (Some (key_by by)) a.now.now b.now.now }
        { compare(by, a, b) },
    );
    rows
}

/// The rows of a view that pass what is left of a filter, in its order or sorted anew, in one of the lists. Where there
/// is neither a filter nor a sort no list is taken.
pub fn narrowed<'a>(
    lists: &mut Lists<'a>,
    rows: View<'a>,
    filter: Option<&Filter>,
    sort: Option<SortBy>,
    memory: &Row,
) -> Result<View<'a>, NoMemory>
    ensures { IfOk result (λ view.
        view ≡ in_order_of sort (picked_by (option_copied filter.entry) memory.now rows.entry)) }
{
    if let Some(by) = sort {
        let picked = picked(lists, &rows, filter, memory)?;
        return Ok(View::picked(sorted(picked, by)));
    }
    if filter.is_none() {
        return Ok(rows);
    }
    Ok(View::picked(picked(lists, &rows, filter, memory)?))
}
