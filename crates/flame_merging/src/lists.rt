//! Lists of rows.

ghost use Rattle.std.specs.Prelude.{◌≡◌, ◌++◌, ℤ, List, IfOk, OnOk, map};
ghost use Rattle.std.specs.List.{flat_map};
ghost use Rattle.flame_rows.specs.Bags.{ascending};
ghost use Rattle.flame_merging.specs.RowLists.{rows_in};

use flame_rows::{Bag, NoMemory, Row};
use std::alloc::Global;

/// The rows of these bags, a list for each.
pub(crate) fn lists_of(alloc: Global, bags: Vec<Bag>) -> Result<Vec<Vec<Row>>, NoMemory>
    ensures { IfOk result (λ lists. rows_in lists.items ≡ flat_map (λ bag. bag) bags.items) }
{
    let mut lists = Vec::new(alloc);
    for bag in bags {
        lists.push(bag.into_rows())?;
    }
    Ok(lists)
}

/// How many rows the lists have together.
fn count_rows(lists: &[Vec<Row>]) -> usize {
    let mut count: usize = 0;
    for list in lists {
        count = count.saturating_add(list.len());
    }
    count
}

/// Adds rows behind others, so many in all. Where these are all of them, their list is taken as it stands.
fn add(rows: &mut Vec<Row>, more: Vec<Row>, all: usize) -> Result<(), NoMemory>
    ensures { OnOk result (rows.new.items ≡ rows.old.items ++ more.items) }
{
    if rows.is_empty() && more.len() >= all {
        *rows = more;
        return Ok(());
    }
    rows.reserve(all.saturating_sub(rows.len()))?;
    let mut more = more;
    rows.append(&mut more)?;
    Ok(())
}

/// The rows of these lists, one list after another.
fn joined(alloc: Global, lists: Vec<Vec<Row>>) -> Result<Vec<Row>, NoMemory>
    ensures { IfOk result (λ rows. rows.items ≡ rows_in lists.items) }
{
    let all = count_rows(lists.as_slice());
    let mut rows = Vec::new(alloc);
    for list in lists {
        add(&mut rows, list, all)?;
    }
    Ok(rows)
}

/// The rows of these lists in content order. Where each list ascends they are merged.
pub(crate) fn in_order(alloc: Global, lists: Vec<Vec<Row>>) -> Result<Bag, NoMemory>
    ensures { IfOk result (λ bag. bag ≡ ascending (rows_in lists.items)) }
{
    Bag::of_rows(joined(alloc, lists)?)
}
