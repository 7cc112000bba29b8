//! How some bags lie beside one another. What is put together of them does not depend on it.

use flame_rows::{Bag, NoMemory, Row};
use std::alloc::Global;

/// How many rows are so many that it pays to start threads for them.
const MANY: usize = 4096;

/// How many rows they have together.
fn count_rows(bags: &[Bag]) -> usize {
    let mut count: usize = 0;
    for bag in bags {
        count = count.saturating_add(bag.rows().len());
    }
    count
}

/// Whether no row of a bag goes before a row of one in front of it.
fn lie_in_order(bags: &[Bag]) -> bool {
    let mut last: Option<&Row> = None;
    for bag in bags {
        let rows = bag.rows();
        if let (Some(last), Some(first)) = (last, rows.first()) {
            if first.compare(last).is_lt() {
                return false;
            }
        }
        last = rows.last().or(last);
    }
    true
}

/// Whether several workers put these together sooner than one.
pub(crate) fn are_worth_it(bags: &[Bag]) -> bool {
    count_rows(bags) >= MANY && !lie_in_order(bags)
}

/// The rows of the longest of them.
fn longest(bags: &[Bag]) -> &[Row] {
    let mut rows: &[Row] = &[];
    for bag in bags {
        if bag.rows().len() > rows.len() {
            rows = bag.rows();
        }
    }
    rows
}

/// Copies of rows at which all are cut into so many parts of about the same length: those that cut the longest of them so.
pub(crate) fn bounds_of(alloc: Global, bags: &[Bag], parts: usize) -> Result<Vec<Row>, NoMemory> {
    let rows = longest(bags);
    let mut bounds = Vec::new(alloc);
    if let Some(size) = rows.len().checked_div(parts) {
        for part in 1..parts {
            if let Some(row) = rows.get(size.saturating_mul(part)) {
                bounds.push(row.copy()?)?;
            }
        }
    }
    Ok(bounds)
}
