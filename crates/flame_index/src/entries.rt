//! The entries of an index before they lie in it.

ghost use Rattle.std.specs.Prelude.{◌≡◌, IfOk, map};
ghost use Rattle.flame_rows.specs.Sorted.{sorted_by};
ghost use Rattle.flame_index.specs.Indexes.{entries_from, entry_at, entry_order};
ghost use Rattle.flame_index.specs.IndexBodies.{entry_of};

use flame_cond::{SortBy, number_at};
use flame_rows::{NoMemory, Row, number};
use std::alloc::Global;
use std::cmp::Ordering;

/// The number of a row in the column of the key, and its place.
#[derive(Clone, Copy, Debug)]
pub struct Pair {
    /// The number.
    pub value: i32,
    /// The place.
    pub place: u32,
}

/// How two entries stand: by value in this direction, and equal values by place.
fn compare(descending: bool, a: Pair, b: Pair) -> Ordering
    ensures { result ≡ entry_order descending (entry_of a) (entry_of b) }
{
    let values = if descending {
        b.value.cmp(&a.value)
    } else {
        a.value.cmp(&b.value)
    };
    values.then(a.place.cmp(&b.place))
}

/// The entry of a row in this place. NoMemory also where 32 bits do not number the place.
fn of_row(row: &Row, column: u32, place: usize) -> Result<Pair, NoMemory>
    ensures { IfOk result (λ pair. entry_of pair ≡ entry_at column place row.now) }
{
    Ok(Pair {
        value: number_at(row.values(), column),
        place: number(place)?,
    })
}

/// The entry of each row.
fn of_rows(alloc: Global, rows: &[Row], column: u32) -> Result<Vec<Pair>, NoMemory>
    ensures { IfOk result (λ pairs. map entry_of pairs.items ≡ entries_from column 0 rows.now) }
{
    let mut pairs = Vec::with_capacity(alloc, rows.len())?;
    for (place, row) in rows.iter().enumerate() {
        pairs.push(of_row(row, column, place)?)?;
    }
    Ok(pairs)
}

/// The entries in order.
fn sorted(pairs: Vec<Pair>, descending: bool) -> Vec<Pair>
    ensures { map entry_of result.items ≡ sorted_by (entry_order descending) (map entry_of pairs.items) }
{
    let mut pairs = pairs;
    pairs.sort_unstable_by(
        |a: &Pair, b: &Pair| -> Ordering
            ensures { result ≡ entry_order descending (entry_of a.now) (entry_of b.now) }
        { compare(descending, *a, *b) },
    );
    pairs
}

/// The entries of the rows by the key, in order.
pub fn ordered(alloc: Global, rows: &[Row], by: SortBy) -> Result<Vec<Pair>, NoMemory>
    ensures { IfOk result (λ pairs. map entry_of pairs.items
        ≡ sorted_by (entry_order by.descending) (entries_from by.variable 0 rows.now)) }
{
    let pairs = of_rows(alloc, rows, by.variable)?;
    Ok(sorted(pairs, by.descending))
}

/// The values of the entries.
pub fn values(alloc: Global, pairs: &[Pair]) -> Result<Vec<i32>, NoMemory>
    ensures { IfOk result (λ values. values.items ≡ map (λ pair. pair.value) pairs.now) }
{
    Ok(pairs.iter().map(|pair| pair.value).collect(alloc)?)
}

/// The places of the entries.
pub fn places(alloc: Global, pairs: &[Pair]) -> Result<Vec<u32>, NoMemory>
    ensures { IfOk result (λ places. places.items ≡ map (λ pair. pair.place) pairs.now) }
{
    Ok(pairs.iter().map(|pair| pair.place).collect(alloc)?)
}
