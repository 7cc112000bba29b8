//! Takers parted among nodes.

ghost use Rattle.std.specs.Prelude.{◌≡◌, ◌≤◌, ◌%◌, IfOk, OnOk, drop, length, map, take};
ghost use Rattle.std.specs.List.{range_with_len};
ghost use Rattle.std.specs.Vec.Iter.{into_iter_items};
ghost use Rattle.flame_rows.specs.Bags.{ascending};
ghost use Rattle.flame_rows.specs.Sorted.{sorted_by};
ghost use Rattle.flame_nodes.specs.Partings.{parted, ranges, range_order, rounds};

use flame_cond::number_at;
use flame_rows::{Bag, NoMemory, Row, Seq};
use std::alloc::Global;
use std::cmp::Ordering;
use std::vec::IntoIter;

/// How the takers of a function are parted among nodes.
#[derive(Clone, Copy, Debug)]
pub enum Parting {
    /// In turn: the taker in place j in content order goes to node j mod nodes.
    Rounds,
    /// By the numbers in this column: the takers in the order of these numbers, ties by content, in runs as long as an equal share
    /// is, rounded up.
    Ranges(u32),
}

/// The node of each of so many takers, in turn.
fn turns(alloc: Global, takers: usize, nodes: u32) -> Result<Vec<u32>, NoMemory>
    requires { 1 ≤ nodes }
    ensures { IfOk result (λ turns. turns.items ≡ map (λ place. place % nodes) (range_with_len 0 takers)) }
{
    let mut turns = Vec::new(alloc);
    for place in 0..takers {
        turns.push((place % (nodes as usize)) as u32)?;
    }
    Ok(turns)
}

/// The takers in turn.
fn by_rounds(alloc: Global, takers: Bag, nodes: u32) -> Result<Seq<Bag>, NoMemory>
    requires { 1 ≤ nodes }
    ensures { IfOk result (λ bags. bags ≡ rounds nodes takers) }
{
    let turns = turns(alloc, takers.rows().len(), nodes)?;
    let (bags, _none) = takers.parted_by(turns.as_slice(), nodes)?;
    Ok(bags)
}

/// How two rows stand by the numbers in a column, and by content where these are equal.
fn compare(column: u32, one: &Row, two: &Row) -> Ordering
    ensures { result ≡ range_order column one.now two.now }
{
    let own = number_at(one.values(), column);
    let other = number_at(two.values(), column);
    own.cmp(&other).then(one.compare(two))
}

/// The rows by the numbers in a column. Rows that tie are equal, so that they may change places.
fn sorted(rows: Vec<Row>, column: u32) -> Vec<Row>
    ensures { result.items ≡ sorted_by (range_order column) rows.items }
{
    let mut rows = rows;
    rows.sort_unstable_by(
        |one: &Row, two: &Row| -> Ordering
            ensures { result ≡ range_order column one.now two.now }
        { compare(column, one, two) },
    );
    rows
}

/// The next rows, at most so many.
fn next_run(alloc: Global, rest: &mut IntoIter<Row>, most: usize) -> Result<Vec<Row>, NoMemory>
    ensures run { IfOk result (λ run. run.items ≡ take most (into_iter_items rest.old)) }
    ensures rest { OnOk result (into_iter_items rest.new ≡ drop most (into_iter_items rest.old)) }
{
    let mut run = Vec::new(alloc);
    for _row in 0..most {
        match rest.next() {
            Some(row) => run.push(row)?,
            None => return Ok(run),
        }
    }
    Ok(run)
}

/// The takers by the numbers in a column.
fn by_ranges(alloc: Global, takers: Bag, column: u32, nodes: u32) -> Result<Seq<Bag>, NoMemory>
    requires { 1 ≤ nodes }
    ensures { IfOk result (λ bags. bags ≡ ranges column nodes takers) }
{
    let rows = sorted(takers.into_rows(), column);
    let size = rows.len().div_ceil(nodes as usize);
    let mut rest = rows.into_iter();
    let mut bags = Vec::new(alloc);
    for _node in 0..nodes {
        let run = next_run(alloc, &mut rest, size)?;
        bags.push(Bag::gathered(run))?;
    }
    Ok(Seq::of(bags))
}

/// The takers in so many bags, one for each node, of which there is one at least. By rounds the taker in place j in content
/// order is in bag j mod nodes. By the ranges of a column the takers in the order of the numbers in it, ties by content,
/// are cut into runs as long as an equal share is, rounded up, of which the last may be shorter; the bags behind it are
/// empty. A row that has not the column counts as one with a 0 there. No taker is copied; n log n comparisons for n takers
/// at most. NoMemory where memory is not found.
pub fn part(alloc: Global, takers: Bag, parting: Parting, nodes: u32) -> Result<Seq<Bag>, NoMemory>
    requires { 1 ≤ nodes }
    ensures { IfOk result (λ bags. bags ≡ parted parting nodes takers) }
{
    match parting {
        Parting::Rounds => by_rounds(alloc, takers, nodes),
        Parting::Ranges(column) => by_ranges(alloc, takers, column, nodes),
    }
}
