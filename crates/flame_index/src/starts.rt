//! Where the numbers of an ascending index begin.

ghost use Rattle.std.specs.Prelude.{◌≡◌, ◌<◌, ◌≤◌, ◌+◌, ◌*◌, ◌^◌, ℤ, ◌≤ℤ◌, int_le, List, pos, ◌+ℤ◌, length, IfOk, IfSome};
ghost use Rattle.std.specs.Ordering.{int_cmp};
ghost use Rattle.flame_rows.specs.Sorted.{IsAscending};
ghost use Rattle.flame_index.specs.IndexBodies.{AreStartsOf, IsBoundOf, IsLessBelow, IsStartOf, IsTableOf, LieBetween};

use flame_rows::{NoMemory, number};
use std::alloc::Global;

/// A table of starts beside ascending values: the count in place k is how many of them are less than `least` and k. It
/// goes to one past the greatest of them. There are no counts where the values are not dense.
#[derive(Debug, Drop)]
pub struct Starts {
    least: i32,
    counts: Vec<u32>,
}

impl Starts {
    /// A table without counts.
    pub fn none(alloc: Global) -> Starts
        ensures { (values : List ℤ) → IsTableOf result.least result.counts.items values }
    {
        Starts {
            least: 0,
            counts: Vec::new(alloc),
        }
    }

    /// The table for these values; it has no counts where they are not dense, and where memory for it is not found.
    pub fn of(alloc: Global, values: &[i32]) -> Starts
        requires { IsAscending int_cmp values.now }
        ensures { IsTableOf result.least result.counts.items values.now }
    {
        match (values.first(), values.last()) {
            (Some(least), Some(greatest)) => between(alloc, values, *least, *greatest),
            _ => Starts::none(alloc),
        }
    }

    /// How many of the values a search for the number goes past, where there is a table.
    pub fn passed(&self, wanted: i32, through: bool) -> Option<usize>
        ensures { (values : List ℤ) → IsTableOf self.now.least self.now.counts.items values
            → IfSome result (λ place. IsBoundOf through wanted values place) }
    {
        if through {
            self.before(i64::from(wanted) + 1)
        } else {
            self.before(i64::from(wanted))
        }
    }

    /// How many of the values are less than the number, where there is a table. The number is one past those of 32 bits
    /// at most.
    fn before(&self, wanted: i64) -> Option<usize>
        requires { wanted ≤ℤ pos 2147483648 }
        ensures { (values : List ℤ) → IsTableOf self.now.least self.now.counts.items values
            → IfSome result (λ place. IsStartOf wanted values place) }
    {
        match self
            .counts
            .get(nearest(self.least, wanted, self.counts.len()))
        {
            Some(count) => Some(*count as usize),
            None => None,
        }
    }
}

/// The place of the number in a table of so many counts, of which the first is for the least number; of a number that
/// the table does not reach, the place that is nearest.
fn nearest(least: i32, wanted: i64, extent: usize) -> usize
    requires { wanted ≤ℤ pos 2147483648 }
    ensures low { 0 < result → (least +ℤ pos result) ≤ℤ wanted }
    ensures high { result + 1 < extent → wanted ≤ℤ (least +ℤ pos result) }
{
    if wanted < i64::from(least) {
        return 0;
    }
    let place = (wanted - i64::from(least)) as usize;
    if place < extent {
        place
    } else {
        extent.saturating_sub(1)
    }
}

/// How many counts there are for so many values from the least to the greatest, to one past it: none where their width
/// is at least 4 times as great as they are many.
fn extent(least: i32, greatest: i32, many: usize) -> usize
    ensures wide { 0 < result → (least +ℤ pos result) ≡ (greatest +ℤ pos 2) }
    ensures small { result ≤ 4 * many + 1 }
    ensures narrow { result ≤ 2 ^ 32 + 1 }
{
    let width = i64::from(greatest) - i64::from(least);
    if width < 0 {
        return 0;
    }
    let width = width as usize;
    if width / 4 < many { width + 2 } else { 0 }
}

/// The table for values from the least to the greatest.
fn between(alloc: Global, values: &[i32], least: i32, greatest: i32) -> Starts
    requires ascending { IsAscending int_cmp values.now }
    requires bounds { LieBetween least greatest values.now }
    ensures { IsTableOf result.least result.counts.items values.now }
{
    match counted(alloc, values, least, extent(least, greatest, values.len())) {
        Ok(counts) => Starts { least, counts },
        Err(_) => Starts::none(alloc),
    }
}

/// `extent` counts for these values, from the least on.
fn counted(alloc: Global, values: &[i32], least: i32, extent: usize) -> Result<Vec<u32>, NoMemory>
    requires ascending { IsAscending int_cmp values.now }
    requires narrow { extent ≤ 2 ^ 32 + 1 }
    ensures long { IfOk result (λ counts. length counts.items ≡ extent) }
    ensures starts { IfOk result (λ counts. AreStartsOf least counts.items values.now) }
{
    let mut counts = Vec::with_capacity(alloc, extent)?;
    let mut at = 0;
    for place in 0..extent {
        at = start(values, at, i64::from(least) + place as i64);
        counts.push(number(at)?)?;
    }
    Ok(counts)
}

/// Where the values begin that are not less than the number: from this place on, before which all are less.
fn start(values: &[i32], from: usize, wanted: i64) -> usize
    requires ascending { IsAscending int_cmp values.now }
    requires within { from ≤ length values.now }
    requires passed { IsLessBelow wanted values.now from }
    ensures { IsStartOf wanted values.now result }
{
    let mut at = from;
    while at < values.len() {
        if stops(values[at], wanted) {
            return at;
        }
        at += 1;
    }
    at
}

/// Whether the value is not less than the number.
fn stops(value: i32, wanted: i64) -> bool
    ensures { result ≡ int_le wanted value }
{
    wanted <= i64::from(value)
}
