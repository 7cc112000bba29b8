//! Bags in parts. Each part keeps the rows in order, since a part of an ascending list ascends; no row is copied.

ghost use Rattle.std.specs.Prelude.{◌≡◌, ◌==◌, ◌<◌, ◌≤◌, not, nat_le, [], ◌∷◌, ◌++◌, ℤ, List, Bool, length, replicate, take, drop, slice_index_or, slice_set, vec_len, IfOk, OnOk};
ghost use Rattle.std.specs.List.{filter};
ghost use Rattle.std.specs.Vec.Iter.{into_iter_items};
ghost use Rattle.flame_rows.specs.Order.{row_order};
ghost use Rattle.flame_rows.specs.Sorted.{IsAscending};
ghost use Rattle.flame_rows.specs.Parted.{whose, parts_by, TestsBy};
ghost use Rattle.flame_rows.specs.Cuts.{cut};

use crate::bags::Bag;
use crate::fails::NoMemory;
use crate::rows::Row;
use crate::seqs::Seq;
use std::alloc::Global;
use std::vec::IntoIter;

/// `count` bags of no rows.
fn empty_bags(alloc: Global, count: u32) -> Result<Vec<Bag>, NoMemory>
    ensures { IfOk result (λ bags. bags.items ≡ replicate count []) }
{
    let mut bags = Vec::new(alloc);
    for _bag in 0..count {
        bags.push(Bag::empty(alloc))?;
    }
    Ok(bags)
}

/// One row more in the bag of this number.
fn put_into(bags: &mut Vec<Bag>, number: usize, row: Row) -> Result<(), NoMemory>
    requires within { number < vec_len bags.old }
    requires order { IsAscending row_order (slice_index_or bags.old.items number [] ++ row ∷ []) }
    ensures { OnOk result (bags.new.items
        ≡ slice_set bags.old.items number (slice_index_or bags.old.items number [] ++ row ∷ [])) }
{
    bags[number].put(row)
}

/// The bag of the next rows, at most so many, which stand in ascending order.
fn next_run(alloc: Global, rest: &mut IntoIter<Row>, most: usize) -> Result<Bag, NoMemory>
    requires { IsAscending row_order (into_iter_items rest.old) }
    ensures run { IfOk result (λ run. run ≡ take most (into_iter_items rest.old)) }
    ensures rest { OnOk result (into_iter_items rest.new ≡ drop most (into_iter_items rest.old)) }
{
    let mut run = Bag::empty(alloc);
    for _row in 0..most {
        match rest.next() {
            Some(row) => run.put(row)?,
            None => return Ok(run),
        }
    }
    Ok(run)
}

impl Bag {
    /// The rows that pass the test, and all others.
    pub fn parted<F: Fn(&Row) -> bool>(self, test: F) -> Result<(Bag, Bag), NoMemory>
        requires { F.IsAlwaysCallable test }
        ensures passing { (passes : List ℤ → Bool) → TestsBy (F.post test) passes
            → IfOk result (λ parts. parts.0 ≡ filter passes self) }
        ensures others { (passes : List ℤ → Bool) → TestsBy (F.post test) passes
            → IfOk result (λ parts. parts.1 ≡ filter (λ row. not (passes row)) self) }
    {
        let rows = self.into_rows();
        let alloc = *rows.allocator();
        let mut passing = Bag::empty(alloc);
        let mut others = Bag::empty(alloc);
        for row in rows {
            if test(&row) {
                passing.put(row)?;
            } else {
                others.put(row)?;
            }
        }
        Ok((passing, others))
    }

    /// The rows whose choice is this number, and all others. `choices` has the choice of each row, in content order.
    pub fn chosen(self, choices: &[u32], number: u32) -> Result<(Bag, Bag), NoMemory>
        requires { length choices.now ≡ length self }
        ensures takers { IfOk result (λ parts. parts.0 ≡ whose (λ choice. choice == number) self choices.now) }
        ensures others { IfOk result (λ parts. parts.1 ≡ whose (λ choice. not (choice == number)) self choices.now) }
    {
        let rows = self.into_rows();
        let alloc = *rows.allocator();
        let mut takers = Bag::empty(alloc);
        let mut others = Bag::empty(alloc);
        for (row, choice) in rows.into_iter().zip(choices) {
            if *choice == number {
                takers.put(row)?;
            } else {
                others.put(row)?;
            }
        }
        Ok((takers, others))
    }

    /// For each number below `count` the rows whose choice it is, and the rows with another choice. `choices` has the
    /// choice of each row, in content order.
    pub fn parted_by(self, choices: &[u32], count: u32) -> Result<(Seq<Bag>, Bag), NoMemory>
        requires { length choices.now ≡ length self }
        ensures parts { IfOk result (λ parts. parts.0 ≡ parts_by count self choices.now) }
        ensures others { IfOk result (λ parts. parts.1 ≡ whose (λ choice. nat_le count choice) self choices.now) }
    {
        let rows = self.into_rows();
        let alloc = *rows.allocator();
        let mut parts = empty_bags(alloc, count)?;
        let mut others = Bag::empty(alloc);
        for (row, choice) in rows.into_iter().zip(choices) {
            if *choice < count {
                put_into(&mut parts, *choice as usize, row)?;
            } else {
                others.put(row)?;
            }
        }
        Ok((Seq::of(parts), others))
    }

    /// The rows in at most so many pieces, in content order: all as large as an equal share is, rounded up, but the last
    /// one, which may be smaller. Where there are no rows there is no piece.
    pub fn cut_into(self, pieces: u32) -> Result<Seq<Bag>, NoMemory>
        requires { 1 ≤ pieces }
        ensures { IfOk result (λ bags. bags ≡ cut pieces self) }
    {
        let rows = self.into_rows();
        let alloc = *rows.allocator();
        let mut bags = Vec::new(alloc);
        let Some(others) = rows.len().checked_sub(1) else {
            return Ok(Seq::of(bags));
        };
        let size = others / (pieces as usize) + 1;
        let mut rest = rows.into_iter();
        for _piece in 0..pieces {
            let run = next_run(alloc, &mut rest, size)?;
            if run.rows().is_empty() {
                return Ok(Seq::of(bags));
            }
            bags.push(run)?;
        }
        Ok(Seq::of(bags))
    }
}
