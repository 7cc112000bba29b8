//! What is made of the parts of a population.

ghost use Rattle.std.specs.Prelude.{◌≡◌, pos, replicate, option_map, IfSome};
ghost use Rattle.flame_rows.specs.Bags.{ascending};
ghost use Rattle.flame_rows.specs.RowVectors.{bags_of};
ghost use Rattle.flame_tokens.specs.PopulationTrees.{number_or, values_or};

use flame_rows::{Bag, Row, Seq};
use std::alloc::Global;

/// The number of the iteration, 0 where none was read.
pub(crate) fn number_or(itno: Option<i32>) -> i32
    ensures { result ≡ number_or itno }
{
    match itno {
        Some(itno) => itno,
        None => 0,
    }
}

/// `count` zeros.
fn zeros(alloc: Global, count: usize) -> Option<Vec<i32>>
    ensures { IfSome result (λ row. row.items ≡ replicate count (pos 0)) }
{
    let mut row = Vec::new(alloc);
    for _turn in 0..count {
        row.push(0).ok()?;
    }
    Some(row)
}

/// The constants, so many zeros where none were read.
pub(crate) fn constants_or(alloc: Global, constants: Option<Vec<i32>>, count: usize) -> Option<Row>
    ensures { IfSome result (λ row.
        row ≡ values_or count (option_map (λ values. values.items) constants)) }
{
    match constants {
        Some(values) => Some(Row::of(values)),
        None => Some(Row::of(zeros(alloc, count)?)),
    }
}

/// The bags of these rows.
pub(crate) fn bags_of(alloc: Global, dealt: Vec<Vec<Row>>) -> Option<Seq<Bag>>
    ensures { IfSome result (λ bags. bags ≡ bags_of dealt) }
{
    let mut bags = Vec::new(alloc);
    for rows in dealt {
        bags.push(bag_of(rows)?).ok()?;
    }
    Some(Seq::of(bags))
}

/// The bag of these rows.
fn bag_of(rows: Vec<Row>) -> Option<Bag>
    ensures { IfSome result (λ bag. bag ≡ ascending rows.items) }
{
    Bag::of_rows(rows).ok()
}
