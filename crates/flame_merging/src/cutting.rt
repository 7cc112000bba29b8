//! Lists of rows are cut into parts, each of which has the rows between two bounds.

ghost use Rattle.std.specs.Prelude.{◌≡◌, ◌+◌, ◌++◌, ℕ, ℤ, List, IfOk};
ghost use Rattle.flame_rows.specs.Bags.{weigh};
ghost use Rattle.flame_merging.specs.RowLists.{rows_in, weigh_parts};

use flame_rows::{NoMemory, Row};
use std::alloc::Global;

/// The rows in front of the first that does not go before the bound, and the others, where the list ascends.
fn cut(list: Vec<Row>, bound: &Row) -> Result<(Vec<Row>, Vec<Row>), NoMemory>
    ensures { IfOk result (λ parts. parts.0.items ++ parts.1.items ≡ list.items) }
{
    let mut front = list;
    let at = front
        .as_slice()
        .partition_point(|row: &Row| row.compare(bound).is_lt());
    let back = front.split_off(at)?;
    Ok((front, back))
}

/// The fronts of all lists, and their backs.
fn cut_all(
    alloc: Global,
    lists: Vec<Vec<Row>>,
    bound: &Row,
) -> Result<(Vec<Vec<Row>>, Vec<Vec<Row>>), NoMemory>
    ensures { IfOk result (λ parts. (weight : List ℤ → ℕ)
        → weigh weight (rows_in parts.0.items) + weigh weight (rows_in parts.1.items)
        ≡ weigh weight (rows_in lists.items)) }
{
    let mut fronts = Vec::new(alloc);
    let mut backs = Vec::new(alloc);
    for list in lists {
        let (front, back) = cut(list, bound)?;
        fronts.push(front)?;
        backs.push(back)?;
    }
    Ok((fronts, backs))
}

/// The parts into which these bounds, which ascend, cut the lists: the last first. Each has a list of each of them.
pub(crate) fn parts_of(
    alloc: Global,
    lists: Vec<Vec<Row>>,
    bounds: Vec<Row>,
) -> Result<Vec<Vec<Vec<Row>>>, NoMemory>
    ensures { IfOk result (λ parts. (weight : List ℤ → ℕ)
        → weigh_parts weight parts.items ≡ weigh weight (rows_in lists.items)) }
{
    let mut parts = Vec::new(alloc);
    let mut rest = lists;
    for bound in bounds.iter().rev() {
        let (fronts, backs) = cut_all(alloc, rest, bound)?;
        rest = fronts;
        parts.push(backs)?;
    }
    parts.push(rest)?;
    Ok(parts)
}
