//! Cases of partings: `given` has lines `nodes 2` and, where takers are parted by the ranges of a column, `column 0`; the section
//! `takers` has a row a line, as `[1, 2]`. The answer has the rows of each node, as `node 0: [1] [3]`.

ghost use Rattle.std.specs.Prelude.{◌≤◌};

use crate::printing::print_bag;
use crate::readings::bag_in;
use flame_case_files::Case;
use flame_nodes::{Parting, part};
use flame_rows::{Bag, NoMemory};
use std::alloc::{AllocError, Global};

/// By the ranges of the column that the case gives, and by rounds without one.
fn parting_in(case: &Case) -> Parting {
    match case.given("column ").parse::<u32>() {
        Ok(column) => Parting::Ranges(column),
        Err(_) => Parting::Rounds,
    }
}

/// Adds a line for each node.
fn print_bags(out: &mut String, bags: &[Bag]) -> Result<(), AllocError> {
    for (node, bag) in bags.iter().enumerate() {
        write!(out, "node {node}:")?;
        print_bag(out, bag)?;
        writeln!(out, "")?;
    }
    Ok(())
}

/// The takers in a bag for each of so many nodes.
fn parted(alloc: Global, case: &Case, nodes: u32) -> Result<String, NoMemory>
    requires { 1 ≤ nodes }
{
    let takers = bag_in(alloc, case.text("takers"))?;
    let bags = part(alloc, takers, parting_in(case), nodes)?;
    let mut out = String::new(alloc);
    print_bags(&mut out, bags.items())?;
    Ok(out)
}

/// The answer to a case of the kind `part`.
pub fn answer_part(alloc: Global, case: &Case) -> Result<String, AllocError> {
    let nodes = case.given("nodes ").parse::<u32>().unwrap_or(0);
    if nodes == 0 {
        return Ok(String::from_str(alloc, "no nodes\n")?);
    }
    match parted(alloc, case, nodes) {
        Ok(out) => Ok(out),
        Err(NoMemory) => Err(AllocError),
    }
}
