//! Which functions of a model stand before which.

ghost use Rattle.std.specs.Prelude.{◌≡◌, ◌^◌, ◌<◌, ◌++◌, IsTrue, IfOk, OnOk, length};
ghost use Rattle.flame_spec.specs.Counted.{is_numbered};
ghost use Rattle.flame_spec.specs.Functions.{functions};
ghost use Rattle.flame_depend.specs.Edges.{edges_to, edges_below, edges_of};
ghost use Rattle.flame_graph.specs.Graph.{AreAscending, follows};

use crate::links::link_all;
use crate::place::place_all;
use flame_graph::Successors;
use flame_rows::{NoMemory, Seq};
use flame_spec::Model;
use std::alloc::Global;

/// A function that stands before another one. Functions are numbered from 0 in document order.
#[derive(Clone, Copy, Debug, PartialEq, Eq)]
pub struct Edge {
    /// The number of the function that runs first.
    pub before: u32,
    /// The number of the function that runs after it.
    pub after: u32,
}

/// Adds the edges from a function to each of the targets.
fn push_edges(before: u32, targets: &[u32], edges: &mut Vec<Edge>) -> Result<(), NoMemory>
    ensures { OnOk result (edges.new.items ≡ edges.old.items ++ edges_to before targets.now) }
{
    for target in targets {
        edges.push(Edge {
            before,
            after: *target,
        })?;
    }
    Ok(())
}

/// The edges of all lists, one list after another.
fn flatten(alloc: Global, lists: &[Successors]) -> Result<Vec<Edge>, NoMemory>
    requires few { length lists.now < 2 ^ 32 }
    requires ascending { AreAscending lists.now }
    ensures { IfOk result (λ edges.
        edges.items ≡ edges_below (length lists.now) (length lists.now) (follows lists.now)) }
{
    let mut edges: Vec<Edge> = Vec::new(alloc);
    for (i, list) in lists.iter().enumerate() {
        push_edges(i as u32, list.numbers(), &mut edges)?;
    }
    Ok(edges)
}

/// Every pair of functions of which the first stands before the second, once, in document order of the first and then
/// of the second. A function stands before another where both are of one type and the other leaves the state that it
/// enters, or where the other reads a message that it adds; it may stand before itself. The model is one that
/// `Model::has_few_functions` passes. It takes time and memory for as many edges as there are.
///
/// # Errors
///
/// `NoMemory` where memory was not found.
pub fn edges(alloc: Global, model: &Model) -> Result<Seq<Edge>, NoMemory>
    requires { IsTrue (is_numbered (functions model.now)) }
    ensures { IfOk result (λ edges. edges ≡ edges_of model.now) }
{
    let places = place_all(alloc, model)?;
    let lists = link_all(alloc, model.agents.items().len(), &places)?;
    Ok(Seq::of(flatten(alloc, &lists)?))
}
