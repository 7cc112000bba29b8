//! Layers of nodes.

ghost use Rattle.std.specs.Prelude.{◌≡◌, ℕ, ◌^◌, ◌<◌, IfOk, None, length, slice_index};
ghost use Rattle.std.specs.List.{All};
ghost use Rattle.flame_spec.specs.Below.{is_in};
ghost use Rattle.flame_spec.specs.ModelOrder.{order, first_left};
ghost use Rattle.flame_spec.specs.Layers.{layers};
ghost use Rattle.flame_graph.specs.Graph.{AreAscending, follows};
ghost use Rattle.flame_graph.specs.Heights.{lifted};

use crate::lists::Successors;
use flame_rows::NoMemory;
use std::alloc::Global;

/// Lifts each of the successors to this height, unless it is as high already.
fn lift(successors: &[u32], height: u32, heights: &mut [u32])
    requires { All (λ g. g < length heights.old) successors.now }
    ensures { (g : ℕ)
        → g < length heights.old
        → slice_index heights.new g ≡ lifted height (is_in g successors.now) (slice_index heights.old g) }
{
    for successor in successors {
        heights[*successor as usize] = heights[*successor as usize].max(height);
    }
}

/// For each node its layer, where none is left over by this order: 0 where no node stands before it, else 1 more than
/// the greatest layer of those that do.
///
/// # Errors
///
/// `NoMemory` where memory was not found.
pub fn layers(alloc: Global, lists: &[Successors], nodes: &[u32]) -> Result<Vec<u32>, NoMemory>
    requires few { length lists.now < 2 ^ 32 }
    requires ascending { AreAscending lists.now }
    requires order { nodes.now ≡ order (length lists.now) (follows lists.now) }
    requires whole { first_left (length lists.now) (follows lists.now) ≡ None }
    ensures { IfOk result (λ heights. heights.items ≡ layers (length lists.now) (follows lists.now)) }
{
    let mut heights: Vec<u32> = vec![in alloc; 0u32; lists.len()]?;
    for node in nodes {
        let next = heights[*node as usize] + 1;
        lift(lists[*node as usize].numbers(), next, &mut heights);
    }
    Ok(heights)
}
