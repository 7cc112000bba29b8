//! What stands behind what.

ghost use Rattle.std.specs.Prelude.{◌≡◌, ℕ, ◌<◌, [], true, IfOk, OnOk, IsTrue, length, map, slice_index, slice_index_or};
ghost use Rattle.flame_spec.specs.Before.{before, function_count};
ghost use Rattle.flame_spec.specs.Below.{is_in};
ghost use Rattle.flame_spec.specs.ModelOrder.{model_order};
ghost use Rattle.flame_depend.specs.Edges.{edges_of};
ghost use Rattle.flame_events.specs.LegalEvents.{outputs_of};
ghost use Rattle.flame_flow.specs.KeptWays.{has_edge, with_added, IsWaysOf};

use flame_depend::{Edge, edges};
use flame_program::Program;
use flame_rows::{NoMemory, number};
use flame_spec_laws::{orders, ranks};
use std::alloc::Global;

/// The ranks of functions, and which functions stand behind each.
#[derive(Debug, Drop)]
pub(crate) struct Ways {
    /// The rank of each function, in document order.
    pub ranks: Vec<u32>,
    /// The functions before which each stands, in document order.
    pub next: Vec<Vec<u32>>,
}

/// The ranks of functions that run in this order, which is that of the program.
fn ranks_of(alloc: Global, program: &Program) -> Result<Vec<u32>, NoMemory>
    ensures { IfOk result (λ ranks. (rank : ℕ)
        → rank < length (model_order program.now.model)
        → slice_index ranks.items (slice_index (model_order program.now.model) rank) ≡ rank) }
{
    orders();
    ranks();
    let order = program.plan().order.items();
    let mut ranks = vec![in alloc; 0u32; program.functions()]?;
    for rank in 0..order.len() {
        let next = number(rank)?;
        ranks[order[rank] as usize] = next;
    }
    Ok(ranks)
}

/// `count` empty lists.
fn empty_lists(alloc: Global, count: usize) -> Result<Vec<Vec<u32>>, NoMemory>
    ensures long { IfOk result (λ lists. length lists.items ≡ count) }
    ensures empty { IfOk result (λ lists. (place : ℕ)
        → slice_index_or (map (λ list. list.items) lists.items) place [] ≡ []) }
{
    let mut lists = Vec::new(alloc);
    for _list in 0..count {
        lists.push(Vec::new(alloc))?;
    }
    Ok(lists)
}

/// The number joins the list at this place, where there is one.
fn add(lists: &mut Vec<Vec<u32>>, place: u32, number: u32) -> Result<(), NoMemory>
    ensures { OnOk result (map (λ list. list.items) lists.new.items
        ≡ with_added place number (map (λ list. list.items) lists.old.items)) }
{
    if (place as usize) < lists.len() {
        lists[place as usize].push(number)?;
    }
    Ok(())
}

/// For each of so many functions those to which these edges lead.
fn next_of(alloc: Global, count: usize, edges: &[Edge]) -> Result<Vec<Vec<u32>>, NoMemory>
    ensures { IfOk result (λ next. (function other : ℕ)
        → function < count
        → is_in other (slice_index_or (map (λ list. list.items) next.items) function []) ≡ has_edge function other edges.now) }
{
    let mut next = empty_lists(alloc, count)?;
    for edge in edges {
        add(&mut next, edge.before, edge.after)?;
    }
    Ok(next)
}

/// The ways of a program, of which 32 bits can number the parts, else `NoMemory`.
pub(crate) fn ways_of(alloc: Global, program: &Program) -> Result<Ways, NoMemory>
    ensures { IfOk result (IsWaysOf program.now.model) }
{
    if !program.source().model.is_counted() {
        return Err(NoMemory);
    }
    ranks();
    let ranks = ranks_of(alloc, program)?;
    let edges = edges(alloc, &program.source().model)?;
    let next = next_of(alloc, program.functions(), edges.items())?;
    Ok(Ways { ranks, next })
}

/// The messages that the function of this number outputs, by number; none where there is no such function.
pub(crate) fn outputs_at(program: &Program, function: u32) -> &[u32]
    ensures { result.now ≡ outputs_of program.now.model function }
{
    match program.routes().routes.items().get(function as usize) {
        Some(route) => route.outputs.items(),
        None => &[],
    }
}
