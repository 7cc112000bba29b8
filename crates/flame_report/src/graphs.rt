//! The text of `graph`.

ghost use Rattle.std.specs.Prelude.{◌≡◌, ◌++◌, IfOk, OnOk, map, slice_index, string_bytes};
ghost use Rattle.std.specs.List.{flat_map};
ghost use Rattle.flame_depend.specs.Edges.{edges_of};
ghost use Rattle.flame_depend.specs.Plans.{IsPlan};
ghost use Rattle.flame_spec.specs.Lists.{each};
ghost use Rattle.flame_report.specs.GraphTexts.{rank_line, before_line, edge_line, graph_lines};
ghost use Rattle.flame_lookup.specs.WordsFound.{place_found};

use crate::named::{listed_functions, push_function};
use flame_depend::Edge;
use flame_depend::plans::Plan;
use flame_lookup::Transition;
use flame_program::Program;
use flame_rows::{Blob, NoMemory, Seq};
use flame_spec::Model;
use itoa::Buffer;
use std::alloc::Global;
use std::fmt::Write;

/// The number at this place, 0 behind the end.
fn number_at(numbers: &[u32], at: u32) -> u32
    ensures { result ≡ slice_index numbers.now at }
{
    match numbers.get(at as usize) {
        Some(number) => *number,
        None => 0,
    }
}

/// Adds the line of the function that has this rank and this number.
fn push_rank(
    text: &mut String,
    places: &[Transition<'_>],
    layers: &[u32],
    rank: usize,
    function: u32,
) -> Result<(), NoMemory>
    ensures { OnOk result (string_bytes text.new ≡ string_bytes text.old
        ++ rank_line (map place_found places.now) layers.now rank function) }
{
    let mut ranks = Buffer::new();
    let mut digits = Buffer::new();
    let number = ranks.format(rank);
    let layer = digits.format(number_at(layers, function));
    write!(text, "{number} {layer} ")?;
    push_function(text, places, function)?;
    text.push_str("\n")?;
    Ok(())
}

/// Adds the lines of the functions in the order in which they run.
fn push_ranks(
    text: &mut String,
    places: &[Transition<'_>],
    layers: &[u32],
    order: &[u32],
) -> Result<(), NoMemory>
    ensures { OnOk result (string_bytes text.new ≡ string_bytes text.old
        ++ each (rank_line (map place_found places.now) layers.now) order.now) }
{
    for (rank, function) in order.iter().enumerate() {
        push_rank(text, places, layers, rank, *function)?;
    }
    Ok(())
}

/// Adds the line of two functions of which the first stands before the second.
fn push_before(
    text: &mut String,
    places: &[Transition<'_>],
    before: u32,
    after: u32,
) -> Result<(), NoMemory>
    ensures { OnOk result (string_bytes text.new ≡ string_bytes text.old
        ++ before_line (map place_found places.now) before after) }
{
    text.push_str("before ")?;
    push_function(text, places, before)?;
    text.push_str(" ")?;
    push_function(text, places, after)?;
    text.push_str("\n")?;
    Ok(())
}

/// Adds the lines of these edges.
fn push_edges(text: &mut String, places: &[Transition<'_>], edges: &[Edge]) -> Result<(), NoMemory>
    ensures { OnOk result (string_bytes text.new ≡ string_bytes text.old
        ++ flat_map (edge_line (map place_found places.now)) edges.now) }
{
    for edge in edges {
        push_before(text, places, edge.before, edge.after)?;
    }
    Ok(())
}

/// The text of a model that has this plan and these edges.
fn graph_of(alloc: Global, model: &Model, plan: &Plan, edges: &[Edge]) -> Result<String, NoMemory>
    requires plan { IsPlan model.now plan.now }
    requires edges { edges.now ≡ edges_of model.now }
    ensures { IfOk result (λ text. string_bytes text ≡ graph_lines model.now) }
{
    let places = listed_functions(alloc, model)?;
    let mut text = String::new(alloc);
    push_ranks(
        &mut text,
        places.as_slice(),
        plan.layers.items(),
        plan.order.items(),
    )?;
    push_edges(&mut text, places.as_slice(), edges)?;
    Ok(text)
}

/// The text of `graph`: for each function, in the order in which they run, `RANK LAYER Type.function`, and then for each
/// of these edges `before Type.f Type.g`. The edges are those of the program's model, as `edges` gives them. The text of a
/// model without functions is empty. The error is want of memory.
pub fn graph_text(alloc: Global, program: &Program, edges: &Seq<Edge>) -> Result<Blob, NoMemory>
    requires { edges.now ≡ edges_of program.now.model }
    ensures { IfOk result (λ text. text ≡ graph_lines program.now.model) }
{
    let text = graph_of(
        alloc,
        &program.source().model,
        program.plan(),
        edges.items(),
    )?;
    Ok(Blob::of(text.into_bytes()))
}
