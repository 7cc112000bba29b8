//! The lines of models whose functions have no order, or of which a type has many start states.

ghost use Rattle.std.specs.Prelude.{◌≡◌, ◌++◌, IfOk, OnOk, codes, map, string_bytes, take};
ghost use Rattle.std.specs.List.{flat_map};
ghost use Rattle.flame_report.specs.FaultLines.{cycle_line, starts_line, depend_line};
ghost use Rattle.flame_report.specs.LineParts.{name_among, with_between};
ghost use Rattle.flame_lookup.specs.WordsFound.{place_found};

use crate::named::{listed_functions, push_function, type_name};
use flame_depend::{CycleFault, DependFault, ManyStarts};
use flame_lookup::Transition;
use flame_rows::{Blob, NoMemory, Text};
use flame_spec::Model;
use std::alloc::Global;
use std::fmt::Write;

/// Adds the functions of these numbers, each behind an arrow.
fn push_arrows(
    text: &mut String,
    places: &[Transition<'_>],
    numbers: &[u32],
) -> Result<(), NoMemory>
    ensures { OnOk result (string_bytes text.new ≡ string_bytes text.old
        ++ flat_map (λ number. codes " -> " ++ name_among (map place_found places.now) number) numbers.now) }
{
    for number in numbers {
        text.push_str(" -> ")?;
        push_function(text, places, *number)?;
    }
    Ok(())
}

/// Adds the functions of these numbers with arrows between them, the first again at the end.
fn push_round(text: &mut String, places: &[Transition<'_>], numbers: &[u32]) -> Result<(), NoMemory>
    ensures { OnOk result (string_bytes text.new ≡ string_bytes text.old
        ++ with_between (codes " -> ") (name_among (map place_found places.now)) (numbers.now ++ take 1 numbers.now)) }
{
    let Some((first, others)) = numbers.split_first() else {
        return Ok(());
    };
    push_function(text, places, *first)?;
    push_arrows(text, places, others)?;
    text.push_str(" -> ")?;
    push_function(text, places, *first)
}

/// Adds these states, each behind a comma and a blank.
fn push_commas(text: &mut String, states: &[Text]) -> Result<(), NoMemory>
    ensures { OnOk result (string_bytes text.new ≡ string_bytes text.old
        ++ flat_map (λ state. codes ", " ++ state) states.now) }
{
    for state in states {
        text.push_str(", ")?;
        text.push_str(state.as_str())?;
    }
    Ok(())
}

/// Adds these states with commas and blanks between them.
fn push_states(text: &mut String, states: &[Text]) -> Result<(), NoMemory>
    ensures { OnOk result (string_bytes text.new ≡ string_bytes text.old
        ++ with_between (codes ", ") (λ state. state) states.now) }
{
    let Some((first, others)) = states.split_first() else {
        return Ok(());
    };
    text.push_str(first.as_str())?;
    push_commas(text, others)
}

/// The line of a cycle.
fn cycle_text(alloc: Global, model: &Model, fault: &CycleFault) -> Result<String, NoMemory>
    ensures { IfOk result (λ text. string_bytes text ≡ cycle_line model.now fault.now.functions) }
{
    let places = listed_functions(alloc, model)?;
    let mut text = String::from_str(alloc, "cycle: ")?;
    push_round(&mut text, places.as_slice(), fault.functions.items())?;
    text.push_str("\n")?;
    Ok(text)
}

/// The line of a type with many start states.
fn starts_text(alloc: Global, model: &Model, fault: &ManyStarts) -> Result<String, NoMemory>
    ensures { IfOk result (λ text. string_bytes text ≡ starts_line model.now fault.now.agent fault.now.states) }
{
    let agent = type_name(model, fault.agent);
    let mut text = format!(in alloc; "states: {agent}: ")?;
    push_states(&mut text, fault.states.items())?;
    text.push_str("\n")?;
    Ok(text)
}

/// The line of a model that has no plan: `cycle: A.f -> B.g -> A.f`, with the first function again at the end, or
/// `states: TYPE: S, T`, with all start states of the type. The error is want of memory.
pub fn depend_text(alloc: Global, model: &Model, fault: &DependFault) -> Result<Blob, NoMemory>
    ensures { IfOk result (λ line. line ≡ depend_line model.now fault.now) }
{
    let text = match fault {
        DependFault::Cycle(cycle) => cycle_text(alloc, model, cycle)?,
        DependFault::Starts(starts) => starts_text(alloc, model, starts)?,
    };
    Ok(Blob::of(text.into_bytes()))
}
