//! The line of an iteration that faulted.

ghost use Rattle.std.specs.Prelude.{◌≡◌, ◌++◌, IfOk, OnOk, codes, decimal, map, slice_get, string_bytes};
ghost use Rattle.std.specs.Fmt.{signed_decimal};
ghost use Rattle.flame_report.specs.FaultLines.{sim_line};
ghost use Rattle.flame_report.specs.LineParts.{memory_among, memory_text, name_among};
ghost use Rattle.flame_lookup.specs.WordsFound.{place_found};
ghost use Rattle.flame_ops.specs.CauseNames.{name_of_cause};

use crate::memories::push_memory;
use crate::named::{listed_functions, push_function};
use flame_lookup::Transition;
use flame_ops::Cause;
use flame_rows::{Blob, NoMemory};
use flame_spec::{Model, Variable};
use flame_world::SimFault;
use itoa::Buffer;
use std::alloc::Global;
use std::fmt::Write;

/// The variables of the memory on which the function of this number runs; none where there is no such function.
fn memory_among<'a>(places: &[Transition<'a>], function: u32) -> &'a [Variable]
    ensures { result.now ≡ memory_among (map place_found places.now) function }
{
    match places.get(function as usize) {
        Some(place) => place.agent.memory.items(),
        None => &[],
    }
}

/// What stands before the function.
fn opening(alloc: Global, iteration: i32) -> Result<String, NoMemory>
    ensures { IfOk result (λ text. string_bytes text ≡ codes "fault: iteration " ++ signed_decimal iteration ++ codes ": ") }
{
    let mut digits = Buffer::new();
    let number = digits.format(iteration);
    Ok(format!(in alloc; "fault: iteration {number}: ")?)
}

/// Adds the cause and its line, and the word before the memory.
fn push_cause(text: &mut String, cause: Cause, line: u32) -> Result<(), NoMemory>
    ensures { OnOk result (string_bytes text.new ≡ string_bytes text.old
        ++ (codes ": " ++ name_of_cause cause ++ codes " at line " ++ decimal line ++ codes ": memory")) }
{
    let name = cause.name();
    let mut digits = Buffer::new();
    let number = digits.format(line);
    write!(text, ": {name} at line {number}: memory")?;
    Ok(())
}

/// Adds the function that faulted, why and where, and the memory at entry.
fn push_fault(
    text: &mut String,
    places: &[Transition<'_>],
    fault: &SimFault,
) -> Result<(), NoMemory>
    ensures { OnOk result (string_bytes text.new ≡ string_bytes text.old
        ++ (name_among (map place_found places.now) fault.now.function
        ++ (codes ": " ++ name_of_cause fault.now.cause ++ codes " at line " ++ decimal fault.now.line ++ codes ": memory")
        ++ memory_text (memory_among (map place_found places.now) fault.now.function) fault.now.memory)) }
{
    push_function(text, places, fault.function)?;
    push_cause(text, fault.cause, fault.line)?;
    let variables = memory_among(places, fault.function);
    push_memory(text, variables, fault.memory.values())
}

/// The line of an iteration that faulted: `fault: iteration I: TYPE.FUNCTION: CAUSE at line L: memory x=1 y=[2,3]`, with
/// the memory of the agent that faulted, as it was at entry, and nothing behind `memory` where its type has no variables. The
/// error is want of memory.
pub fn sim_text(alloc: Global, model: &Model, fault: &SimFault) -> Result<Blob, NoMemory>
    ensures { IfOk result (λ line. line ≡ sim_line model.now fault.now) }
{
    let places = listed_functions(alloc, model)?;
    let mut text = opening(alloc, fault.iteration)?;
    push_fault(&mut text, places.as_slice(), fault)?;
    text.push_str("\n")?;
    Ok(Blob::of(text.into_bytes()))
}
