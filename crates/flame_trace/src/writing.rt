//! The lines of a trace. Each call adds one to the text, without the line feed that ends it.

ghost use Rattle.std.specs.Prelude.{◌≡◌, ◌++◌, All, OnOk, codes, decimal, string_bytes};
ghost use Rattle.std.specs.Fmt.{signed_decimal};
ghost use Rattle.flame_ops.specs.CauseNames.{name_of_cause};
ghost use Rattle.flame_trace.specs.TraceLaws.{IsNumberedEvent};
ghost use Rattle.flame_trace.specs.TraceTexts.{end_line, event_line, events_text, fault_line, head_line, memory_words};

use flame_events::Event;
use flame_ops::Cause;
use flame_rows::NoMemory;
use flame_world::{SimFault, Turn};
use itoa::Buffer;
use std::fmt::Write;

/// Adds line 1.
pub(crate) fn push_head(
    text: &mut String,
    iteration: i32,
    pieces: u32,
    fuel: u32,
) -> Result<(), NoMemory>
    ensures { OnOk result (string_bytes text.new ≡ string_bytes text.old ++ head_line iteration pieces fuel) }
{
    let mut iterations = Buffer::new();
    let mut parts = Buffer::new();
    let mut units = Buffer::new();
    let iteration = iterations.format(iteration);
    let pieces = parts.format(pieces);
    let fuel = units.format(fuel);
    write!(
        text,
        "trace iteration {iteration} pieces {pieces} fuel {fuel}"
    )?;
    Ok(())
}

/// Adds a name, which ends with a space, and a number.
fn push_one(text: &mut String, name: &str, number: u32) -> Result<(), NoMemory>
    ensures { OnOk result (string_bytes text.new ≡ string_bytes text.old ++ (name.now ++ decimal number)) }
{
    let mut digits = Buffer::new();
    let number = digits.format(number);
    write!(text, "{name}{number}")?;
    Ok(())
}

/// Adds the line of an event.
pub(crate) fn push_event(text: &mut String, event: Event) -> Result<(), NoMemory>
    ensures text { OnOk result (string_bytes text.new ≡ string_bytes text.old ++ event_line event) }
    ensures numbered { IsNumberedEvent event }
{
    match event {
        Event::Open(function) => push_one(text, "open ", function),
        Event::Agent(function, piece) => push_agent(text, function, piece),
        Event::HandIn(function, piece, message) => push_hand_in(text, function, piece, message),
        Event::Shut(function) => push_one(text, "shut ", function),
        Event::Freeze(message) => push_one(text, "freeze ", message),
    }
}

/// Adds the line of an agent that runs.
fn push_agent(text: &mut String, function: u32, piece: u32) -> Result<(), NoMemory>
    ensures { OnOk result (string_bytes text.new
        ≡ string_bytes text.old ++ (codes "agent " ++ (decimal function ++ (codes " " ++ decimal piece)))) }
{
    let mut functions = Buffer::new();
    let mut pieces = Buffer::new();
    let function = functions.format(function);
    let piece = pieces.format(piece);
    write!(text, "agent {function} {piece}")?;
    Ok(())
}

/// Adds the line of messages that are handed in.
fn push_hand_in(text: &mut String, function: u32, piece: u32, message: u32) -> Result<(), NoMemory>
    ensures { OnOk result (string_bytes text.new ≡ string_bytes text.old
        ++ (codes "handin " ++ (decimal function ++ (codes " " ++ (decimal piece ++ (codes " " ++ decimal message)))))) }
{
    let mut functions = Buffer::new();
    let mut pieces = Buffer::new();
    let mut messages = Buffer::new();
    let function = functions.format(function);
    let piece = pieces.format(piece);
    let message = messages.format(message);
    write!(text, "handin {function} {piece} {message}")?;
    Ok(())
}

/// Adds the lines of these events, each with its line feed.
pub(crate) fn push_events(text: &mut String, events: &[Event]) -> Result<(), NoMemory>
    ensures text { OnOk result (string_bytes text.new ≡ string_bytes text.old ++ events_text events.now) }
    ensures numbered { OnOk result (All IsNumberedEvent events.now) }
{
    for event in events {
        push_event(text, *event)?;
        text.push_str("\n")?;
    }
    Ok(())
}

/// Adds a number behind a space.
fn push_word(text: &mut String, number: i32) -> Result<(), NoMemory>
    ensures { OnOk result (string_bytes text.new ≡ string_bytes text.old ++ (codes " " ++ signed_decimal number)) }
{
    let mut digits = Buffer::new();
    let number = digits.format(number);
    write!(text, " {number}")?;
    Ok(())
}

/// Adds the numbers of a memory, each behind a space.
fn push_memory(text: &mut String, memory: &[i32]) -> Result<(), NoMemory>
    ensures { OnOk result (string_bytes text.new ≡ string_bytes text.old ++ memory_words memory.now) }
{
    for number in memory {
        push_word(text, *number)?;
    }
    Ok(())
}

/// Adds what stands before the memory of a fault.
fn push_cause(text: &mut String, function: u32, cause: Cause, line: u32) -> Result<(), NoMemory>
    ensures { OnOk result (string_bytes text.new ≡ string_bytes text.old
        ++ (codes "fault " ++ (decimal function ++ (codes " " ++ (name_of_cause cause ++ (codes " " ++ decimal line)))))) }
{
    let mut functions = Buffer::new();
    let mut lines = Buffer::new();
    let function = functions.format(function);
    let name = cause.name();
    let line = lines.format(line);
    write!(text, "fault {function} {name} {line}")?;
    Ok(())
}

/// Adds the line of a fault.
fn push_fault(text: &mut String, fault: &SimFault) -> Result<(), NoMemory>
    ensures { OnOk result (string_bytes text.new ≡ string_bytes text.old ++ fault_line fault.now) }
{
    push_cause(text, fault.function, fault.cause, fault.line)?;
    push_memory(text, fault.memory.values())
}

/// Adds the line of the end.
pub(crate) fn push_end(text: &mut String, turn: &Turn) -> Result<(), NoMemory>
    ensures { OnOk result (string_bytes text.new ≡ string_bytes text.old ++ end_line turn.now) }
{
    match turn {
        Turn::Done(_, _) => {
            text.push_str("done")?;
            Ok(())
        }
        Turn::Faulted(fault) => push_fault(text, fault),
    }
}
