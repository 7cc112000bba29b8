//! Events, as lines of cases: `open 0`, `agent 0 1`, `hand in 0 1 2`, `shut 0` and `freeze 2`, the numbers being those of a
//! function, of a piece of it, and of a message.

use flame_events::Event;
use std::alloc::AllocError;

/// The two numbers.
fn two(text: &str) -> Option<(u32, u32)> {
    let (one, other) = text.split_once(' ')?;
    Some((one.parse::<u32>().ok()?, other.parse::<u32>().ok()?))
}

/// The three numbers.
fn three(text: &str) -> Option<(u32, u32, u32)> {
    let (one, others) = text.split_once(' ')?;
    let (two, three) = two(others)?;
    Some((one.parse::<u32>().ok()?, two, three))
}

/// The event of this line; none where it is no event.
pub(crate) fn event_in(line: &str) -> Option<Event> {
    if let Some(rest) = line.strip_prefix("open ") {
        return Some(Event::Open(rest.parse::<u32>().ok()?));
    }
    if let Some(rest) = line.strip_prefix("agent ") {
        let (function, piece) = two(rest)?;
        return Some(Event::Agent(function, piece));
    }
    if let Some(rest) = line.strip_prefix("hand in ") {
        let (function, piece, message) = three(rest)?;
        return Some(Event::HandIn(function, piece, message));
    }
    if let Some(rest) = line.strip_prefix("shut ") {
        return Some(Event::Shut(rest.parse::<u32>().ok()?));
    }
    let rest = line.strip_prefix("freeze ")?;
    Some(Event::Freeze(rest.parse::<u32>().ok()?))
}

/// Adds the words of the event.
pub(crate) fn print_words(out: &mut String, event: Event) -> Result<(), AllocError> {
    match event {
        Event::Open(function) => write!(out, "open {function}"),
        Event::Agent(function, piece) => write!(out, "agent {function} {piece}"),
        Event::HandIn(function, piece, message) => {
            write!(out, "hand in {function} {piece} {message}")
        }
        Event::Shut(function) => write!(out, "shut {function}"),
        Event::Freeze(message) => write!(out, "freeze {message}"),
    }
}

/// Adds the line of the event.
pub(crate) fn print_event(out: &mut String, event: Event) -> Result<(), AllocError> {
    print_words(out, event)?;
    writeln!(out, "")
}
