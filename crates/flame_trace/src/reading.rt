//! Lines of events, and which line tells an end.

ghost use Rattle.std.specs.Prelude.{◌≡◌};
ghost use Rattle.flame_trace.specs.TraceLines.{event_of, event_of_one, event_of_two, event_of_three, is_end};

use crate::numbers::number_of;
use crate::words::{is_word, next_word};
use flame_events::Event;

/// The event that the line tells: `open F`, `agent F K`, `handin F K M`, `shut F` or `freeze M`. None where it tells none.
pub(crate) fn event_of(line: &[u8]) -> Option<Event>
    ensures { result ≡ event_of line.now }
{
    let (name, left) = next_word(Some(line))?;
    let (first, left) = next_word(left)?;
    let Some((second, left)) = next_word(left) else {
        return event_of_one(name, number_of(first)?);
    };
    let Some((third, left)) = next_word(left) else {
        return event_of_two(name, number_of(first)?, number_of(second)?);
    };
    match next_word(left) {
        Some(_) => None,
        None => event_of_three(
            name,
            number_of(first)?,
            number_of(second)?,
            number_of(third)?,
        ),
    }
}

/// The event of this name with one number.
fn event_of_one(name: &[u8], number: u32) -> Option<Event>
    ensures { result ≡ event_of_one name.now number }
{
    if is_word(name, "open") {
        Some(Event::Open(number))
    } else if is_word(name, "shut") {
        Some(Event::Shut(number))
    } else if is_word(name, "freeze") {
        Some(Event::Freeze(number))
    } else {
        None
    }
}

/// The event of this name with two numbers.
fn event_of_two(name: &[u8], function: u32, piece: u32) -> Option<Event>
    ensures { result ≡ event_of_two name.now function piece }
{
    if is_word(name, "agent") {
        Some(Event::Agent(function, piece))
    } else {
        None
    }
}

/// The event of this name with three numbers.
fn event_of_three(name: &[u8], function: u32, piece: u32, message: u32) -> Option<Event>
    ensures { result ≡ event_of_three name.now function piece message }
{
    if is_word(name, "handin") {
        Some(Event::HandIn(function, piece, message))
    } else {
        None
    }
}

/// Whether the line tells an end.
pub(crate) fn is_end(line: &[u8]) -> bool
    ensures { result ≡ is_end line.now }
{
    is_word(line, "done") || line.starts_with("fault ".as_bytes())
}
