//! The reader of command lines.

ghost use Rattle.std.specs.Prelude.{◌≡◌, map, string_bytes, IfOk, IfErr};
ghost use Rattle.flame_words.specs.WordRoles.{roles};
ghost use Rattle.flame_words.specs.UsageFaults.{line_behind};
ghost use Rattle.flame_words.specs.CommandLines.{answer_of, order_of, IsRefused};
ghost use Rattle.flame_words.specs.OrderLimits.{IsWithin};
ghost use Rattle.flame_words.specs.WordSteps.{seen_of, IsRead};

use crate::faults::Usage;
use crate::make::order_from;
use crate::orders::Order;
use crate::reading::Reading;
use crate::table::Command;
use flame_rows::{Fail, Text};
use std::alloc::Global;

/// The order that the words of a command line give, the program's name not among them.
///
/// The words are read from the left. Word 1 is the command. A later word is the value of the option before it, whatever
/// it begins with; else it is an option where it begins with `--`, and else the next positional word. `Fault` is the
/// first fault of usage, and comes exactly where there is one; `NoMemory` is want of memory. There may be any number of
/// words: the first fault lies among the first thirty, and no word behind it is looked at.
pub fn order(alloc: Global, words: &[String]) -> Result<Order, Fail<Usage>>
    ensures order { IfOk result (λ order. order_of (map string_bytes words.now) ≡ Ok order) }
    ensures limits { IfOk result IsWithin }
    ensures fault { IfErr result (IsRefused (order_of (map string_bytes words.now))) }
{
    let Some((first, later)) = words.split_first() else {
        return Err(Fail::Fault(Usage::NoCommand));
    };
    match Command::of(first.as_str()) {
        Some(command) => order_behind(alloc, command, later),
        None => Err(Fail::Fault(Usage::UnknownCommand(1))),
    }
}

/// The order that a command and the words behind it give.
fn order_behind(alloc: Global, command: Command, words: &[String]) -> Result<Order, Fail<Usage>>
    ensures order { IfOk result
        (λ order. answer_of (line_behind command (map string_bytes words.now)) ≡ Ok order) }
    ensures fault { IfErr result
        (IsRefused (answer_of (line_behind command (map string_bytes words.now)))) }
{
    let reading = read_all(alloc, command, words)?;
    if let Some(name) = reading.missing() {
        return Err(Fail::Fault(Usage::Missing(Text::of(alloc, name)?)));
    }
    Ok(order_from(alloc, &reading)?)
}

/// Reads all words behind a command.
fn read_all<'a>(
    alloc: Global,
    command: Command,
    words: &'a [String],
) -> Result<Reading<'a>, Fail<Usage>>
    ensures read { IfOk result (λ reading. IsRead (roles (map string_bytes words.now)) (seen_of reading)) }
    ensures command { IfOk result (λ reading. reading.command ≡ command) }
    ensures fault { IfErr result
        (IsRefused (answer_of (line_behind command (map string_bytes words.now)))) }
{
    let mut reading = Reading::new(alloc, command);
    let mut number: u32 = 1;
    for word in words {
        number += 1;
        reading.read(number, word.as_str())?;
    }
    Ok(reading)
}
