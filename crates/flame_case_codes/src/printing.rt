//! Outcomes, as texts.

use flame_rows::Row;
use flame_spec::{Effect, Outcome};
use std::alloc::AllocError;

/// Adds a line for each message and each birth, in the order of adding.
fn print_added(out: &mut String, effect: &Effect) -> Result<(), AllocError> {
    for sent in effect.sent.items() {
        writeln!(out, "sent {} {:?}", sent.message, sent.row.values())?;
    }
    for born in effect.born.items() {
        writeln!(out, "born {} {:?}", born.agent, born.row.values())?;
    }
    Ok(())
}

/// Adds the memory that is left, or that there is none.
fn print_memory(out: &mut String, memory: &Option<Row>) -> Result<(), AllocError> {
    match memory {
        Some(row) => writeln!(out, "memory {:?}", row.values()),
        None => writeln!(out, "removed"),
    }
}

fn print_effect(out: &mut String, effect: &Effect) -> Result<(), AllocError> {
    print_memory(out, &effect.memory)?;
    print_added(out, effect)?;
    writeln!(out, "left {}", effect.fuel)
}

/// Adds the outcome: lines `memory [1, 2]` or `removed`, then `sent 0 [1]` and `born 1 [2]` in the order of adding, then
/// `left 5`, the fuel; or the fault, as `Overflow at line 1`.
pub fn print_outcome(out: &mut String, outcome: &Outcome) -> Result<(), AllocError> {
    match outcome {
        Outcome::Ended(effect) => print_effect(out, effect),
        Outcome::Faulted(fault) => {
            let cause = fault.cause;
            let line = fault.line;
            writeln!(out, "{cause:?} at line {line}")
        }
    }
}
