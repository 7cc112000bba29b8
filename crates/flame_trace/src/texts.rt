//! The text of what was recorded.

ghost use Rattle.std.specs.Prelude.{◌≡◌, ◌≤◌, ◌≤ℤ◌, pos, All, IfOk};
ghost use Rattle.flame_trace.specs.TraceLaws.{IsNumberedEvent};
ghost use Rattle.flame_trace.specs.TraceTexts.{trace_text};

use crate::ends::behind_end;
use crate::writing::{push_end, push_events, push_head};
use flame_core::Recorded;
use flame_program::Program;
use flame_rows::{Blob, NoMemory};
use std::alloc::Global;

/// The text of what was recorded of the iteration of this number, whose agents were cut in so many pieces at most for each
/// function, with this fuel for each call of a function: line 1, `trace iteration I pieces P fuel F`; a line for each event,
/// `open F`, `agent F K`, `handin F K M`, `shut F` or `freeze M`; and its end, `done` and behind it the iteration's text in
/// version 1, or the line of the fault, `fault F CAUSE L` and each number of the memory. Each line ends with LF. The error is
/// want of memory.
pub fn trace_text(
    alloc: Global,
    program: &Program,
    iteration: i32,
    pieces: u32,
    fuel: u32,
    recorded: &Recorded,
) -> Result<Blob, NoMemory>
    requires first { pos 1 ≤ℤ iteration }
    requires some { 1 ≤ pieces }
    requires few { pieces ≤ 64 }
    requires enough { fuel ≤ 1000000000 }
    ensures text { IfOk result (λ bytes. bytes
        ≡ trace_text program.now.model iteration pieces fuel recorded.now.turn recorded.now.events) }
    ensures events { IfOk result (λ _. All IsNumberedEvent recorded.now.events) }
{
    let mut text = String::new(alloc);
    push_head(&mut text, iteration, pieces, fuel)?;
    text.push_str("\n")?;
    push_events(&mut text, recorded.events.items())?;
    push_end(&mut text, &recorded.turn)?;
    text.push_str("\n")?;
    let behind = behind_end(alloc, program, iteration, &recorded.turn)?;
    let mut bytes = text.into_bytes();
    bytes.extend_from_slice(behind.bytes())?;
    Ok(Blob::of(bytes))
}
