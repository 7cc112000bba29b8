//! What stands behind the line of the end.

ghost use Rattle.std.specs.Prelude.{◌≡◌, IfOk};
ghost use Rattle.flame_trace.specs.TraceTexts.{behind_end};

use flame_popfile::{Format, text};
use flame_program::Program;
use flame_rows::{Blob, NoMemory};
use flame_world::Turn;
use std::alloc::Global;

/// What stands behind the line of the end: the iteration's text in version 1, and nothing behind a fault.
pub(crate) fn behind_end(
    alloc: Global,
    program: &Program,
    iteration: i32,
    turn: &Turn,
) -> Result<Blob, NoMemory>
    ensures { IfOk result (λ bytes. bytes ≡ behind_end program.now.model iteration turn.now) }
{
    match turn {
        Turn::Done(world, boards) => text(alloc, program, Format::One, iteration, world, boards),
        Turn::Faulted(_) => Ok(Blob::of(Vec::new(alloc))),
    }
}
