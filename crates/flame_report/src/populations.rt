//! The line of a fault of a population, and the line that tells of an iteration.

ghost use Rattle.std.specs.Prelude.{◌≡◌, IfOk};
ghost use Rattle.flame_popfile.specs.IterationTexts.{line};
ghost use Rattle.flame_report.specs.PopulationLines.{population_line};

use flame_popfile::{PopFault, line};
use flame_rows::{Blob, NoMemory};
use flame_world::{Boards, World};
use std::alloc::Global;
use std::fmt::Write;

/// The line of a fault of a population: `population: FILE: PATH: KIND`. The error is want of memory.
pub fn pop_text(alloc: Global, file: &str, fault: &PopFault) -> Result<Blob, NoMemory>
    ensures { IfOk result (λ text. text ≡ population_line file.now fault.now) }
{
    let path = fault.path.as_str();
    let kind = fault.kind.name();
    let mut text = String::new(alloc);
    text.push_str("population: ")?;
    write!(text, "{file}: {path}: {kind}\n")?;
    Ok(Blob::of(text.into_bytes()))
}

/// The line that tells of an iteration, that of `flame_popfile`: `iteration I agents A messages M`. The error is want of
/// memory, also where 64 bits cannot number the agents or the messages.
pub fn line_text(alloc: Global, itno: i32, world: &World, boards: &Boards) -> Result<Blob, NoMemory>
    ensures { IfOk result (λ text. text ≡ line itno world.now boards.now) }
{
    line(alloc, itno, world, boards)
}
