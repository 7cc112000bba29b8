//! Texts of iterations.

ghost use Rattle.std.specs.Prelude.{◌≡◌, IfOk};
ghost use Rattle.flame_popfile.specs.IterationTexts.{text};

use crate::formats::Format;
use crate::wholes::push_text;
use crate::writers::{Alone, Crew};
use flame_program::Program;
use flame_rows::{Blob, NoMemory};
use flame_world::{Boards, World};
use std::alloc::Global;
use std::thread::Threads;

/// The text of an iteration in a version: its number, the constants and agents of its world, and its boards. It has no
/// blanks and ends with one LF; it is written into one growing buffer, in time linear in its length. The error is want of
/// memory, also where 64 bits cannot hold the width of a row.
pub fn text(
    alloc: Global,
    program: &Program,
    format: Format,
    itno: i32,
    world: &World,
    boards: &Boards,
) -> Result<Blob, NoMemory>
    ensures { IfOk result (λ bytes. bytes ≡ text program.now.model format itno world.now boards.now) }
{
    let mut bytes = Vec::new(alloc);
    push_text(
        &Alone,
        &mut bytes,
        &program.source().model,
        format,
        itno,
        world,
        boards,
    )?;
    Ok(Blob::of(bytes))
}

/// The same text, written by so many workers, of which the caller is one: where a type or a board has many rows, each worker
/// writes a run of them to a text of its own, and these are put together. Where threads cannot be started, the caller does
/// their work.
pub fn text_by<R: Threads + Sync>(
    rt: &R,
    alloc: Global,
    workers: u32,
    program: &Program,
    format: Format,
    itno: i32,
    world: &World,
    boards: &Boards,
) -> Result<Blob, NoMemory>
    ensures { IfOk result (λ bytes. bytes ≡ text program.now.model format itno world.now boards.now) }
{
    let mut bytes = Vec::new(alloc);
    push_text(
        &Crew { rt, workers },
        &mut bytes,
        &program.source().model,
        format,
        itno,
        world,
        boards,
    )?;
    Ok(Blob::of(bytes))
}
