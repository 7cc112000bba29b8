//! The file and the line of an iteration.

ghost use Rattle.std.specs.Prelude.{◌≡◌, ◌≤◌, IfErr, OnOk};
ghost use Rattle.flame_outside.specs.Files.{with_file, OthersStay};
ghost use Rattle.flame_outside.specs.Printed.{Prints};
ghost use Rattle.flame_outside.specs.Frames.{OnlyPuts, Grows};
ghost use Rattle.flame_outside.specs.Scripts.{outside, StandsWhole};
ghost use Rattle.flame_popfile.specs.IterationTexts.{text, line};
ghost use Rattle.flame_driver.specs.Runs.{stage};
ghost use Rattle.flame_driver.specs.RunScripts.{file_name, stage_acts};
ghost use Rattle.flame_driver.specs.StageStops.{StopsPut, StopsLine, StopsStage, writing_of};

use crate::drivers::{DriveEnd, Driven};
use crate::names::file_name;
use crate::plans::Plan;
use flame_outside::{Depot, PutFail, Sink, WriteFail};
use flame_popfile::{line, text_by};
use flame_world::{Boards, World};
use std::alloc::Global;
use std::thread::Threads;

/// Puts the file of an iteration.
fn put_file<Rt: Threads + Sync, D: Depot>(
    rt: &Rt,
    alloc: Global,
    plan: &Plan<'_>,
    itno: i32,
    world: &World,
    boards: &Boards,
    depot: &mut D,
) -> Result<(), DriveEnd>
    ensures ok { OnOk result ((D.seen depot.new).files ≡ with_file (file_name plan.now.prefix.now itno)
        (text plan.now.program.now.model plan.now.format itno world.now boards.now) (D.seen depot.old).files) }
    ensures stops { IfErr result (StopsPut itno (D.seen depot.old) (D.seen depot.new)) }
    ensures others { OthersStay (file_name plan.now.prefix.now itno) (D.seen depot.old).files (D.seen depot.new).files }
    ensures puts { OnlyPuts (D.seen depot.old) (D.seen depot.new) }
{
    let name = file_name(alloc, plan.prefix, itno)?;
    let text = text_by(
        rt,
        alloc,
        plan.workers,
        plan.program,
        plan.format,
        itno,
        world,
        boards,
    )?;
    match depot.put(name.as_str(), text.bytes()) {
        Ok(()) => Ok(()),
        Err(PutFail::Failed) => Err(DriveEnd::FileFault(itno)),
        Err(PutFail::NoMemory) => Err(DriveEnd::NoMemory),
    }
}

/// Prints the line of an iteration, by one write.
fn print_line<S: Sink>(
    alloc: Global,
    itno: i32,
    world: &World,
    boards: &Boards,
    out: &mut S,
) -> Result<(), DriveEnd>
    ensures ok { OnOk result (Prints (line itno world.now boards.now) (S.seen out.old) (S.seen out.new)) }
    ensures stops { IfErr result (StopsLine (line itno world.now boards.now) (S.seen out.old) (S.seen out.new)) }
    ensures grows { Grows (S.seen out.old) (S.seen out.new) }
{
    let line = line(alloc, itno, world, boards)?;
    match out.write(line.bytes()) {
        Ok(()) => Ok(()),
        Err(WriteFail::Failed) => Err(DriveEnd::OutputFault),
        Err(WriteFail::NoMemory) => Err(DriveEnd::NoMemory),
    }
}

/// Writes an iteration that is done: its file, and then its line. Where it stops, `files` is 1 where its file was put.
pub(crate) fn write_stage<Rt: Threads + Sync, D: Depot, S: Sink>(
    rt: &Rt,
    alloc: Global,
    plan: &Plan<'_>,
    itno: i32,
    world: &World,
    boards: &Boards,
    depot: &mut D,
    out: &mut S,
) -> Result<(), Driven>
    ensures whole { OnOk result (StandsWhole
        (stage_acts (writing_of plan.now) (stage itno world.now boards.now))
        (outside (D.seen depot.old) (S.seen out.old)) (outside (D.seen depot.new) (S.seen out.new))) }
    ensures stops { IfErr result (λ driven. StopsStage (writing_of plan.now) (stage itno world.now boards.now)
        driven.end driven.files
        (outside (D.seen depot.old) (S.seen out.old)) (outside (D.seen depot.new) (S.seen out.new))) }
    ensures few { IfErr result (λ driven. driven.files ≤ 1) }
    ensures puts { OnlyPuts (D.seen depot.old) (D.seen depot.new) }
    ensures grows { Grows (S.seen out.old) (S.seen out.new) }
{
    if let Err(end) = put_file(rt, alloc, plan, itno, world, boards, depot) {
        return Err(Driven { end, files: 0 });
    }
    if let Err(end) = print_line(alloc, itno, world, boards, out) {
        return Err(Driven { end, files: 1 });
    }
    Ok(())
}
