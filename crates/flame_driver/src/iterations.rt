//! One iteration of a run.

ghost use Rattle.std.specs.Prelude.{◌≡◌, ◌≤◌, pos, ◌+ℤ◌, ◌<ℤ◌, IfOk, IfErr};
ghost use Rattle.flame_outside.specs.Frames.{OnlyPuts, Grows};
ghost use Rattle.flame_outside.specs.Scripts.{outside};
ghost use Rattle.flame_world.specs.Iterations.{iteration};
ghost use Rattle.flame_world.specs.WorldFits.{FitsModel};
ghost use Rattle.flame_driver.specs.Runs.{Run, run_by};
ghost use Rattle.flame_driver.specs.DriveAnswers.{Drives};
ghost use Rattle.flame_driver.specs.StageStops.{IsWritten, writing_of};

use crate::drivers::{DriveEnd, Driven};
use crate::plans::Plan;
use crate::stages::write_stage;
use flame_outside::{Depot, Sink};
use flame_popfile::Start;
use flame_rows::NoMemory;
use flame_runner::Runner;
use flame_world::Turn;
use flame_world::laws::worlds_keep_their_widths;
use std::alloc::Global;
use std::sync::Wait;
use std::thread::Threads;

/// One iteration, from a start: it is run, and written. What it leaves is what the next one starts from. Where it
/// stops, `files` is 1 where its file was put.
pub(crate) fn iterate_once<Rt: Threads + Wait + Sync, R: Runner, D: Depot, S: Sink>(
    rt: &Rt,
    alloc: Global,
    runner: &mut R,
    plan: &Plan<'_>,
    start: Start,
    depot: &mut D,
    out: &mut S,
) -> Result<Start, Driven>
    requires ready { R.ready runner.old }
    requires last { start.itno <ℤ pos 2147483647 }
    requires fits { FitsModel plan.now.program.now.model start.world }
    ensures number { IfOk result (λ next. next.itno ≡ start.itno +ℤ pos 1) }
    ensures next { IfOk result (λ next. IsWritten (writing_of plan.now)
        (iteration plan.now.program.now start.world (start.itno +ℤ pos 1) plan.now.fuel) next
        (outside (D.seen depot.old) (S.seen out.old)) (outside (D.seen depot.new) (S.seen out.new))) }
    ensures fits { IfOk result (λ next. FitsModel plan.now.program.now.model next.world) }
    ensures stops { IfErr result (λ driven. (later : Start → Run) → Drives (writing_of plan.now) start.itno
        (run_by (start.itno +ℤ pos 1)
        (iteration plan.now.program.now start.world (start.itno +ℤ pos 1) plan.now.fuel) later)
        driven.end driven.files
        (outside (D.seen depot.old) (S.seen out.old)) (outside (D.seen depot.new) (S.seen out.new))) }
    ensures few { IfErr result (λ driven. driven.files ≤ 1) }
    ensures ready { R.ready runner.new }
    ensures puts { OnlyPuts (D.seen depot.old) (D.seen depot.new) }
    ensures grows { Grows (S.seen out.old) (S.seen out.new) }
{
    worlds_keep_their_widths();
    let itno = start.itno + 1;
    match runner.iterate(rt, alloc, plan.program, start.world, itno, plan.fuel) {
        Err(NoMemory) => Err(Driven {
            end: DriveEnd::NoMemory,
            files: 0,
        }),
        Ok(Turn::Faulted(fault)) => Err(Driven {
            end: DriveEnd::Fault(fault),
            files: 0,
        }),
        Ok(Turn::Done(world, boards)) => {
            match write_stage(rt, alloc, plan, itno, &world, &boards, depot, out) {
                Ok(()) => Ok(Start { itno, world }),
                Err(driven) => Err(driven),
            }
        }
    }
}
