//! Runs, iteration by iteration.

ghost use Rattle.std.specs.Prelude.{◌≡◌, pos, ◌+ℤ◌, ◌≤ℤ◌};
ghost use Rattle.flame_outside.specs.Frames.{OnlyPuts, Grows};
ghost use Rattle.flame_outside.specs.Scripts.{outside};
ghost use Rattle.flame_world.specs.WorldFits.{FitsModel};
ghost use Rattle.flame_driver.specs.Runs.{run};
ghost use Rattle.flame_driver.specs.RunScripts.{written_as};
ghost use Rattle.flame_driver.specs.DriveAnswers.{Drives};

use crate::iterations::iterate_once;
use crate::plans::Plan;
use flame_outside::{Depot, Sink};
use flame_popfile::{Format, Start};
use flame_program::Program;
use flame_rows::NoMemory;
use flame_runner::Runner;
use flame_world::SimFault;
use std::alloc::Global;
use std::sync::Wait;
use std::thread::Threads;

/// How a run ends. Of files and lines this speaks where the devices tell them, else of the end and the counts alone.
#[derive(Debug, Drop)]
pub enum DriveEnd {
    /// All iterations are done, and their files and lines stand.
    Done,
    /// An iteration faulted. The files and lines of those before it stand.
    Fault(SimFault),
    /// The file of the iteration of this number, which is the next one's, could not be put: the depot's count of failed
    /// puts rose. The files and lines of those before it stand; its name alone is in doubt.
    FileFault(i32),
    /// A line could not be written: the output's count of failed writes rose. What stands before it stands; of the line
    /// itself a front may.
    OutputFault,
    /// Memory was not found. What stands so far stands, and nothing is in doubt.
    NoMemory,
}

impl From<NoMemory> for DriveEnd {
    ghost use Rattle.flame_driver.specs.declared.drivers.DriveEnd.TheVariants.{NoMemory as OutOfMemory};

    ghost from_gives = { λ _ end. end ≡ OutOfMemory };

    fn from(_cause: NoMemory) -> DriveEnd {
        DriveEnd::NoMemory
    }
}

/// How a run ended, and what it wrote.
#[derive(Debug, Drop)]
pub struct Driven {
    /// How it ended.
    pub end: DriveEnd,
    /// How many puts answered Ok.
    pub files: u32,
}

/// Runs so many iterations of a program from a start on, by the runner, up to the first that faults (FLAME User
/// Manual). After each it puts its file, whose name is the prefix, the number of the iteration and `.json`, in this
/// format, and then writes its line. `fuel` is that of each call of a function. The text of a file is written by so many
/// workers, of which the caller is one, where it is long; the files are the same whatever their number.
///
/// The runner has to be ready, as it is again at the end. The world of the start has to fit the program's model: a
/// value for each constant, and for each agent type agents as wide as it declares. The last iteration may have at most
/// the number 2147483647.
pub fn drive<Rt: Threads + Wait + Sync, R: Runner, D: Depot, S: Sink>(
    rt: &Rt,
    alloc: Global,
    runner: &mut R,
    program: &Program,
    start: Start,
    turns: u32,
    fuel: u32,
    format: Format,
    prefix: &str,
    workers: u32,
    depot: &mut D,
    out: &mut S,
) -> Driven
    requires ready { R.ready runner.old }
    requires fits { FitsModel program.now.model start.world }
    requires last { (start.itno +ℤ pos turns) ≤ℤ pos 2147483647 }

    // The first acts of the run stand, `files` of them puts, and it ends for a reason: the run is over with all of
    // them, by its fault or without one; or the device of the next act failed; or memory was not found, and nothing is
    // in doubt. Of files and lines this speaks where the devices tell them.
    ensures drives { Drives (written_as program.now.model format prefix.now) start.itno
        (run program.now fuel turns start) result.end result.files
        (outside (D.seen depot.old) (S.seen out.old)) (outside (D.seen depot.new) (S.seen out.new)) }
    ensures ready { R.ready runner.new }
    ensures puts { OnlyPuts (D.seen depot.old) (D.seen depot.new) }
    ensures grows { Grows (S.seen out.old) (S.seen out.new) }
{
    let plan = Plan {
        program,
        fuel,
        format,
        prefix,
        workers,
    };
    let mut start = start;
    for done in 0..turns {
        match iterate_once(rt, alloc, runner, &plan, start, depot, out) {
            Ok(next) => start = next,
            Err(Driven { end, files }) => {
                return Driven {
                    end,
                    files: done + files,
                };
            }
        }
    }
    Driven {
        end: DriveEnd::Done,
        files: turns,
    }
}
