//! The inputs of an order: its program, and what a run of it starts from.

ghost use Rattle.std.specs.Prelude.{◌≡◌, Some, pos, ◌+ℤ◌, ◌≤ℤ◌, IfOk, IfErr, IsTrue};
ghost use Rattle.flame_outside.specs.Files.{Files};
ghost use Rattle.flame_outside.specs.Frames.{OnlyReads};
ghost use Rattle.flame_outside.specs.Failures.{ReadFailed};
ghost use Rattle.flame_spec.specs.Counted.{is_counted};
ghost use Rattle.flame_world.specs.WorldFits.{FitsModel};
ghost use Rattle.flame_load.specs.TextReads.{Reader, ReadsTexts};
ghost use Rattle.flame_top.specs.OrderReports.{source_read, start_read};
ghost use Rattle.flame_top.specs.InputAnswers.{Gives, StopsReading, IsReadFault};

use crate::ending::Ending;
use crate::refusals::{load_ending, start_ending};
use flame_load::{load, start};
use flame_outside::Depot;
use flame_popfile::Start;
use flame_popfile::laws::read_populations_fit;
use flame_program::Program;
use std::alloc::Global;

/// The program in the files from the model file of that name on.
pub(crate) fn program_in<D: Depot>(
    alloc: Global,
    depot: &mut D,
    name: &str,
) -> Result<Program, Ending>
    ensures gives { (told : Files) (read : Reader) → (D.seen depot.old).files ≡ Some told → ReadsTexts read
        → Gives (λ program. program) result (source_read read told name.now) }
    ensures counted { IfOk result (λ program. IsTrue (is_counted program.model)) }
    ensures stops { IfErr result StopsReading }
    ensures read_fault { IfErr result (λ ending. IsReadFault ending
        → ReadFailed (D.seen depot.old) (D.seen depot.new)) }
    ensures reads { OnlyReads (D.seen depot.old) (D.seen depot.new) }
{
    match load(alloc, depot, name) {
        Ok(program) => Ok(program),
        Err(fail) => Err(load_ending(alloc, name, fail)),
    }
}

/// What the population file of that name holds, from which so many iterations are to follow.
pub(crate) fn start_in<D: Depot>(
    alloc: Global,
    depot: &mut D,
    name: &str,
    program: &Program,
    turns: u32,
) -> Result<Start, Ending>
    ensures gives { (told : Files) → (D.seen depot.old).files ≡ Some told
        → Gives (λ start. start) result (start_read told program.now turns name.now) }
    ensures fits { IfOk result (λ start. FitsModel program.now.model start.world) }
    ensures first { IfOk result (λ start. pos 0 ≤ℤ start.itno) }
    ensures last { IfOk result (λ start. (start.itno +ℤ pos turns) ≤ℤ pos 2147483647) }
    ensures stops { IfErr result StopsReading }
    ensures read_fault { IfErr result (λ ending. IsReadFault ending
        → ReadFailed (D.seen depot.old) (D.seen depot.new)) }
    ensures reads { OnlyReads (D.seen depot.old) (D.seen depot.new) }
{
    read_populations_fit();
    let _source = program.source();
    match start(alloc, depot, name, program, turns) {
        Ok(start) => Ok(start),
        Err(fail) => Err(start_ending(alloc, name, fail)),
    }
}
