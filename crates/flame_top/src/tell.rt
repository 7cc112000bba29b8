//! The status and the line on err that tell how an order ended.

ghost use Rattle.std.specs.Prelude.{◌≡◌, OnOk, OnErr};
ghost use Rattle.flame_outside.specs.Printed.{PrintsFront};
ghost use Rattle.flame_outside.specs.Frames.{Grows};
ghost use Rattle.flame_report.specs.FaultLines.{file_line};
ghost use Rattle.flame_top.specs.CallAnswers.{Tells, no_memory_text};
ghost use Rattle.flame_top.specs.EndingLines.{status_of, line_of};
ghost use Rattle.flame_top.specs.Telling.{Answers};

use crate::ending::{Carried, Ending};
use crate::top::Ended;
use flame_outside::{Sink, WriteFail};
use flame_report::file_text;
use flame_rows::{NoMemory, Text};
use std::alloc::Global;

/// What is written where memory was not found. It is a fixed text, and takes none.
const NO_MEMORY: &str = "no memory\n";

/// What is written where the output could not be written.
const OUTPUT_FAULT: &str = "write fault: output\n";

/// The status of an ending.
fn status_of(ending: &Ending) -> u8
    ensures { result ≡ status_of ending.now }
{
    match ending {
        Ending::Done => 0,
        Ending::Refused(_) => 1,
        Ending::RefusedWords(_) => 2,
        Ending::Faulted(_) => 3,
        Ending::NoMemory => 4,
        Ending::ReadFault(_) => 5,
        Ending::FileFault(_) | Ending::OutputFault => 6,
    }
}

/// Writes a line by one write. A write that failed leaves the answer as it is.
fn write_line<S: Sink>(line: &[u8], err: &mut S) -> Result<(), NoMemory>
    ensures tells { OnOk result (Tells line.now (S.seen err.old) (S.seen err.new)) }
    ensures untold { OnErr result (S.seen err.new ≡ S.seen err.old) }
    ensures grows { Grows (S.seen err.old) (S.seen err.new) }
{
    match err.write(line) {
        Ok(()) => Ok(()),
        Err(WriteFail::Failed) => Ok(()),
        Err(WriteFail::NoMemory) => Err(NoMemory),
    }
}

/// Writes what there is to say of a file.
fn write_about<S: Sink>(alloc: Global, what: &str, name: &Text, err: &mut S) -> Result<(), NoMemory>
    ensures tells { OnOk result (Tells (file_line what.now name.now) (S.seen err.old) (S.seen err.new)) }
    ensures untold { OnErr result (S.seen err.new ≡ S.seen err.old) }
    ensures grows { Grows (S.seen err.old) (S.seen err.new) }
{
    let line = file_text(alloc, what, name.as_str())?;
    write_line(line.bytes(), err)
}

/// Writes the line of an ending. Err leaves err as it was.
fn write_ending<S: Sink>(alloc: Global, ending: &Ending, err: &mut S) -> Result<(), NoMemory>
    ensures tells { OnOk result (Tells (line_of ending.now) (S.seen err.old) (S.seen err.new)) }
    ensures quiet { status_of ending.now ≡ 0 → S.seen err.new ≡ S.seen err.old }
    ensures untold { OnErr result (S.seen err.new ≡ S.seen err.old) }
    ensures grows { Grows (S.seen err.old) (S.seen err.new) }
{
    match ending {
        Ending::Done => Ok(()),
        Ending::RefusedWords(line) | Ending::Refused(line) | Ending::Faulted(line) => write_line(
            line.bytes(),
            err,
        ),
        Ending::NoMemory => write_line(NO_MEMORY.as_bytes(), err),
        Ending::ReadFault(name) => write_about(alloc, "read fault", name, err),
        Ending::FileFault(name) => write_about(alloc, "write fault", name, err),
        Ending::OutputFault => write_line(OUTPUT_FAULT.as_bytes(), err),
    }
}

/// Tries once to write that memory was not found, where that is not what was tried before.
fn write_no_memory<S: Sink>(tried: &Ending, err: &mut S)
    ensures front { PrintsFront no_memory_text (S.seen err.old) (S.seen err.new) }
    ensures grows { Grows (S.seen err.old) (S.seen err.new) }
{
    if matches!(tried, Ending::NoMemory) {
        return;
    }
    let _ = write_line(NO_MEMORY.as_bytes(), err);
}

/// Tells how an order ended. Where memory is not found for its line, that is told.
pub(crate) fn tell<S: Sink>(alloc: Global, carried: Carried, err: &mut S) -> Ended
    ensures answers { Answers carried.ending result.status (S.seen err.old) (S.seen err.new) }
    ensures quiet { result.status ≡ 0 → S.seen err.new ≡ S.seen err.old }
    ensures files { result.files ≡ carried.files }
    ensures grows { Grows (S.seen err.old) (S.seen err.new) }
{
    let Carried { ending, files } = carried;
    match write_ending(alloc, &ending, err) {
        Ok(()) => Ended {
            status: status_of(&ending),
            files,
        },
        Err(NoMemory) => {
            write_no_memory(&ending, err);
            Ended { status: 4, files }
        }
    }
}
