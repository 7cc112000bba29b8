//! `replay`: the verdict on the trace in a file.

ghost use Rattle.std.specs.Prelude.{◌≡◌, ◌<◌, ◌≤◌, ◌^◌, Some, false, pos, ◌+ℤ◌, ◌≤ℤ◌, length, codes, IfOk, IfErr};
ghost use Rattle.flame_outside.specs.Files.{Files};
ghost use Rattle.flame_outside.specs.Frames.{OnlyReads, Grows};
ghost use Rattle.flame_outside.specs.Failures.{ReadFailed};
ghost use Rattle.flame_outside.specs.Scripts.{outside};
ghost use Rattle.flame_world.specs.WorldFits.{FitsModel};
ghost use Rattle.flame_world.specs.Verdicts.{is_yes};
ghost use Rattle.flame_report.specs.FaultLines.{trace_line};
ghost use Rattle.flame_load.specs.FileReads.{file_in};
ghost use Rattle.flame_load.specs.TextReads.{Reader, ReadsTexts};
ghost use Rattle.flame_trace.specs.TraceVerdicts.{verdict};
ghost use Rattle.flame_top.specs.OrderReports.{trace_read, replay_start, replay_source, replay_reading};
ghost use Rattle.flame_top.specs.Printing.{EndsPrint};
ghost use Rattle.flame_top.specs.Standing.{Carries, Keeps, IsFaulted};
ghost use Rattle.flame_top.specs.InputAnswers.{Gives, StopsReading, IsReadFault, IsReadEnding};
ghost use Rattle.flame_top.specs.TraceReports.{trace_limit, events_line};
ghost use Rattle.flame_top.specs.TraceAnswers.{EndsReplay, IsEnding};

use crate::ending::{Carried, Ending};
use crate::inputs::{program_in, start_in};
use crate::refusals::{file_ending, refused};
use crate::traces::print_events;
use flame_load::FileFault;
use flame_outside::{Depot, Got, ReadFail, Sink};
use flame_popfile::Start;
use flame_program::Program;
use flame_report::trace_fault_text;
use flame_rows::{Blob, NoMemory, Text};
use flame_trace::replay;
use flame_world::Verdict;
use std::alloc::Global;

/// The most bytes of a trace.
const TRACE_LIMIT: usize = 67_108_864;

/// The bytes of the file of that name, at most so many, or why the file is not as it is wanted.
fn file_within<D: Depot>(
    depot: &mut D,
    name: &str,
    most: usize,
) -> Result<Result<Blob, FileFault>, ReadFail>
    requires { most < 2 ^ 32 }
    ensures found { (told : Files) → (D.seen depot.old).files ≡ Some told
        → IfOk result (λ found. found ≡ file_in told most name.now) }
    ensures short { IfOk result (λ found. IfOk found (λ bytes. length bytes ≤ most)) }
    ensures failed { IfErr result (λ fail. fail ≡ ReadFail.Failed → ReadFailed (D.seen depot.old) (D.seen depot.new)) }
    ensures reads { OnlyReads (D.seen depot.old) (D.seen depot.new) }
{
    match depot.read(name, most + 1) {
        Ok(Got::Missing) => Ok(Err(FileFault::Missing)),
        Ok(Got::Bytes(bytes)) => {
            if bytes.bytes().len() <= most {
                Ok(Ok(bytes))
            } else {
                Ok(Err(FileFault::TooLarge))
            }
        }
        Err(fail) => Err(fail),
    }
}

/// How an order ends where the file of that name could not be read.
fn read_ending(alloc: Global, name: &str, fail: ReadFail) -> Ending
    ensures ending { IsReadEnding name.now fail result }
{
    match fail {
        ReadFail::Failed => match Text::of(alloc, name) {
            Ok(name) => Ending::ReadFault(name),
            Err(NoMemory) => Ending::NoMemory,
        },
        ReadFail::NoMemory => Ending::NoMemory,
    }
}

/// The bytes of the trace in the file of that name.
fn trace_in<D: Depot>(alloc: Global, depot: &mut D, name: &str) -> Result<Blob, Ending>
    ensures gives { (told : Files) → (D.seen depot.old).files ≡ Some told
        → Gives (λ bytes. bytes) result (trace_read told name.now) }
    ensures short { IfOk result (λ bytes. length bytes ≤ trace_limit) }
    ensures stops { IfErr result StopsReading }
    ensures read_fault { IfErr result (λ ending. IsReadFault ending
        → ReadFailed (D.seen depot.old) (D.seen depot.new)) }
    ensures reads { OnlyReads (D.seen depot.old) (D.seen depot.new) }
{
    match file_within(depot, name, TRACE_LIMIT) {
        Ok(Ok(bytes)) => Ok(bytes),
        Ok(Err(fault)) => Err(file_ending(alloc, name, fault)),
        Err(fail) => Err(read_ending(alloc, name, fail)),
    }
}

/// Prints how many events a trace has whose verdict is Yes.
fn print_replayed<S: Sink>(alloc: Global, events: u32, out: &mut S) -> Ending
    ensures ends { EndsPrint (events_line (codes "replayed") events) (S.seen out.old) (S.seen out.new) result }
    ensures grows { Grows (S.seen out.old) (S.seen out.new) }
{
    match print_events(alloc, "replayed", u64::from(events), out) {
        Ok(()) => Ending::Done,
        Err(ending) => ending,
    }
}

/// How an order ends whose trace, in the file of that name, this verdict refuses.
fn refused_trace(alloc: Global, name: &str, verdict: &Verdict) -> Ending
    requires { is_yes verdict.now ≡ false }
    ensures { IsEnding (Ending.Refused (trace_line name.now verdict.now)) result }
{
    refused(trace_fault_text(alloc, name, verdict))
}

/// How an order ends whose trace, in the file of that name, has this verdict: Yes is printed, with the number of events.
fn verdict_ending<S: Sink>(alloc: Global, name: &str, verdict: Verdict, out: &mut S) -> Ending
    ensures ends { EndsReplay name.now verdict (S.seen out.old) (S.seen out.new) result }
    ensures grows { Grows (S.seen out.old) (S.seen out.new) }
{
    match verdict {
        Verdict::Yes(events) => print_replayed(alloc, events, out),
        _ => refused_trace(alloc, name, &verdict),
    }
}

/// Tells the verdict on the bytes of the trace in the file of that name.
fn check_trace<S: Sink>(
    alloc: Global,
    program: &Program,
    start: &Start,
    name: &str,
    bytes: &[u8],
    out: &mut S,
) -> Ending
    requires fits { FitsModel program.now.model start.now.world }
    requires last { (start.now.itno +ℤ pos 1) ≤ℤ pos 2147483647 }
    requires short { length bytes.now ≤ trace_limit }
    ensures ends { EndsReplay name.now (verdict program.now start.now bytes.now) (S.seen out.old) (S.seen out.new) result }
    ensures grows { Grows (S.seen out.old) (S.seen out.new) }
{
    match replay(alloc, program, start, bytes) {
        Ok(verdict) => verdict_ending(alloc, name, verdict, out),
        Err(NoMemory) => Ending::NoMemory,
    }
}

/// `replay` from a start: reads the trace, and tells the verdict on it.
fn replay_from<D: Depot, S: Sink>(
    alloc: Global,
    program: &Program,
    start: &Start,
    name: &str,
    depot: &mut D,
    out: &mut S,
) -> Carried
    requires fits { FitsModel program.now.model start.now.world }
    requires last { (start.now.itno +ℤ pos 1) ≤ℤ pos 2147483647 }
    ensures carries { (told : Files) → (D.seen depot.old).files ≡ Some told
        → Carries (replay_start told program.now start.now name.now) result.ending result.files
        (outside (D.seen depot.old) (S.seen out.old)) (outside (D.seen depot.new) (S.seen out.new)) }
    ensures keeps { Keeps result.ending result.files
        (outside (D.seen depot.old) (S.seen out.old)) (outside (D.seen depot.new) (S.seen out.new)) }
    ensures faultless { ¬ IsFaulted result.ending }
    ensures files { result.files ≡ 0 }
    ensures reads { OnlyReads (D.seen depot.old) (D.seen depot.new) }
{
    match trace_in(alloc, depot, name) {
        Ok(bytes) => Carried::before_files(check_trace(
            alloc,
            program,
            start,
            name,
            bytes.bytes(),
            out,
        )),
        Err(ending) => Carried::before_files(ending),
    }
}

/// `replay` of a program: reads the population, then the trace, and tells the verdict on it.
fn replay_program<D: Depot, S: Sink>(
    alloc: Global,
    program: &Program,
    pop: &str,
    name: &str,
    depot: &mut D,
    out: &mut S,
) -> Carried
    ensures carries { (told : Files) → (D.seen depot.old).files ≡ Some told
        → Carries (replay_source told program.now pop.now name.now) result.ending result.files
        (outside (D.seen depot.old) (S.seen out.old)) (outside (D.seen depot.new) (S.seen out.new)) }
    ensures keeps { Keeps result.ending result.files
        (outside (D.seen depot.old) (S.seen out.old)) (outside (D.seen depot.new) (S.seen out.new)) }
    ensures faultless { ¬ IsFaulted result.ending }
    ensures files { result.files ≡ 0 }
    ensures reads { OnlyReads (D.seen depot.old) (D.seen depot.new) }
{
    match start_in(alloc, depot, pop, program, 1) {
        Ok(start) => replay_from(alloc, program, &start, name, depot, out),
        Err(ending) => Carried::before_files(ending),
    }
}

/// `replay`: reads the model, then the population, then the trace, and tells the verdict on it.
pub(crate) fn carry_replay<D: Depot, S: Sink>(
    alloc: Global,
    model: &str,
    pop: &str,
    name: &str,
    depot: &mut D,
    out: &mut S,
) -> Carried
    ensures carries { (told : Files) (read : Reader) → (D.seen depot.old).files ≡ Some told → ReadsTexts read
        → Carries (replay_reading read told model.now pop.now name.now) result.ending result.files
        (outside (D.seen depot.old) (S.seen out.old)) (outside (D.seen depot.new) (S.seen out.new)) }
    ensures keeps { Keeps result.ending result.files
        (outside (D.seen depot.old) (S.seen out.old)) (outside (D.seen depot.new) (S.seen out.new)) }
    ensures faultless { ¬ IsFaulted result.ending }
    ensures files { result.files ≡ 0 }
    ensures reads { OnlyReads (D.seen depot.old) (D.seen depot.new) }
{
    match program_in(alloc, depot, model) {
        Ok(program) => replay_program(alloc, &program, pop, name, depot, out),
        Err(ending) => Carried::before_files(ending),
    }
}
