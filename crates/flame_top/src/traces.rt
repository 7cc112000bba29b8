//! `trace`: one iteration, and the history of its schedule, written to a file.

ghost use Rattle.std.specs.Prelude.{◌≡◌, Some, pos, ◌+ℤ◌, ◌≤ℤ◌, length, IfOk, IfErr, OnOk, All};
ghost use Rattle.flame_outside.specs.Files.{Files};
ghost use Rattle.flame_outside.specs.Printed.{Prints};
ghost use Rattle.flame_outside.specs.Frames.{Grows};
ghost use Rattle.flame_outside.specs.Scripts.{outside};
ghost use Rattle.flame_words.specs.OrderLimits.{TraceIsWithin};
ghost use Rattle.flame_world.specs.WorldFits.{FitsModel};
ghost use Rattle.flame_report.specs.FaultLines.{sim_line};
ghost use Rattle.flame_load.specs.InputReads.{known};
ghost use Rattle.flame_load.specs.TextReads.{Reader, ReadsTexts};
ghost use Rattle.flame_trace.specs.TraceLaws.{IsNumberedEvent};
ghost use Rattle.flame_trace.specs.TraceTexts.{trace_text};
ghost use Rattle.flame_trace.specs.TraceVerdicts.{next_number};
ghost use Rattle.flame_top.specs.OrderReports.{trace_source, trace_reading, IsTraceOfSource, IsTraceOfInputs};
ghost use Rattle.flame_top.specs.Printing.{StopsPrint};
ghost use Rattle.flame_top.specs.Standing.{Stands, Keeps};
ghost use Rattle.flame_top.specs.InputAnswers.{IsReadFault};
ghost use Rattle.flame_top.specs.TraceReports.{IsTraceOf, next_turn, fault_of, events_line, traced_with, traced};
ghost use Rattle.flame_top.specs.TraceAnswers.{CarriesSome, EndsTrace, IsEnding, text_of};

use crate::ending::{Carried, Ending};
use crate::files::put_file;
use crate::inputs::{program_in, start_in};
use crate::texts::print_text;
use flame_core::Recorded;
use flame_flowrun::FlowRunner;
use flame_outside::{Depot, Gate, Sink};
use flame_popfile::Start;
use flame_program::Program;
use flame_report::sim_text;
use flame_rows::{Blob, NoMemory};
use flame_trace::laws::written_is_yes;
use flame_trace::trace_text;
use flame_words::TraceOrder;
use flame_world::{SimFault, Turn};
use itoa::Buffer;
use std::alloc::Global;
use std::fmt::Write;
use std::sync::Wait;
use std::thread::Threads;

/// What was recorded of an iteration, as it is written.
#[derive(Drop)]
pub(crate) struct Written {
    /// The text of the trace.
    pub(crate) text: Blob,
    /// How many events it has.
    pub(crate) events: u64,
    /// The fault of the iteration, where it has one.
    pub(crate) fault: Option<SimFault>,
}

/// The fault of a turn, where it is one.
fn fault_of(turn: Turn) -> Option<SimFault>
    ensures { result ≡ fault_of turn }
{
    match turn {
        Turn::Done(_, _) => None,
        Turn::Faulted(fault) => Some(fault),
    }
}

/// Writes what was recorded.
fn write_recorded(
    alloc: Global,
    program: &Program,
    iteration: i32,
    order: &TraceOrder,
    recorded: Recorded,
) -> Result<Written, NoMemory>
    requires first { pos 1 ≤ℤ iteration }
    requires within { TraceIsWithin order.now }
    ensures text { IfOk result (λ written. written.text
        ≡ trace_text program.now.model iteration order.now.workers order.now.fuel recorded.turn recorded.events) }
    ensures count { IfOk result (λ written. written.events ≡ length recorded.events) }
    ensures fault { IfOk result (λ written. written.fault ≡ fault_of recorded.turn) }
    ensures events { IfOk result (λ written. All IsNumberedEvent recorded.events) }
{
    let text = trace_text(
        alloc,
        program,
        iteration,
        order.workers,
        order.fuel,
        &recorded,
    )?;
    let events = recorded.events.items().len() as u64;
    let Recorded { turn, .. } = recorded;
    Ok(Written {
        text,
        events,
        fault: fault_of(turn),
    })
}

/// The number of the iteration that comes next from a start.
fn next_number(start: &Start) -> i32
    requires { (start.now.itno +ℤ pos 1) ≤ℤ pos 2147483647 }
    ensures { result ≡ next_number start.now }
{
    start.itno + 1
}

/// The iteration that comes next from a start, as it is ordered, with its history. The workers call the gate just before they
/// run a piece.
fn traced<Rt: Threads + Wait + Sync, G: Gate>(
    rt: &Rt,
    alloc: Global,
    gate: &G,
    program: &Program,
    order: &TraceOrder,
    start: Start,
) -> Result<Written, NoMemory>
    requires fits { FitsModel program.now.model start.world }
    requires first { pos 0 ≤ℤ start.itno }
    requires last { (start.itno +ℤ pos 1) ≤ℤ pos 2147483647 }
    requires within { TraceIsWithin order.now }
    ensures trace { IfOk result (λ written. IsTraceOf order.now program.now start (text_of written)) }
    ensures fault { IfOk result (λ written. written.fault ≡ fault_of (next_turn order.now program.now start)) }
{
    written_is_yes();
    let _source = program.source();
    let iteration = next_number(&start);
    let runner = FlowRunner::new(gate, order.workers);
    let recorded = runner.recorded(rt, alloc, program, start.world, iteration, order.fuel)?;
    let written = write_recorded(alloc, program, iteration, order, recorded)?;
    Ok(written)
}

/// The line that tells how many events there are, behind this word.
fn events_text(alloc: Global, word: &str, events: u64) -> Result<Blob, NoMemory>
    ensures { IfOk result (λ line. line ≡ events_line word.now events) }
{
    let mut numbers = Buffer::new();
    let events = numbers.format(events);
    let line = format!(in alloc; "{word} {events} events\n")?;
    Ok(Blob::of(line.into_bytes()))
}

/// Prints that line.
pub(crate) fn print_events<S: Sink>(
    alloc: Global,
    word: &str,
    events: u64,
    out: &mut S,
) -> Result<(), Ending>
    ensures ok { OnOk result (Prints (events_line word.now events) (S.seen out.old) (S.seen out.new)) }
    ensures stops { IfErr result (StopsPrint (events_line word.now events) (S.seen out.old) (S.seen out.new)) }
    ensures grows { Grows (S.seen out.old) (S.seen out.new) }
{
    let line = events_text(alloc, word, events)?;
    print_text(line.bytes(), out)
}

/// How an order ends whose iteration has this fault.
fn fault_ending(alloc: Global, program: &Program, fault: &SimFault) -> Ending
    ensures { IsEnding (Ending.Faulted (sim_line program.now.model fault.now)) result }
{
    match sim_text(alloc, &program.source().model, fault) {
        Ok(line) => Ending::Faulted(line),
        Err(NoMemory) => Ending::NoMemory,
    }
}

/// Prints how many events a trace has that was put; a fault of the iteration is how the order ends.
fn end_trace<S: Sink>(alloc: Global, program: &Program, written: &Written, out: &mut S) -> Ending
    ensures ends { EndsTrace program.now.model written.now.events written.now.fault (S.seen out.old) (S.seen out.new) result }
    ensures grows { Grows (S.seen out.old) (S.seen out.new) }
{
    match &written.fault {
        None => match print_events(alloc, "traced", written.events, out) {
            Ok(()) => Ending::Done,
            Err(ending) => ending,
        },
        Some(fault) => fault_ending(alloc, program, fault),
    }
}

/// Puts the trace as the file of that name, and then tells how many events it has, or the fault.
fn write_trace<D: Depot, S: Sink>(
    alloc: Global,
    program: &Program,
    to: &str,
    written: &Written,
    depot: &mut D,
    out: &mut S,
) -> Carried
    ensures stands { Stands result.ending result.files
        (traced_with program.now.model to.now (text_of written.now) written.now.fault)
        (outside (D.seen depot.old) (S.seen out.old)) (outside (D.seen depot.new) (S.seen out.new)) }
    ensures keeps { Keeps result.ending result.files
        (outside (D.seen depot.old) (S.seen out.old)) (outside (D.seen depot.new) (S.seen out.new)) }
    ensures read { ¬ IsReadFault result.ending }
{
    if let Err(ending) = put_file(alloc, to, written.text.bytes(), depot) {
        return Carried { ending, files: 0 };
    }
    Carried {
        ending: end_trace(alloc, program, written, out),
        files: 1,
    }
}

/// Runs the iteration that comes next from a start, and writes its trace.
fn trace_from<Rt: Threads + Wait + Sync, D: Depot, S: Sink, G: Gate>(
    rt: &Rt,
    alloc: Global,
    gate: &G,
    program: &Program,
    order: &TraceOrder,
    start: Start,
    depot: &mut D,
    out: &mut S,
) -> Carried
    requires fits { FitsModel program.now.model start.world }
    requires first { pos 0 ≤ℤ start.itno }
    requires last { (start.itno +ℤ pos 1) ≤ℤ pos 2147483647 }
    requires within { TraceIsWithin order.now }
    ensures carries { CarriesSome (IsTraceOf order.now program.now start)
        (λ trace. known (traced order.now program.now start trace)) result.ending result.files
        (outside (D.seen depot.old) (S.seen out.old)) (outside (D.seen depot.new) (S.seen out.new)) }
    ensures keeps { Keeps result.ending result.files
        (outside (D.seen depot.old) (S.seen out.old)) (outside (D.seen depot.new) (S.seen out.new)) }
{
    match traced(rt, alloc, gate, program, order, start) {
        Ok(written) => write_trace(alloc, program, order.out.as_str(), &written, depot, out),
        Err(NoMemory) => Carried::before_files(Ending::NoMemory),
    }
}

/// `trace` of a program: reads the population, runs, and writes the trace.
fn trace_program<Rt: Threads + Wait + Sync, D: Depot, S: Sink, G: Gate>(
    rt: &Rt,
    alloc: Global,
    gate: &G,
    program: &Program,
    order: &TraceOrder,
    depot: &mut D,
    out: &mut S,
) -> Carried
    requires within { TraceIsWithin order.now }
    ensures carries { (told : Files) → (D.seen depot.old).files ≡ Some told
        → CarriesSome (IsTraceOfSource told order.now program.now) (trace_source told order.now program.now)
        result.ending result.files
        (outside (D.seen depot.old) (S.seen out.old)) (outside (D.seen depot.new) (S.seen out.new)) }
    ensures keeps { Keeps result.ending result.files
        (outside (D.seen depot.old) (S.seen out.old)) (outside (D.seen depot.new) (S.seen out.new)) }
{
    match start_in(alloc, depot, order.pop.as_str(), program, 1) {
        Ok(start) => trace_from(rt, alloc, gate, program, order, start, depot, out),
        Err(ending) => Carried::before_files(ending),
    }
}

/// `trace`: reads the model, then the population, runs one iteration, and writes its trace.
pub(crate) fn carry_trace<Rt: Threads + Wait + Sync, D: Depot, S: Sink, G: Gate>(
    rt: &Rt,
    alloc: Global,
    gate: &G,
    order: &TraceOrder,
    depot: &mut D,
    out: &mut S,
) -> Carried
    requires within { TraceIsWithin order.now }
    ensures carries { (told : Files) (read : Reader) → (D.seen depot.old).files ≡ Some told → ReadsTexts read
        → CarriesSome (IsTraceOfInputs read told order.now) (trace_reading read told order.now)
        result.ending result.files
        (outside (D.seen depot.old) (S.seen out.old)) (outside (D.seen depot.new) (S.seen out.new)) }
    ensures keeps { Keeps result.ending result.files
        (outside (D.seen depot.old) (S.seen out.old)) (outside (D.seen depot.new) (S.seen out.new)) }
{
    match program_in(alloc, depot, order.model.as_str()) {
        Ok(program) => trace_program(rt, alloc, gate, &program, order, depot, out),
        Err(ending) => Carried::before_files(ending),
    }
}
