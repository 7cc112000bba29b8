//! Traces, line by line.

ghost use Rattle.std.specs.Prelude.{◌≡◌, ◌≤◌, ◌+◌, ℤ, pos, ◌<ℤ◌, IfOk, length, not};
ghost use Rattle.std.specs.Str.{bytes_eq};
ghost use Rattle.flame_world.specs.WorldFits.{FitsModel};
ghost use Rattle.flame_events.specs.CoreStates.{opening_core};
ghost use Rattle.flame_core.specs.SeenCores.{Seen, round_in};
ghost use Rattle.flame_trace.specs.TraceLines.{parts};
ghost use Rattle.flame_trace.specs.TraceSteps.{onward, WentBy};
ghost use Rattle.flame_trace.specs.TraceVerdicts.{behind_answer, end_verdict, next_number, turn_verdict, verdict};
ghost use Rattle.flame_trace.specs.TraceTexts.{behind_end, end_line};

use crate::cuts::cut_at;
use crate::ends::behind_end;
use crate::heads::{Head, head_of};
use crate::reading::{event_of, is_end};
use crate::writing::push_end;
use flame_core::{Core, StepFault};
use flame_events::laws::every_order;
use flame_popfile::Start;
use flame_program::Program;
use flame_rows::{Copied, NoMemory};
use flame_world::{Turn, Verdict, World};
use std::alloc::Global;

/// The verdict where what stands behind the end is not what is to stand there, in the line of this number.
fn behind_answer(turn: &Turn, number: u32) -> Verdict
    ensures { result ≡ behind_answer turn.now number }
{
    match turn {
        Turn::Done(_, _) => Verdict::OtherEnd(number),
        Turn::Faulted(_) => Verdict::Form(number),
    }
}

/// Whether the line is that of the end of this turn.
fn is_end_of(alloc: Global, turn: &Turn, line: &[u8]) -> Result<bool, NoMemory>
    ensures { IfOk result (λ is. is ≡ bytes_eq line.now (end_line turn.now)) }
{
    let mut wanted = String::new(alloc);
    push_end(&mut wanted, turn)?;
    Ok(line == wanted.as_bytes())
}

/// Whether this is what stands behind the end of this turn.
fn is_behind(
    alloc: Global,
    program: &Program,
    iteration: i32,
    turn: &Turn,
    rest: &[u8],
) -> Result<bool, NoMemory>
    ensures { IfOk result (λ is. is ≡ bytes_eq rest.now (behind_end program.now.model iteration turn.now)) }
{
    let wanted = behind_end(alloc, program, iteration, turn)?;
    Ok(rest == wanted.bytes())
}

/// The verdict where so many events led to this turn, and this line tells the end, with this behind it.
fn compared(
    alloc: Global,
    program: &Program,
    iteration: i32,
    events: u32,
    turn: &Turn,
    line: &[u8],
    rest: &[u8],
) -> Result<Verdict, NoMemory>
    requires { events ≤ 67108864 }
    ensures { IfOk result (λ found. found
        ≡ turn_verdict program.now.model iteration events turn.now line.now rest.now) }
{
    if !is_end_of(alloc, turn, line)? {
        return Ok(Verdict::OtherEnd(events + 2));
    }
    if !is_behind(alloc, program, iteration, turn, rest)? {
        return Ok(behind_answer(turn, events + 3));
    }
    Ok(Verdict::Yes(events))
}

/// The verdict where so many events led to this core, and this line tells the end, with this behind it.
fn ended(
    alloc: Global,
    core: Core<'_>,
    iteration: i32,
    events: u32,
    line: &[u8],
    rest: &[u8],
) -> Result<Verdict, NoMemory>
    requires number { core.iteration ≡ iteration }
    requires small { events ≤ 67108864 }
    ensures { IfOk result (λ found. found
        ≡ end_verdict (round_in core.entry) events core.entry.core line.now rest.now) }
{
    every_order();
    if !core.complete() {
        return Ok(Verdict::Incomplete(events + 2));
    }
    let program = core.program();
    let _source = program.source();
    let turn = core.finish()?;
    compared(alloc, program, iteration, events, &turn, line, rest)
}

/// Goes by a line that is to tell an event, behind so many: the event comes, or the line has an answer.
fn go_by(core: &mut Core<'_>, events: u32, line: &[u8]) -> Result<Option<Verdict>, NoMemory>
    requires { events ≤ 67108864 }
    ensures { IfOk result (WentBy core.old core.new (events + 2) line.now) }
{
    let Some(event) = event_of(line) else {
        return Ok(Some(Verdict::Form(events + 2)));
    };
    match core.step(event) {
        Ok(()) => Ok(None),
        Err(StepFault::Illegal) => Ok(Some(Verdict::Illegal(events + 2))),
        Err(StepFault::NoMemory) => Err(NoMemory),
    }
}

/// The verdict where line 1 told of the iteration that begins with this core, and this stands behind it.
fn follow(alloc: Global, core: Core<'_>, iteration: i32, rest: &[u8]) -> Result<Verdict, NoMemory>
    requires number { core.iteration ≡ iteration }
    requires small { length rest.now ≤ 67108864 }
    ensures { IfOk result (λ found. found
        ≡ onward (round_in core.entry) core.entry.pieces core.entry.core 0 (parts rest.now)) }
{
    let mut core = core;
    let mut left = rest;
    let mut events = 0u32;
    while let Some((line, behind)) = cut_at(left, b'\n') {
        if is_end(line) {
            return ended(alloc, core, iteration, events, line, behind);
        }
        if let Some(answer) = go_by(&mut core, events, line)? {
            return Ok(answer);
        }
        left = behind;
        events += 1;
    }
    Ok(Verdict::Form(events + 2))
}

/// The same world again.
fn copied(alloc: Global, world: &World) -> Result<World, NoMemory>
    ensures { IfOk result (λ copy. copy ≡ world.now) }
{
    let constants = world.constants.copy()?;
    let agents = world.agents.copy(alloc)?;
    Ok(World { constants, agents })
}

/// The core with which the iteration begins that comes next in the start, and has this number, as line 1 says it.
fn begun<'a>(
    alloc: Global,
    program: &'a Program,
    start: &Start,
    iteration: i32,
    head: Head,
) -> Result<Core<'a>, NoMemory>
    requires fits { FitsModel program.now.model start.now.world }
    requires some { 1 ≤ head.pieces }
    requires number { iteration ≡ next_number start.now }
    ensures { IfOk result (λ core. core ≡ record {
      source = program.now;
      world = start.now.world;
      iteration = next_number start.now;
      fuel = head.fuel;
      pieces = head.pieces;
      core = opening_core program.now.model start.now.world.agents;
    }) }
{
    let world = copied(alloc, &start.world)?;
    Core::new(alloc, program, world, iteration, head.fuel, head.pieces)
}

/// The verdict on a text that is to tell the iteration which comes next in the start, whose world fits the model: the
/// answer of its first line that has one, as `Verdict` says; Yes where none has. The text has at most 67108864 bytes, and an
/// iteration may follow. The error is want of memory. No earlier line is gone back to, and each event comes to a core once.
pub fn replay(
    alloc: Global,
    program: &Program,
    start: &Start,
    bytes: &[u8],
) -> Result<Verdict, NoMemory>
    requires fits { FitsModel program.now.model start.now.world }
    requires number { start.now.itno <ℤ pos 2147483647 }
    requires small { length bytes.now ≤ 67108864 }
    ensures { IfOk result (λ found. found ≡ verdict program.now start.now bytes.now) }
{
    let Some((line, rest)) = cut_at(bytes, b'\n') else {
        return Ok(Verdict::Form(1));
    };
    let Some(head) = head_of(line) else {
        return Ok(Verdict::Form(1));
    };
    if i64::from(head.iteration) != i64::from(start.itno) + 1 {
        return Ok(Verdict::OtherStart(1));
    }
    let iteration = start.itno + 1;
    let core = begun(alloc, program, start, iteration, head)?;
    follow(alloc, core, iteration, rest)
}
