//! Runs three codes with a loop, so that the machine can be timed beside a plain interpreter.
//!
//! A word is the number of turns of the first loop; the others turn a tenth as often. It prints what each code leaves, the
//! processor time that it took and the instructions a second. Without a word the first loop turns 1000 times, and no time
//! is printed.

mod loops;

use flame_code::{Code, Helpers};
use flame_machine::{Lists, fits_entry, run};
use flame_rows::Row;
use flame_spec::Outcome;
use loops::{Timed, WIDTH, helpers};
use std::alloc::{AllocError, Global};
use std::io;
use std::time::{CpuClock, Duration};

/// The turns where no word says how many.
const TURNS: i32 = 1000;

/// The instructions that a code runs outside of its loop.
const OUTSIDE: u64 = 15;

/// What the code leaves over this memory and these constants, where they and the helpers fit it.
fn outcome_over(
    alloc: Global,
    code: &Code,
    helpers: &Helpers,
    memory: &Row,
    constants: &Row,
) -> Result<Option<Outcome>, AllocError> {
    let mut feed = Lists::new(alloc);
    if !helpers.fits(code) {
        return Ok(None);
    }
    if !fits_entry(code, memory, &feed, constants) {
        return Ok(None);
    }
    match run(
        alloc,
        code,
        helpers,
        memory,
        &mut feed,
        constants,
        1,
        u32::MAX,
    ) {
        Ok(outcome) => Ok(Some(outcome)),
        Err(_) => Err(AllocError),
    }
}

/// What the code leaves over a memory of zeros, where the helpers fit it.
fn outcome_of(
    alloc: Global,
    code: &Code,
    helpers: &Helpers,
) -> Result<Option<Outcome>, AllocError> {
    let zeros = vec![in alloc; 0; WIDTH as usize]?;
    outcome_over(
        alloc,
        code,
        helpers,
        &Row::of(zeros),
        &Row::of(Vec::new(alloc)),
    )
}

fn print_outcome(rt: &impl Print, outcome: &Outcome) -> io::Result<()> {
    match outcome {
        Outcome::Ended(effect) => {
            match &effect.memory {
                Some(row) => print!(rt; "memory {:?}", row.values())?,
                None => print!(rt; "removed")?,
            }
            print!(rt; " left {}", effect.fuel)
        }
        Outcome::Faulted(fault) => {
            let cause = fault.cause;
            print!(rt; "{cause:?} at line {}", fault.line)
        }
    }
}

/// The time that a loop took, and the millions of instructions that it ran a second.
fn print_speed(rt: &impl Print, timed: Timed, turns: i32, taken: Duration) -> io::Result<()> {
    let turns = turns.unsigned_abs() as u64;
    let instructions = turns
        .saturating_mul(timed.in_turn())
        .saturating_add(OUTSIDE);
    let microseconds = taken.as_micros().max(1);
    let speed = instructions as u128 / microseconds;
    print!(rt;
        "; {} milliseconds, {speed} million instructions a second",
        taken.as_millis()
    )
}

/// What a loop left that began then.
fn print_loop(
    rt: &(impl Print + CpuClock),
    timed: Timed,
    turns: i32,
    outcome: &Outcome,
    begun: Duration,
    with_time: bool,
) -> io::Result<()> {
    let taken = rt.process_cpu_time()?.saturating_sub(begun);
    print!(rt; "{}: ", timed.name())?;
    print_outcome(rt, outcome)?;
    if with_time {
        print_speed(rt, timed, turns, taken)?;
    }
    println!(rt; "")
}

/// Runs the code of a loop. Tells whether it could be run.
fn measure_code(
    rt: &(impl Print + CpuClock + AllocGlobal),
    timed: Timed,
    turns: i32,
    code: &Code,
    helpers: &Helpers,
    with_time: bool,
) -> io::Result<bool> {
    let begun = rt.process_cpu_time()?;
    match outcome_of(rt.alloc(), code, helpers)? {
        Some(outcome) => {
            print_loop(rt, timed, turns, &outcome, begun, with_time)?;
            Ok(true)
        }
        None => Ok(false),
    }
}

/// Runs a loop. Tells whether it could be run.
fn measure(
    rt: &(impl Print + CpuClock + AllocGlobal),
    timed: Timed,
    turns: i32,
    helpers: &Helpers,
    with_time: bool,
) -> io::Result<bool> {
    match timed.code(rt.alloc(), turns)? {
        Some(code) => measure_code(rt, timed, turns, &code, helpers, with_time),
        None => Ok(false),
    }
}

/// Runs all loops with these helpers. Tells whether all could be run.
fn measure_loops(
    rt: &(impl Print + CpuClock + AllocGlobal),
    helpers: &Helpers,
    turns: i32,
    with_time: bool,
) -> io::Result<bool> {
    let fewer = turns / 10;
    Ok(
        measure(rt, Timed::Sum, turns, helpers, with_time)?
            && measure(rt, Timed::Helper, fewer, helpers, with_time)?
            && measure(rt, Timed::Element, fewer, helpers, with_time)?,
    )
}

/// The turns that the word says, where it says how many.
fn turns_in(words: &[String]) -> Option<i32> {
    match words.first() {
        Some(word) => word.parse::<i32>().ok(),
        None => Some(TURNS),
    }
}

/// Runs all loops. Tells whether all could be run.
pub(crate) fn measure_codes(
    rt: &(impl Print + CpuClock + AllocGlobal),
    words: &[String],
) -> io::Result<bool> {
    let Some(turns) = turns_in(words) else {
        return Ok(false);
    };
    match helpers(rt.alloc())? {
        Some(helpers) => measure_loops(rt, &helpers, turns, !words.is_empty()),
        None => Ok(false),
    }
}
