//! Runs codes with a loop, writes and reads a large population, and brings cores of many functions to their end, so that
//! each can be timed.
//!
//! The first word is `codes`, `populations` or `cores`, and what stands behind it is said in the module of that name. It
//! prints what each does and the processor time that it took. Where nothing stands behind the word, a small one is made and
//! no time is printed; without words all three are. The status is 2 where the words are others, memory is not found or the
//! clock cannot be read.
#![tactic(auto)]

mod codes;
mod cores;
mod populations;
mod programs;

use codes::measure_codes;
use cores::measure_cores;
use populations::measure_populations;
use std::process::ExitCode;
use std::rt::Env;
use std::time::CpuClock;
use std::{env, io};

/// The words after the program's name.
fn words(rt: &(impl Env + AllocGlobal)) -> io::Result<Vec<String>> {
    let mut words = Vec::new(rt.alloc());
    for word in env::args(rt)?.skip(1) {
        words.push(word)?;
    }
    Ok(words)
}

/// All three, small. Tells whether they could be made.
fn measure_all(rt: &(impl Print + CpuClock + AllocGlobal)) -> io::Result<bool> {
    Ok(measure_codes(rt, &[])? && measure_populations(rt, &[])? && measure_cores(rt, &[])?)
}

/// What the words name. Tells whether it could be made.
fn measure(rt: &(impl Print + CpuClock + AllocGlobal), words: &[String]) -> io::Result<bool> {
    let Some((first, others)) = words.split_first() else {
        return measure_all(rt);
    };
    match first.as_str() {
        "codes" => measure_codes(rt, others),
        "populations" => measure_populations(rt, others),
        "cores" => measure_cores(rt, others),
        _ => Ok(false),
    }
}

fn main(rt: HostRuntime) -> ExitCode {
    let Ok(words) = words(&rt) else {
        return ExitCode::from(2);
    };
    match measure(&rt, words.as_slice()) {
        Ok(true) => ExitCode::SUCCESS,
        _ => ExitCode::from(2),
    }
}
