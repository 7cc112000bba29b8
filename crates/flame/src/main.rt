//! Runs agent models from the command line.
#![tactic(auto)]

use flame_outside::{HostDepot, HostSink, OpenGate};
use flame_top::flame;
use std::process::ExitCode;
use std::{env, io};

/// The status where the arguments cannot be had, which no run answers.
const NO_ARGUMENTS: u8 = 7;

/// The words after the program's name.
#[inline(never)]
fn words(rt: &HostRuntime) -> io::Result<Vec<String>> {
    let mut words = Vec::new(rt.alloc());
    for word in env::args(rt)?.skip(1) {
        words.push(word)?;
    }
    Ok(words)
}

fn main(rt: HostRuntime) -> ExitCode {
    let Ok(words) = words(&rt) else {
        return ExitCode::from(NO_ARGUMENTS);
    };
    let mut depot = HostDepot::new(&rt);
    let mut out = HostSink::out(&rt);
    let mut err = HostSink::err(&rt);
    let ended = flame(
        &rt,
        rt.alloc(),
        words.as_slice(),
        &mut depot,
        &mut out,
        &mut err,
        &OpenGate,
    );
    ExitCode::from(ended.status)
}
