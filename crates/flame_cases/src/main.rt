//! Makes the calls that files of cases name, and compares what they answer with what is wanted.
//!
//! Each word is a file of cases; the folder that it lies in names the call. A case that differs is printed with what
//! was wanted and what came. The status is 0 where none differs, 1 where one does, and 2 where a file cannot be used.
#![tactic(auto)]

mod kinds;
mod running;
mod watched;

use flame_case_files::{Case, read_cases};
use kinds::{Kind, answer, kind_of};
use std::alloc::Global;
use std::process::ExitCode;
use std::rt::{Env, Files};
use std::sync::Wait;
use std::thread::Threads;
use std::{env, fs, io};

/// How many cases a file had, and how many of them differ.
#[derive(Clone, Copy)]
struct Tally {
    cases: u64,
    differ: u64,
}

/// One case of a kind: what is wanted and what comes. Tells whether they agree; a case without a name, or that says
/// nothing of what is wanted, does not.
fn agrees(
    rt: &(impl Print + AllocGlobal + Threads + Wait + Sync),
    file: &str,
    kind: Kind,
    case: &Case,
) -> io::Result<bool> {
    let came = answer(rt, rt.alloc(), kind, case)?;
    if case.is_whole() && came.as_bytes() == case.bytes("wants") {
        return Ok(true);
    }
    let name = case.name.as_str();
    let wanted = case.text("wants");
    println!(rt; "{file}: {name} differs; wanted\n{wanted}came\n{came}")?;
    Ok(false)
}

/// The cases of a file, one after another.
fn try_text(
    rt: &(impl Print + AllocGlobal + Threads + Wait + Sync),
    file: &str,
    kind: Kind,
    text: &str,
) -> io::Result<Tally> {
    let mut tally = Tally {
        cases: 0,
        differ: 0,
    };
    for case in &read_cases(rt.alloc(), text)? {
        tally.cases = tally.cases.saturating_add(1);
        if !agrees(rt, file, kind, case)? {
            tally.differ = tally.differ.saturating_add(1);
        }
    }
    Ok(tally)
}

/// A file of cases. Tells whether all agree, and `None` where it cannot be used.
fn try_file(
    rt: &(impl Print + Files + AllocGlobal + Threads + Wait + Sync),
    file: &str,
) -> io::Result<Option<bool>> {
    let Some(kind) = kind_of(file) else {
        println!(rt; "{file}: its folder names no call")?;
        return Ok(None);
    };
    let Ok(text) = fs::read_to_string(rt, file) else {
        println!(rt; "{file}: cannot be read")?;
        return Ok(None);
    };
    let told = try_text(rt, file, kind, text.as_str())?;
    println!(rt; "{file}: {} cases, {} differ", told.cases, told.differ)?;
    Ok(Some(told.differ == 0))
}

/// All files that the words name, in order.
fn try_all(
    rt: &(impl Print + Files + Env + AllocGlobal + Threads + Wait + Sync),
) -> io::Result<ExitCode> {
    let mut status = 0;
    for word in env::args(rt)?.skip(1) {
        match try_file(rt, word.as_str())? {
            None => status = 2,
            Some(true) => {}
            Some(false) => status = status.max(1),
        }
    }
    Ok(ExitCode::from(status))
}

fn main(rt: HostRuntime) -> ExitCode {
    match try_all(&rt) {
        Ok(status) => status,
        Err(_) => ExitCode::from(2),
    }
}
