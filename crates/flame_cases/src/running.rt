//! Cases of `flame`, the call of a whole run over devices in memory. The section `words` has a word a line, and each
//! section `file NAME` is a file, which `pad NAME` makes that long by spaces. The numbers in `fails depot`, `fails out`
//! and `fails err` are those of the calls that fail there. The answer has the status, how many files it says were put,
//! what was printed, and each file that a call put as it stands at last.

use crate::watched::Watched;
use flame_case_files::Case;
use flame_outside::{MemDepot, MemSink, OpenGate};
use flame_top::{Ended, flame};
use std::alloc::{AllocError, Global};
use std::str;
use std::sync::Wait;
use std::thread::Threads;

/// The longest file of a case.
const LONGEST: usize = 134217728;

/// The numbers of a section, one a line.
fn numbers(alloc: Global, text: &str) -> Result<Vec<u64>, AllocError> {
    let mut numbers = Vec::new(alloc);
    for line in text.split('\n') {
        if let Ok(number) = line.parse::<u64>() {
            numbers.push(number)?;
        }
    }
    Ok(numbers)
}

/// These bytes, and spaces up to this length.
fn padded(alloc: Global, bytes: &[u8], length: usize) -> Result<Vec<u8>, AllocError> {
    let mut all = Vec::from_slice(alloc, bytes)?;
    if length > bytes.len() {
        all.resize(length, b' ')?;
    }
    Ok(all)
}

/// Adds the file of a case of this name and these bytes.
fn add_file(
    depot: &mut MemDepot,
    alloc: Global,
    case: &Case,
    name: &str,
    bytes: &[u8],
) -> Result<(), AllocError> {
    let pad = format!(in alloc; "pad {name}")?;
    let length = case.text(pad.as_str()).trim().parse::<usize>().unwrap_or(0);
    let bytes = padded(alloc, bytes, length.min(LONGEST))?;
    match depot.set(name, bytes.as_slice()) {
        Ok(()) => Ok(()),
        Err(_) => Err(AllocError),
    }
}

/// Adds the files of a case.
fn add_files(depot: &mut MemDepot, alloc: Global, case: &Case) -> Result<(), AllocError> {
    for section in &case.sections {
        if let Some(name) = section.title.strip_prefix("file ") {
            add_file(depot, alloc, case, name, section.bytes.as_slice())?;
        }
    }
    Ok(())
}

/// The files of a case.
fn depot_of(alloc: Global, case: &Case) -> Result<MemDepot, AllocError> {
    let mut depot = MemDepot::new(alloc, numbers(alloc, case.text("fails depot"))?);
    add_files(&mut depot, alloc, case)?;
    Ok(depot)
}

fn sink_of(alloc: Global, case: &Case, title: &str) -> Result<MemSink, AllocError> {
    Ok(MemSink::new(alloc, numbers(alloc, case.text(title))?))
}

/// A text, as in a case.
fn print_lines(out: &mut String, text: &str) -> Result<(), AllocError> {
    let mut lines = text.split('\n');
    let last = lines.next_back().unwrap_or("");
    for line in lines {
        writeln!(out, "|{line}")?;
    }
    if !last.is_empty() {
        writeln!(out, ">{last}")?;
    }
    Ok(())
}

/// Bytes, as in a case.
fn print_bytes(out: &mut String, bytes: &[u8]) -> Result<(), AllocError> {
    if let Ok(text) = str::from_utf8(bytes) {
        return print_lines(out, text);
    }
    write!(out, "%")?;
    for byte in bytes {
        write!(out, "{byte:02x} ")?;
    }
    writeln!(out)
}

/// What was printed, where anything was.
fn print_sink(out: &mut String, title: &str, sink: &MemSink) -> Result<(), AllocError> {
    if !sink.bytes().is_empty() {
        writeln!(out, "{title}")?;
        print_bytes(out, sink.bytes())?;
    }
    Ok(())
}

/// The files that calls put.
fn print_files(out: &mut String, watched: &Watched<MemDepot>) -> Result<(), AllocError> {
    for name in watched.names() {
        if let Some(bytes) = watched.depot().get(name.as_str()) {
            writeln!(out, "file {name}")?;
            print_bytes(out, bytes)?;
        }
    }
    Ok(())
}

/// How the run ended, what was printed, and the files.
fn told(
    alloc: Global,
    ended: Ended,
    depot: &Watched<MemDepot>,
    out: &MemSink,
    err: &MemSink,
) -> Result<String, AllocError> {
    let mut told = String::new(alloc);
    writeln!(told, "status {} files {}", ended.status, ended.files)?;
    print_sink(&mut told, "out", out)?;
    print_sink(&mut told, "err", err)?;
    print_files(&mut told, depot)?;
    Ok(told)
}

/// What the run of these words over these files answers.
fn run<Rt: Threads + Wait + Sync>(
    rt: &Rt,
    alloc: Global,
    case: &Case,
    words: &[String],
    depot: &mut Watched<MemDepot>,
) -> Result<String, AllocError> {
    let mut out = sink_of(alloc, case, "fails out")?;
    let mut err = sink_of(alloc, case, "fails err")?;
    let ended = flame(rt, alloc, words, depot, &mut out, &mut err, &OpenGate);
    told(alloc, ended, depot, &out, &err)
}

/// The answer to a case of the kind `run`.
pub(crate) fn answer<Rt: Threads + Wait + Sync>(
    rt: &Rt,
    alloc: Global,
    case: &Case,
) -> Result<String, AllocError> {
    let words = case.lines(alloc, "words")?;
    let mut depot = Watched::new(alloc, depot_of(alloc, case)?);
    run(rt, alloc, case, words.as_slice(), &mut depot)
}
