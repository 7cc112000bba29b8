//! Runs and traces, most with two workers.

use flame_outside::{Gate, MemDepot, MemSink, OpenGate};
use flame_rows::NoMemory;
use flame_top::flame;
use std::alloc::Global;
use std::str;
use std::sync::Wait;
use std::thread::Threads;

/// How often a call of a gate looks for another one before it goes on alone.
pub(crate) const TURNS: u32 = 10_000_000;

/// The files of a run.
pub(crate) struct Given {
    pub model: &'static str,
    pub source: &'static str,
    pub population: &'static str,
}

/// The depot with these files.
fn depot_of(alloc: Global, given: &Given) -> Result<MemDepot, NoMemory> {
    let mut depot = MemDepot::new(alloc, Vec::new(alloc));
    depot.set("m.json", given.model.as_bytes())?;
    depot.set("f.c", given.source.as_bytes())?;
    depot.set("p.json", given.population.as_bytes())?;
    Ok(depot)
}

/// These words.
fn words_of(alloc: Global, words: &[&str]) -> Result<Vec<String>, NoMemory> {
    let mut all = Vec::new(alloc);
    for word in words {
        all.push(String::from_str(alloc, word)?)?;
    }
    Ok(all)
}

/// Whether a call with these words over this depot, whose workers call this gate, ends with this status and this line on err.
fn is_ended_so<Rt: Threads + Wait + Sync, G: Gate>(
    rt: &Rt,
    alloc: Global,
    words: &[&str],
    depot: &mut MemDepot,
    gate: &G,
    status: u8,
    line: &str,
) -> Result<bool, NoMemory> {
    let words = words_of(alloc, words)?;
    let mut out = MemSink::new(alloc, Vec::new(alloc));
    let mut err = MemSink::new(alloc, Vec::new(alloc));
    let ended = flame(rt, alloc, words.as_slice(), depot, &mut out, &mut err, gate);
    Ok(ended.status == status && err.bytes() == line.as_bytes())
}

/// Whether a run with these words over these files, whose workers call this gate, is carried out.
pub(crate) fn is_carried_out_so<Rt: Threads + Wait + Sync, G: Gate>(
    rt: &Rt,
    alloc: Global,
    given: &Given,
    words: &[&str],
    gate: &G,
) -> Result<bool, NoMemory> {
    let mut depot = depot_of(alloc, given)?;
    is_ended_so(rt, alloc, words, &mut depot, gate, 0, "")
}

/// Whether a run of one iteration over these files is carried out by two workers, who wait as this says and call this gate.
pub(crate) fn is_carried_out<Rt: Threads + Wait + Sync, G: Gate>(
    rt: &Rt,
    alloc: Global,
    given: &Given,
    way: &str,
    gate: &G,
) -> Result<bool, NoMemory> {
    let words = [
        "run",
        "m.json",
        "p.json",
        "o",
        "1",
        "--workers",
        "2",
        "--sync",
        way,
    ];
    is_carried_out_so(rt, alloc, given, &words, gate)
}

/// The words of a trace by two workers.
const TRACE: [&str; 6] = ["trace", "m.json", "p.json", "t", "--workers", "2"];

/// The trace of an iteration over these files by two workers, who call this gate; nothing where it is not carried out.
pub(crate) fn trace_of<Rt: Threads + Wait + Sync, G: Gate>(
    rt: &Rt,
    alloc: Global,
    given: &Given,
    gate: &G,
) -> Result<String, NoMemory> {
    let mut depot = depot_of(alloc, given)?;
    if !is_ended_so(rt, alloc, &TRACE, &mut depot, gate, 0, "")? {
        return Ok(String::new(alloc));
    }
    let bytes = depot.get("t").unwrap_or(&[]);
    Ok(String::from_str(alloc, str::from_utf8(bytes).unwrap_or(""))?)
}

/// Whether the trace of an iteration over these files by two workers ends with this status and this line on err, and its
/// replay over the same depot is carried out.
pub(crate) fn is_retold<Rt: Threads + Wait + Sync>(
    rt: &Rt,
    alloc: Global,
    given: &Given,
    status: u8,
    line: &str,
) -> Result<bool, NoMemory> {
    let mut depot = depot_of(alloc, given)?;
    let traced = is_ended_so(rt, alloc, &TRACE, &mut depot, &OpenGate, status, line)?;
    let words = ["replay", "m.json", "p.json", "t"];
    let replayed = is_ended_so(rt, alloc, &words, &mut depot, &OpenGate, 0, "")?;
    Ok(traced && replayed)
}
