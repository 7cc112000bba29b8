//! `trial`: a run of the meadow that the program carries, over files in memory.

ghost use Rattle.std.specs.Prelude.{◌≡◌, [], pos, ◌+ℤ◌, ◌≤ℤ◌, IfOk, IsTrue, Some};
ghost use Rattle.flame_outside.specs.Files.{Files};
ghost use Rattle.flame_outside.specs.Devices.{SeenDepot};
ghost use Rattle.flame_outside.specs.Frames.{Grows};
ghost use Rattle.flame_outside.specs.Memory.{seen_depot, new_depot, total_of};
ghost use Rattle.flame_outside.specs.Scripts.{outside};
ghost use Rattle.flame_world.specs.WorldFits.{FitsModel};
ghost use Rattle.flame_load.specs.InputReads.{known};
ghost use Rattle.flame_load.specs.TextReads.{Reader, ReadsTexts};
ghost use Rattle.flame_top.specs.Reports.{report_in};
ghost use Rattle.flame_top.specs.OrderReports.{ordered_run, run_reading, meadow_files, meadow_order, trial_of, trial_report};
ghost use Rattle.flame_top.specs.InputAnswers.{IsReadFault};
ghost use Rattle.flame_top.specs.Printing.{EndsPrint};
ghost use Rattle.flame_top.specs.Standing.{Stands, Carries, Keeps};
ghost use Rattle.flame_top.specs.TrialAnswers.{started_run, total_line, EndsTrial};

use crate::ending::{Carried, Ending};
use crate::inputs::{program_in, start_in};
use crate::runs::run_from;
use crate::texts::print_text;
use flame_driver::laws::{different_names, iterated_runs, written_stages};
use flame_outside::{Gate, MemDepot, Sink};
use flame_popfile::Start;
use flame_program::Program;
use flame_rows::{Blob, Copied, NoMemory, Text};
use flame_trial::{meadow_model, meadow_population, meadow_source};
use flame_words::{How, RunOrder, TrialOrder};
use itoa::Buffer;
use std::alloc::Global;
use std::fmt::Write;
use std::sync::Wait;
use std::thread::Threads;

/// The name of the meadow's model file.
const MODEL: &str = "meadow.json";

/// The name of its function file, as the model has it.
const SOURCE: &str = "meadow.c";

/// The name of its population file.
const POPULATION: &str = "0.json";

/// What the names of the files begin with that a trial's run writes.
const WRITTEN: &str = "t";

/// A depot in memory without files, of which no call fails.
fn calm_depot(alloc: Global) -> MemDepot
    ensures { result ≡ new_depot [] }
{
    MemDepot::new(alloc, Vec::new(alloc))
}

/// A depot in memory with the meadow's files, of which no call fails.
fn meadow(alloc: Global, seed: u32, size: u32) -> Result<MemDepot, NoMemory>
    ensures files { IfOk result (λ depot. (seen_depot depot).files ≡ Some (meadow_files seed size)) }
    ensures calm { IfOk result (λ depot. IsTrue (seen_depot depot).calm) }
{
    let mut depot = calm_depot(alloc);
    depot.set(MODEL, meadow_model(alloc)?.bytes())?;
    depot.set(SOURCE, meadow_source(alloc)?.bytes())?;
    depot.set(POPULATION, meadow_population(alloc, seed, size)?.bytes())?;
    Ok(depot)
}

/// The order of a trial's run.
fn meadow_order(alloc: Global, order: &TrialOrder) -> Result<RunOrder, NoMemory>
    ensures { IfOk result (λ run. run ≡ meadow_order order.now) }
{
    Ok(RunOrder {
        model: Text::of(alloc, MODEL)?,
        pop: Text::of(alloc, POPULATION)?,
        out: Text::of(alloc, WRITTEN)?,
        turns: order.turns,
        format: 1,
        how: How {
            workers: order.how.workers,
            fuel: order.how.fuel,
            way: order.how.way,
            by: order.how.by.copy(alloc)?,
        },
    })
}

/// The last line of a trial whose files have so many bytes together.
fn bytes_text(alloc: Global, bytes: u128) -> Result<Blob, NoMemory>
    ensures { IfOk result (λ line. line ≡ total_line bytes) }
{
    let mut numbers = Buffer::new();
    let bytes = numbers.format(bytes);
    let line = format!(in alloc; "bytes {bytes}\n")?;
    Ok(Blob::of(line.into_bytes()))
}

/// Prints how many bytes the files of the depot have together.
fn print_bytes<S: Sink>(alloc: Global, files: &MemDepot, out: &mut S) -> Ending
    ensures prints { EndsPrint (total_line (total_of files.now.files)) (S.seen out.old) (S.seen out.new) result }
    ensures grows { Grows (S.seen out.old) (S.seen out.new) }
{
    match bytes_text(alloc, files.total()) {
        Ok(line) => match print_text(line.bytes(), out) {
            Ok(()) => Ending::Done,
            Err(ending) => ending,
        },
        Err(NoMemory) => Ending::NoMemory,
    }
}

/// Ends a trial whose run ended so: where it was carried out, how many bytes its files have together is printed.
fn end_trial<S: Sink>(alloc: Global, ended: Ending, files: &MemDepot, out: &mut S) -> Ending
    ensures ends { EndsTrial ended (total_line (total_of files.now.files)) (S.seen out.old) (S.seen out.new) result }
    ensures grows { Grows (S.seen out.old) (S.seen out.new) }
{
    match ended {
        Ending::Done => print_bytes(alloc, files, out),
        ended => ended,
    }
}

/// Runs a program as a trial, from a start on. Its files go to a depot of their own.
fn run_trial<Rt: Threads + Wait + Sync, S: Sink, G: Gate>(
    rt: &Rt,
    alloc: Global,
    gate: &G,
    program: &Program,
    order: &RunOrder,
    start: Start,
    out: &mut S,
) -> Carried
    requires fits { FitsModel program.now.model start.world }
    requires last { (start.itno +ℤ pos order.now.turns) ≤ℤ pos 2147483647 }
    ensures stands { (depot : SeenDepot) → Stands result.ending result.files
        (trial_of (ordered_run order.now program.now start))
        (outside depot (S.seen out.old)) (outside depot (S.seen out.new)) }
    ensures keeps { (depot : SeenDepot) → Keeps result.ending result.files
        (outside depot (S.seen out.old)) (outside depot (S.seen out.new)) }
    ensures files { result.files ≡ 0 }
    ensures read { ¬ IsReadFault result.ending }
{
    different_names();
    iterated_runs();
    written_stages();
    let mut files = calm_depot(alloc);
    let ran = run_from(rt, alloc, gate, program, order, start, &mut files, out);
    let Carried { ending, .. } = ran;
    Carried::before_files(end_trial(alloc, ending, &files, out))
}

/// A trial of a program over inputs that never fail: reads the population, and runs.
fn start_trial<Rt: Threads + Wait + Sync, S: Sink, G: Gate>(
    rt: &Rt,
    alloc: Global,
    gate: &G,
    program: &Program,
    order: &RunOrder,
    inputs: &mut MemDepot,
    out: &mut S,
) -> Carried
    requires calm { IsTrue (seen_depot inputs.old).calm }
    ensures stands { (told : Files) (depot : SeenDepot) → (seen_depot inputs.old).files ≡ Some told
        → Stands result.ending result.files (trial_of (report_in (started_run told order.now program.now)))
        (outside depot (S.seen out.old)) (outside depot (S.seen out.new)) }
    ensures keeps { (depot : SeenDepot) → Keeps result.ending result.files
        (outside depot (S.seen out.old)) (outside depot (S.seen out.new)) }
    ensures files { result.files ≡ 0 }
    ensures read { ¬ IsReadFault result.ending }
{
    match start_in(alloc, inputs, order.pop.as_str(), program, order.turns) {
        Ok(start) => run_trial(rt, alloc, gate, program, order, start, out),
        Err(ending) => Carried::before_files(ending),
    }
}

/// A trial over inputs that never fail: reads the model, then the population, and runs.
fn trial_over<Rt: Threads + Wait + Sync, S: Sink, G: Gate>(
    rt: &Rt,
    alloc: Global,
    gate: &G,
    order: &RunOrder,
    inputs: &mut MemDepot,
    out: &mut S,
) -> Carried
    requires calm { IsTrue (seen_depot inputs.old).calm }
    ensures stands { (read : Reader) (told : Files) (depot : SeenDepot) → ReadsTexts read
        → (seen_depot inputs.old).files ≡ Some told
        → Stands result.ending result.files (trial_of (report_in (run_reading read told order.now)))
        (outside depot (S.seen out.old)) (outside depot (S.seen out.new)) }
    ensures keeps { (depot : SeenDepot) → Keeps result.ending result.files
        (outside depot (S.seen out.old)) (outside depot (S.seen out.new)) }
    ensures files { result.files ≡ 0 }
    ensures read { ¬ IsReadFault result.ending }
{
    match program_in(alloc, inputs, order.model.as_str()) {
        Ok(program) => start_trial(rt, alloc, gate, &program, order, inputs, out),
        Err(ending) => Carried::before_files(ending),
    }
}

/// The order of a trial's run, and the meadow's files in memory.
fn trial_inputs(alloc: Global, order: &TrialOrder) -> Result<(RunOrder, MemDepot), NoMemory>
    ensures order { IfOk result (λ given. given.0 ≡ meadow_order order.now) }
    ensures files { IfOk result (λ given. (seen_depot given.1).files ≡ Some (meadow_files order.now.seed order.now.size)) }
    ensures calm { IfOk result (λ given. IsTrue (seen_depot given.1).calm) }
{
    Ok((
        meadow_order(alloc, order)?,
        meadow(alloc, order.seed, order.size)?,
    ))
}

/// `trial`: runs the meadow over files in memory, prints its lines, and then how many bytes its files have together.
pub(crate) fn carry_trial<Rt: Threads + Wait + Sync, S: Sink, G: Gate>(
    rt: &Rt,
    alloc: Global,
    gate: &G,
    order: &TrialOrder,
    out: &mut S,
) -> Carried
    // Whatever depot stands beside it.
    ensures carries { (read : Reader) (depot : SeenDepot) → ReadsTexts read
        → Carries (known (trial_report read order.now)) result.ending result.files
        (outside depot (S.seen out.old)) (outside depot (S.seen out.new)) }
    ensures keeps { (depot : SeenDepot) → Keeps result.ending result.files
        (outside depot (S.seen out.old)) (outside depot (S.seen out.new)) }
    ensures files { result.files ≡ 0 }
    ensures read { ¬ IsReadFault result.ending }
{
    match trial_inputs(alloc, order) {
        Ok((run, mut inputs)) => trial_over(rt, alloc, gate, &run, &mut inputs, out),
        Err(NoMemory) => Carried::before_files(Ending::NoMemory),
    }
}
