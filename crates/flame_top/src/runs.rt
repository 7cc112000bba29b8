//! Runs of a program.

ghost use Rattle.std.specs.Prelude.{◌≡◌, ◌≤◌, Some, pos, ◌+ℤ◌, ◌≤ℤ◌, IfOk};
ghost use Rattle.flame_outside.specs.Files.{Files};
ghost use Rattle.flame_outside.specs.Frames.{OnlyPuts, Grows};
ghost use Rattle.flame_outside.specs.Scripts.{outside};
ghost use Rattle.flame_world.specs.Iterations.{iteration as meant};
ghost use Rattle.flame_world.specs.WorldFits.{FitsModel};
ghost use Rattle.flame_load.specs.TextReads.{Reader, ReadsTexts};
ghost use Rattle.flame_top.specs.OrderReports.{version, ordered_run, run_of_source, run_reading};
ghost use Rattle.flame_top.specs.RunEndings.{EndsRun};
ghost use Rattle.flame_top.specs.Standing.{Stands, Carries, IsOfInput, Keeps};

use crate::ending::{Carried, Ending};
use crate::inputs::{program_in, start_in};
use flame_driver::{DriveEnd, Driven, drive, file_name};
use flame_flowrun::FlowRunner;
use flame_layerrun::Layers;
use flame_nodes::Nodes;
use flame_outside::{Depot, Gate, Sink};
use flame_popfile::{Format, Start};
use flame_program::Program;
use flame_report::sim_text;
use flame_rows::{Copied, NoMemory, Text};
use flame_runner::ClosureRunner;
use flame_words::{How, RunOrder, Way};
use flame_world::{Turn, World};
use std::alloc::Global;
use std::sync::Wait;
use std::thread::Threads;

/// The version that an order asks for.
fn version(number: u32) -> Format
    ensures { result ≡ version number }
{
    if number == 2 {
        Format::Two
    } else {
        Format::One
    }
}

/// As many workers, and one at least.
fn some(workers: u32) -> u32
    ensures { 1 ≤ result }
{
    workers.max(1)
}

/// The iteration of this number of a world, by workers who share the work as it is ordered.
fn iterate<Rt: Threads + Wait + Sync, G: Gate>(
    rt: &Rt,
    alloc: Global,
    gate: &G,
    how: &How,
    program: &Program,
    world: World,
    iteration: i32,
    fuel: u32,
) -> Result<Turn, NoMemory>
    requires { FitsModel program.now.model world }
    ensures { IfOk result (λ turn. turn ≡ meant program.now world iteration fuel) }
{
    let workers = some(how.workers);
    match how.way {
        Way::Layers => Layers::new(gate, workers).iterate(
            rt, alloc, program, world, iteration, fuel,
        ),
        Way::Flow => FlowRunner::new(gate, workers).iterate(
            rt, alloc, program, world, iteration, fuel,
        ),
        Way::Nodes => Nodes::new(gate, workers, how.by.copy(alloc)?).iterate(
            rt, alloc, program, world, iteration, fuel,
        ),
    }
}

/// Runs a program from a start on, as it is ordered. The workers call the gate just before they run a piece.
pub(crate) fn run_from<Rt: Threads + Wait + Sync, D: Depot, S: Sink, G: Gate>(
    rt: &Rt,
    alloc: Global,
    gate: &G,
    program: &Program,
    order: &RunOrder,
    start: Start,
    depot: &mut D,
    out: &mut S,
) -> Carried
    requires fits { FitsModel program.now.model start.world }
    requires last { (start.itno +ℤ pos order.now.turns) ≤ℤ pos 2147483647 }
    ensures stands { Stands result.ending result.files (ordered_run order.now program.now start)
        (outside (D.seen depot.old) (S.seen out.old)) (outside (D.seen depot.new) (S.seen out.new)) }
    ensures keeps { Keeps result.ending result.files
        (outside (D.seen depot.old) (S.seen out.old)) (outside (D.seen depot.new) (S.seen out.new)) }
    ensures driven { ¬ IsOfInput result.ending }
    ensures puts { OnlyPuts (D.seen depot.old) (D.seen depot.new) }
    ensures grows { Grows (S.seen out.old) (S.seen out.new) }
{
    let prefix = order.out.as_str();
    let how = &order.how;
    let call = |alloc: Global, program: &Program, world: World, iteration: i32, fuel: u32| -> Result<
        Turn,
        NoMemory,
    >
        requires { FitsModel program.now.model world }
        ensures { IfOk result (λ turn. turn ≡ meant program.now world iteration fuel) }
    { iterate(rt, alloc, gate, how, program, world, iteration, fuel) };
    let Driven { end, files } = drive(
        rt,
        alloc,
        &mut ClosureRunner { call },
        program,
        start,
        order.turns,
        order.how.fuel,
        version(order.format),
        prefix,
        some(how.workers),
        depot,
        out,
    );
    Carried {
        ending: ending_of(alloc, program, prefix, end),
        files,
    }
}

/// How an order ends whose run ended so, of files whose names begin with this prefix.
fn ending_of(alloc: Global, program: &Program, prefix: &str, end: DriveEnd) -> Ending
    ensures { EndsRun program.now.model prefix.now end result }
{
    match end {
        DriveEnd::Done => Ending::Done,
        DriveEnd::Fault(fault) => match sim_text(alloc, &program.source().model, &fault) {
            Ok(line) => Ending::Faulted(line),
            Err(NoMemory) => Ending::NoMemory,
        },
        DriveEnd::FileFault(itno) => match file_name(alloc, prefix, itno) {
            Ok(name) => Ending::FileFault(Text::from(name)),
            Err(NoMemory) => Ending::NoMemory,
        },
        DriveEnd::OutputFault => Ending::OutputFault,
        DriveEnd::NoMemory => Ending::NoMemory,
    }
}

/// `run` of a program: reads the population, and runs.
fn run_program<Rt: Threads + Wait + Sync, D: Depot, S: Sink, G: Gate>(
    rt: &Rt,
    alloc: Global,
    gate: &G,
    program: &Program,
    order: &RunOrder,
    depot: &mut D,
    out: &mut S,
) -> Carried
    ensures carries { (told : Files) → (D.seen depot.old).files ≡ Some told
        → Carries (run_of_source told order.now program.now) result.ending result.files
        (outside (D.seen depot.old) (S.seen out.old)) (outside (D.seen depot.new) (S.seen out.new)) }
    ensures keeps { Keeps result.ending result.files
        (outside (D.seen depot.old) (S.seen out.old)) (outside (D.seen depot.new) (S.seen out.new)) }
{
    match start_in(alloc, depot, order.pop.as_str(), program, order.turns) {
        Ok(start) => run_from(rt, alloc, gate, program, order, start, depot, out),
        Err(ending) => Carried::before_files(ending),
    }
}

/// `run`: reads the model, then the population, and runs.
pub(crate) fn carry_run<Rt: Threads + Wait + Sync, D: Depot, S: Sink, G: Gate>(
    rt: &Rt,
    alloc: Global,
    gate: &G,
    order: &RunOrder,
    depot: &mut D,
    out: &mut S,
) -> Carried
    ensures carries { (told : Files) (read : Reader) → (D.seen depot.old).files ≡ Some told → ReadsTexts read
        → Carries (run_reading read told order.now) result.ending result.files
        (outside (D.seen depot.old) (S.seen out.old)) (outside (D.seen depot.new) (S.seen out.new)) }
    ensures keeps { Keeps result.ending result.files
        (outside (D.seen depot.old) (S.seen out.old)) (outside (D.seen depot.new) (S.seen out.new)) }
{
    match program_in(alloc, depot, order.model.as_str()) {
        Ok(program) => run_program(rt, alloc, gate, &program, order, depot, out),
        Err(ending) => Carried::before_files(ending),
    }
}
