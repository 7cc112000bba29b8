//! Cases of flows: as those of cores, with a call a line in the section `calls`. Each line is answered behind its words:
//!
//! - `ready` by what a worker may do: `short`, `done`, `idle`, or `work 0 1`, with the numbers of a function and of a piece;
//! - `begin` by the piece that `ready` says, which is begun, its agents, and the messages of each board that it reads; or by
//!   `no work`;
//! - `settle 1 0` by `settled` or `illegal`: the share of this piece of this function, as it was begun, comes back. Where none was
//!   begun it has no agents, under empty boards. Behind it a part of the share can be changed, as behind `absorb` of a core;
//! - `cut short` by `short`;
//! - `history` by how many events came, and by each;
//! - `starts from` as of a core.
//!
//! Then comes what the iteration comes to, where the flow is done.

ghost use Rattle.std.specs.Prelude.{◌≤◌};
ghost use Rattle.flame_world.specs.WorldFits.{FitsModel};

use crate::beginnings::Beginning;
use crate::changes::{Change, share_in};
use crate::cores::{NO_ANSWER, print_rows, truth, words_behind};
use crate::events::print_words;
use crate::makings::Making;
use crate::shares::inputs_of;
use crate::terms::{Terms, world_copied};
use crate::worlds::print_turn;
use flame_case_files::Case;
use flame_core::{Core, StepFault};
use flame_flow::{Flow, Job, Ready};
use flame_program::Program;
use flame_rows::{Bag, NoMemory, number};
use flame_world::{Piece, World};
use std::alloc::{AllocError, Global};

/// Adds what a worker may do.
fn print_ready(out: &mut String, ready: Ready) -> Result<(), AllocError> {
    match ready {
        Ready::Short => out.push_str("short"),
        Ready::Done => out.push_str("done"),
        Ready::Idle => out.push_str("idle"),
        Ready::Work(function, piece) => write!(out, "work {function} {piece}"),
    }
}

/// Adds the piece, its agents, and the messages of each board that it reads.
fn print_job(out: &mut String, job: &Job) -> Result<(), AllocError> {
    write!(out, "{} {},", job.piece.function, job.piece.number)?;
    print_rows(out, job.piece.agents.rows())?;
    for board in job.boards.items() {
        write!(out, ", {}:", board.bag().rows().len())?;
        print_rows(out, board.bag().rows())?;
    }
    Ok(())
}

/// Begins the piece that the flow says to begin.
fn print_begun(out: &mut String, flow: &mut Flow<'_>, jobs: &mut Vec<Job>) -> Result<(), NoMemory> {
    match flow.ready() {
        Ready::Work(function, piece) => {
            let job = flow.begin(function, piece)?;
            print_job(out, &job)?;
            jobs.push(job)?;
        }
        _ => out.push_str("no work")?,
    }
    Ok(())
}

/// The piece of this number of the function, where it was begun.
fn job_begun(jobs: &[Job], function: u32, piece: u32) -> Option<&Job> {
    jobs.iter().find(|job| job.piece.function == function && job.piece.number == piece)
}

/// The agents of a piece; none where it was not begun.
fn agents_of(alloc: Global, job: Option<&Job>) -> Result<Bag, NoMemory> {
    match job {
        Some(job) => job.piece.agents.copy(),
        None => Ok(Bag::empty(alloc)),
    }
}

/// A board for each message: those that the piece has before it, and empty ones.
fn boards_of(
    alloc: Global,
    program: &Program,
    job: Option<&Job>,
    messages: u32,
) -> Result<Vec<Bag>, NoMemory> {
    let mut boards = Vec::new(alloc);
    for _message in 0..messages {
        boards.push(Bag::empty(alloc))?;
    }
    if let Some(job) = job {
        let inputs = inputs_of(program, job.piece.function);
        for (message, board) in inputs.iter().zip(job.boards.items()) {
            if let Some(own) = boards.get_mut(*message as usize) {
                *own = board.bag().copy()?;
            }
        }
    }
    Ok(boards)
}

/// What the share of the piece of this number of the function is made from, as it was begun.
fn making_of<'a>(
    alloc: Global,
    begun: &Beginning<'a>,
    jobs: &[Job],
    function: u32,
    piece: u32,
) -> Result<Making<'a>, NoMemory> {
    let job = job_begun(jobs, function, piece);
    let messages = number(begun.program.source().model.messages.len())?;
    let own = Piece {
        function,
        number: piece,
        agents: agents_of(alloc, job)?,
    };
    Making::new(begun, own, boards_of(alloc, begun.program, job, messages)?)
}

/// A share comes back that is made so, with this change: how that is told.
fn settlement(
    alloc: Global,
    flow: &mut Flow<'_>,
    mut making: Making<'_>,
    change: Change,
) -> Result<&'static str, NoMemory> {
    if !making.change(change) {
        return Ok(NO_ANSWER);
    }
    let made = making.made(alloc)?;
    match flow.settle(made.share(alloc)?) {
        Ok(()) => Ok("settled"),
        Err(StepFault::Illegal) => Ok("illegal"),
        Err(StepFault::NoMemory) => Err(NoMemory),
    }
}

/// The share that these words name comes back: how that is told.
fn settled(
    alloc: Global,
    flow: &mut Flow<'_>,
    begun: &Beginning<'_>,
    jobs: &[Job],
    words: &str,
) -> Result<&'static str, NoMemory> {
    match share_in(alloc, words)? {
        Some((function, piece, change)) => {
            let making = making_of(alloc, begun, jobs, function, piece)?;
            settlement(alloc, flow, making, change)
        }
        None => Ok(NO_ANSWER),
    }
}

/// Adds how many events came, and each.
fn print_history(out: &mut String, alloc: Global, flow: &Flow<'_>) -> Result<(), NoMemory> {
    let events = flow.history(alloc)?;
    write!(out, "{}", events.len())?;
    for event in events.items() {
        out.push_str(", ")?;
        print_words(out, *event)?;
    }
    Ok(())
}

/// Whether the flow began so.
fn is_of(begun: &Beginning<'_>, flow: &Flow<'_>) -> bool {
    let terms = begun.terms;
    flow.starts_from(
        begun.program,
        &begun.world,
        terms.iteration,
        terms.fuel,
        terms.pieces,
    )
}

/// How it is told whether the flow began with what these words change.
fn asked(
    alloc: Global,
    flow: &Flow<'_>,
    begun: &Beginning<'_>,
    words: &str,
) -> Result<&'static str, NoMemory> {
    match begun.asked(alloc, words)? {
        Some(other) => Ok(truth(is_of(&other, flow))),
        None => Ok(NO_ANSWER),
    }
}

/// How the line is answered that settles a share or asks with what the flow began.
fn told(
    alloc: Global,
    flow: &mut Flow<'_>,
    begun: &Beginning<'_>,
    jobs: &[Job],
    line: &str,
) -> Result<&'static str, NoMemory> {
    if let Some(words) = line.strip_prefix("settle ") {
        return settled(alloc, flow, begun, jobs, words);
    }
    match words_behind(line) {
        Some(words) => asked(alloc, flow, begun, words),
        None => Ok(NO_ANSWER),
    }
}

/// Adds what a worker may do after the flow was cut short.
fn print_cut_short(out: &mut String, flow: &mut Flow<'_>) -> Result<(), AllocError> {
    flow.cut_short();
    print_ready(out, flow.ready())
}

/// Adds the answer to the line.
fn print_answer(
    out: &mut String,
    alloc: Global,
    flow: &mut Flow<'_>,
    begun: &Beginning<'_>,
    jobs: &mut Vec<Job>,
    line: &str,
) -> Result<(), NoMemory> {
    match line {
        "ready" => Ok(print_ready(out, flow.ready())?),
        "begin" => print_begun(out, flow, jobs),
        "cut short" => Ok(print_cut_short(out, flow)?),
        "history" => print_history(out, alloc, flow),
        _ => Ok(out.push_str(told(alloc, flow, begun, jobs.as_slice(), line)?)?),
    }
}

/// Adds these lines and their answers.
fn print_answers(
    out: &mut String,
    alloc: Global,
    flow: &mut Flow<'_>,
    begun: &Beginning<'_>,
    lines: &[String],
) -> Result<(), NoMemory> {
    let mut jobs = Vec::new(alloc);
    for line in lines {
        write!(out, "{line}: ")?;
        print_answer(out, alloc, flow, begun, &mut jobs, line.as_str())?;
        writeln!(out, "")?;
    }
    Ok(())
}

/// Adds the lines of calls and their answers.
fn print_calls(
    out: &mut String,
    alloc: Global,
    case: &Case,
    flow: &mut Flow<'_>,
    begun: &Beginning<'_>,
) -> Result<(), NoMemory> {
    let lines = case.lines(alloc, "calls")?;
    print_answers(out, alloc, flow, begun, lines.as_slice())
}

/// Adds what the iteration comes to, where the flow is done.
fn print_finish(out: &mut String, flow: Flow<'_>) -> Result<(), NoMemory> {
    match flow.ready() {
        Ready::Done => {
            let turn = flow.finish()?;
            Ok(print_turn(out, &turn)?)
        }
        _ => Ok(out.push_str("not done\n")?),
    }
}

/// The flow that begins so.
fn flow_of<'a>(
    alloc: Global,
    program: &'a Program,
    world: World,
    terms: Terms,
) -> Result<Flow<'a>, NoMemory>
    requires fits { FitsModel program.now.model world }
    requires some { 1 ≤ terms.pieces }
{
    let core = Core::new(
        alloc,
        program,
        world,
        terms.iteration,
        terms.fuel,
        terms.pieces,
    )?;
    Flow::new(alloc, core)
}

/// The answers to the lines of calls, which come to this flow.
fn answers(
    alloc: Global,
    case: &Case,
    mut flow: Flow<'_>,
    begun: &Beginning<'_>,
) -> Result<String, NoMemory> {
    let mut out = String::new(alloc);
    print_calls(&mut out, alloc, case, &mut flow, begun)?;
    print_finish(&mut out, flow)?;
    Ok(out)
}

/// The same of the flow that begins so.
pub(crate) fn flow_told(
    alloc: Global,
    case: &Case,
    program: &Program,
    world: World,
    terms: Terms,
) -> Result<String, NoMemory>
    requires fits { FitsModel program.now.model world }
    requires some { 1 ≤ terms.pieces }
{
    let begun = Beginning {
        program,
        world: world_copied(alloc, &world)?,
        terms,
    };
    let flow = flow_of(alloc, program, world, terms)?;
    answers(alloc, case, flow, &begun)
}
