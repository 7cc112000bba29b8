//! Cases of cores: as those of iterations, with a line `pieces 2` in `given`, into how many pieces the agents of a function
//! are cut at most, and the section `events`, an event, a share or a question a line. Each line is answered behind its words:
//!
//! - an event, as [`crate::events`] reads it, by `legal`, and then the core goes on, or by `illegal`;
//! - `absorb 1 0` by the same: a share of this piece of this function, as [`crate::absorbs`] makes it, comes to the core. Behind
//!   it a part of the share can be changed: `fuel 7`, `iteration 4`, `constants [3]`, the agents of the piece, as `agents [5]
//!   [6]`, or the messages that the input of a number reads, as `board 0 [5] [6]`;
//! - `complete` by `true` or `false`;
//! - `pieces 0` by how many pieces the function has and by the agents of each;
//! - `frozen 0` by how many messages the board has and by them, or by `none`;
//! - `boards 0` by how many boards the function reads, where it has a piece, and by the messages of each, or by `none`;
//! - `least fault` by the rank, or by `none`;
//! - `starts from`, whether the core began with what the case gives, by `true` or `false`. Behind it a part of that can be
//!   changed: `fuel 7`, `iteration 4`, `pieces 3`, `constants [3]`, or all agents of a type, as `agent 0 [9] [8]`.
//!
//! Then comes what the iteration comes to, where the core is complete.

ghost use Rattle.std.specs.Prelude.{◌≤◌};
ghost use Rattle.flame_world.specs.WorldFits.{FitsModel};

use crate::absorbs::absorbed;
use crate::beginnings::Beginning;
use crate::events::event_in;
use crate::terms::{Terms, world_copied};
use crate::worlds::print_turn;
use flame_case_files::Case;
use flame_core::{Core, StepFault};
use flame_events::Event;
use flame_program::Program;
use flame_rows::{NoMemory, Row};
use flame_world::World;
use std::alloc::{AllocError, Global};

/// What is answered to a line that says nothing.
pub(crate) const NO_ANSWER: &str = "no event and no question";

/// Whether the event came, where it was found to be allowed or not.
fn came(happened: bool, allowed: bool) -> &'static str {
    match (happened, allowed) {
        (true, true) => "legal",
        (true, false) => "legal, but not allowed",
        (false, true) => "illegal, but allowed",
        (false, false) => "illegal",
    }
}

/// The event comes, where it is legal. Tells whether it is.
fn stepped(core: &mut Core<'_>, event: Event) -> Result<&'static str, NoMemory> {
    let allowed = core.allows(event);
    match core.step(event) {
        Ok(()) => Ok(came(true, allowed)),
        Err(StepFault::Illegal) => Ok(came(false, allowed)),
        Err(StepFault::NoMemory) => Err(NoMemory),
    }
}

/// Adds the rows, each behind a space.
pub(crate) fn print_rows(out: &mut String, rows: &[Row]) -> Result<(), AllocError> {
    for row in rows {
        write!(out, " {:?}", row.values())?;
    }
    Ok(())
}

/// Adds how many pieces the function has, and the agents of each.
fn print_pieces(out: &mut String, core: &Core<'_>, function: u32) -> Result<(), NoMemory> {
    let pieces = core.pieces(function);
    write!(out, "{pieces}")?;
    for number in 0..pieces {
        let piece = core.piece(function, number)?;
        write!(out, ",")?;
        print_rows(out, piece.agents.rows())?;
    }
    Ok(())
}

/// Adds how many messages the board has that is frozen, and these.
fn print_board(out: &mut String, core: &Core<'_>, message: u32) -> Result<(), NoMemory> {
    let Some(frozen) = core.frozen(message) else {
        return Ok(out.push_str("none")?);
    };
    let rows = frozen.bag().rows();
    write!(out, "{}", rows.len())?;
    if !rows.is_empty() {
        write!(out, ",")?;
    }
    Ok(print_rows(out, rows)?)
}

/// Adds how many boards the function reads, where it has a piece, and the messages of each.
fn print_boards(out: &mut String, core: &mut Core<'_>, function: u32) -> Result<(), NoMemory> {
    if core.pieces(function) == 0 {
        return Ok(out.push_str("none")?);
    }
    let boards = core.boards(function)?;
    write!(out, "{}", boards.len())?;
    for board in boards.items() {
        write!(out, ",")?;
        print_rows(out, board.bag().rows())?;
    }
    Ok(())
}

/// Adds the least rank of a function that is faulted.
fn print_least_fault(out: &mut String, core: &Core<'_>) -> Result<(), AllocError> {
    match core.least_fault() {
        Some(rank) => write!(out, "{rank}"),
        None => out.push_str("none"),
    }
}

/// The number behind this word.
fn number_behind(line: &str, word: &str) -> Option<u32> {
    line.strip_prefix(word)?.parse::<u32>().ok()
}

/// Adds the answer to a question.
fn print_told(out: &mut String, core: &mut Core<'_>, question: &str) -> Result<(), NoMemory> {
    if question == "complete" {
        return Ok(write!(out, "{}", core.complete())?);
    }
    if question == "least fault" {
        return Ok(print_least_fault(out, core)?);
    }
    if let Some(function) = number_behind(question, "pieces ") {
        return print_pieces(out, core, function);
    }
    if let Some(message) = number_behind(question, "frozen ") {
        return print_board(out, core, message);
    }
    if let Some(function) = number_behind(question, "boards ") {
        return print_boards(out, core, function);
    }
    Ok(out.push_str(NO_ANSWER)?)
}

/// The words behind the question what the core starts from; none where it is another.
pub(crate) fn words_behind(question: &str) -> Option<&str> {
    let words = question.strip_prefix("starts from")?;
    if words.is_empty() {
        return Some(words);
    }
    words.strip_prefix(" ")
}

/// How it is told whether it began so.
pub(crate) fn truth(began: bool) -> &'static str {
    if began { "true" } else { "false" }
}

/// How it is told whether the core began with what these words change.
fn asked(
    alloc: Global,
    core: &Core<'_>,
    begun: &Beginning<'_>,
    words: &str,
) -> Result<&'static str, NoMemory> {
    match begun.asked(alloc, words)? {
        Some(other) => Ok(truth(other.is_of(core))),
        None => Ok(NO_ANSWER),
    }
}

/// How it is told whether a share was absorbed; none is no share.
fn absorption(legal: Option<bool>) -> &'static str {
    match legal {
        Some(true) => "legal",
        Some(false) => "illegal",
        None => NO_ANSWER,
    }
}

/// Adds the line and its answer.
fn print_answer(
    out: &mut String,
    alloc: Global,
    core: &mut Core<'_>,
    begun: &Beginning<'_>,
    line: &str,
) -> Result<(), NoMemory> {
    write!(out, "{line}: ")?;
    if let Some(event) = event_in(line) {
        out.push_str(stepped(core, event)?)?;
    } else if let Some(words) = line.strip_prefix("absorb ") {
        out.push_str(absorption(absorbed(alloc, core, begun, words)?))?;
    } else if let Some(words) = words_behind(line) {
        out.push_str(asked(alloc, core, begun, words)?)?;
    } else {
        print_told(out, core, line)?;
    }
    Ok(writeln!(out, "")?)
}

/// Adds what the iteration comes to, where the core is complete.
pub(crate) fn print_finish(out: &mut String, core: Core<'_>) -> Result<(), NoMemory> {
    if !core.complete() {
        return Ok(out.push_str("not complete\n")?);
    }
    let turn = core.finish()?;
    Ok(print_turn(out, &turn)?)
}

/// Adds the answers to these lines.
fn print_answers(
    out: &mut String,
    alloc: Global,
    core: &mut Core<'_>,
    begun: &Beginning<'_>,
    lines: &[String],
) -> Result<(), NoMemory> {
    for line in lines {
        print_answer(out, alloc, core, begun, line.as_str())?;
    }
    Ok(())
}

/// Adds the answers to the lines of events.
fn print_events(
    out: &mut String,
    alloc: Global,
    case: &Case,
    core: &mut Core<'_>,
    begun: &Beginning<'_>,
) -> Result<(), NoMemory> {
    let lines = case.lines(alloc, "events")?;
    print_answers(out, alloc, core, begun, lines.as_slice())
}

/// The answers to the lines of events, which come to this core.
fn answers(
    alloc: Global,
    case: &Case,
    mut core: Core<'_>,
    begun: &Beginning<'_>,
) -> Result<String, NoMemory> {
    let mut out = String::new(alloc);
    print_events(&mut out, alloc, case, &mut core, begun)?;
    print_finish(&mut out, core)?;
    Ok(out)
}

/// The same of the core that begins so.
pub(crate) fn core_told(
    alloc: Global,
    case: &Case,
    program: &Program,
    world: World,
    terms: Terms,
) -> Result<String, NoMemory>
    requires fits { FitsModel program.now.model world }
    requires some { 1 ≤ terms.pieces }
{
    let begun = Beginning {
        program,
        world: world_copied(alloc, &world)?,
        terms,
    };
    let core = Core::new(
        alloc,
        program,
        world,
        terms.iteration,
        terms.fuel,
        terms.pieces,
    )?;
    answers(alloc, case, core, &begun)
}
