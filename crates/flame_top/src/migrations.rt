//! `migrate`: a population, written in format 2.

ghost use Rattle.std.specs.Prelude.{◌≡◌, Some, IfOk, IfErr, OnOk};
ghost use Rattle.flame_outside.specs.Files.{Files, with_file, OthersStay};
ghost use Rattle.flame_outside.specs.Printed.{Prints};
ghost use Rattle.flame_outside.specs.Frames.{OnlyPuts, Grows};
ghost use Rattle.flame_outside.specs.Scripts.{outside};
ghost use Rattle.flame_popfile.specs.IterationTexts.{text, rows_in};
ghost use Rattle.flame_popfile.specs.declared.formats.Format.TheVariants.{Two as version_two};
ghost use Rattle.flame_load.specs.TextReads.{Reader, ReadsTexts};
ghost use Rattle.flame_top.specs.OrderReports.{no_boards, migrated_line, migrated, migrate_source, migrate_reading};
ghost use Rattle.flame_top.specs.InputAnswers.{IsReadFault};
ghost use Rattle.flame_top.specs.Printing.{StopsPrint, StopsPut};
ghost use Rattle.flame_top.specs.Standing.{Stands, Carries, Keeps, IsFaulted};

use crate::ending::{Carried, Ending};
use crate::files::put_file;
use crate::inputs::{program_in, start_in};
use crate::texts::print_text;
use flame_outside::{Depot, Sink};
use flame_popfile::{Format, Start, text};
use flame_program::Program;
use flame_rows::{Bag, Blob, NoMemory, Seq};
use flame_spec::Model;
use flame_world::{Boards, World};
use itoa::Buffer;
use std::alloc::Global;
use std::fmt::Write;

/// A board without messages for each message type.
fn no_boards(alloc: Global, model: &Model) -> Result<Boards, NoMemory>
    ensures { IfOk result (λ boards. boards ≡ no_boards model.now) }
{
    let messages = model.messages.items();
    let mut boards = Vec::new(alloc);
    for _message in messages {
        boards.push(Bag::empty(alloc))?;
    }
    Ok(Boards {
        boards: Seq::of(boards),
    })
}

/// How many agents there are. The error comes where 64 bits cannot number them.
fn agents_in(world: &World) -> Result<u64, NoMemory>
    ensures { IfOk result (λ agents. agents ≡ rows_in world.now.agents) }
{
    let bags = world.agents.items();
    let mut agents = 0u64;
    for bag in bags {
        match agents.checked_add(bag.rows().len() as u64) {
            Some(more) => agents = more,
            None => return Err(NoMemory),
        }
    }
    Ok(agents)
}

/// The line of `migrate`.
fn migrated_text(alloc: Global, world: &World) -> Result<Blob, NoMemory>
    ensures { IfOk result (λ line. line ≡ migrated_line world.now) }
{
    let mut numbers = Buffer::new();
    let agents = numbers.format(agents_in(world)?);
    let mut line = String::from_str(alloc, "migrated agents ")?;
    write!(line, "{agents}\n")?;
    Ok(Blob::of(line.into_bytes()))
}

/// Puts the population as the file of that name.
fn put_population<D: Depot>(
    alloc: Global,
    program: &Program,
    start: &Start,
    name: &str,
    depot: &mut D,
) -> Result<(), Ending>
    ensures ok { OnOk result ((D.seen depot.new).files ≡ with_file name.now
        (text program.now.model version_two start.now.itno start.now.world (no_boards program.now.model))
        (D.seen depot.old).files) }
    ensures stops { IfErr result (StopsPut name.now (D.seen depot.old) (D.seen depot.new)) }
    ensures others { OthersStay name.now (D.seen depot.old).files (D.seen depot.new).files }
    ensures puts { OnlyPuts (D.seen depot.old) (D.seen depot.new) }
{
    let boards = no_boards(alloc, &program.source().model)?;
    let bytes = text(
        alloc,
        program,
        Format::Two,
        start.itno,
        &start.world,
        &boards,
    )?;
    put_file(alloc, name, bytes.bytes(), depot)
}

/// Prints the line of `migrate`.
fn print_migrated<S: Sink>(alloc: Global, world: &World, out: &mut S) -> Result<(), Ending>
    ensures ok { OnOk result (Prints (migrated_line world.now) (S.seen out.old) (S.seen out.new)) }
    ensures stops { IfErr result (StopsPrint (migrated_line world.now) (S.seen out.old) (S.seen out.new)) }
    ensures grows { Grows (S.seen out.old) (S.seen out.new) }
{
    let line = migrated_text(alloc, world)?;
    print_text(line.bytes(), out)
}

/// Puts the file, and then prints the line.
fn write_population<D: Depot, S: Sink>(
    alloc: Global,
    program: &Program,
    start: &Start,
    to: &str,
    depot: &mut D,
    out: &mut S,
) -> Carried
    ensures stands { Stands result.ending result.files (migrated to.now program.now start.now)
        (outside (D.seen depot.old) (S.seen out.old)) (outside (D.seen depot.new) (S.seen out.new)) }
    ensures keeps { Keeps result.ending result.files
        (outside (D.seen depot.old) (S.seen out.old)) (outside (D.seen depot.new) (S.seen out.new)) }
    ensures faultless { ¬ IsFaulted result.ending }
    ensures read { ¬ IsReadFault result.ending }
{
    if let Err(ending) = put_population(alloc, program, start, to, depot) {
        return Carried { ending, files: 0 };
    }
    match print_migrated(alloc, &start.world, out) {
        Ok(()) => Carried {
            ending: Ending::Done,
            files: 1,
        },
        Err(ending) => Carried { ending, files: 1 },
    }
}

/// `migrate` of a program: reads the population, and writes it.
fn migrate_program<D: Depot, S: Sink>(
    alloc: Global,
    program: &Program,
    pop: &str,
    to: &str,
    depot: &mut D,
    out: &mut S,
) -> Carried
    ensures carries { (told : Files) → (D.seen depot.old).files ≡ Some told
        → Carries (migrate_source told program.now pop.now to.now) result.ending result.files
        (outside (D.seen depot.old) (S.seen out.old)) (outside (D.seen depot.new) (S.seen out.new)) }
    ensures keeps { Keeps result.ending result.files
        (outside (D.seen depot.old) (S.seen out.old)) (outside (D.seen depot.new) (S.seen out.new)) }
    ensures faultless { ¬ IsFaulted result.ending }
{
    match start_in(alloc, depot, pop, program, 0) {
        Ok(start) => write_population(alloc, program, &start, to, depot, out),
        Err(ending) => Carried::before_files(ending),
    }
}

/// `migrate`: reads the model, then the population, and writes it in format 2.
pub(crate) fn carry_migrate<D: Depot, S: Sink>(
    alloc: Global,
    model: &str,
    pop: &str,
    to: &str,
    depot: &mut D,
    out: &mut S,
) -> Carried
    ensures carries { (told : Files) (read : Reader) → (D.seen depot.old).files ≡ Some told → ReadsTexts read
        → Carries (migrate_reading read told model.now pop.now to.now) result.ending result.files
        (outside (D.seen depot.old) (S.seen out.old)) (outside (D.seen depot.new) (S.seen out.new)) }
    ensures keeps { Keeps result.ending result.files
        (outside (D.seen depot.old) (S.seen out.old)) (outside (D.seen depot.new) (S.seen out.new)) }
    ensures faultless { ¬ IsFaulted result.ending }
{
    match program_in(alloc, depot, model) {
        Ok(program) => migrate_program(alloc, &program, pop, to, depot, out),
        Err(ending) => Carried::before_files(ending),
    }
}
