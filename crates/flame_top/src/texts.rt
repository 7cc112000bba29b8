//! The commands that print a text of a program: `check`, `graph` and `code`.

ghost use Rattle.std.specs.Prelude.{◌≡◌, Some, IfOk, IfErr, OnOk, IsTrue};
ghost use Rattle.flame_outside.specs.Files.{Files};
ghost use Rattle.flame_outside.specs.Printed.{Prints};
ghost use Rattle.flame_outside.specs.Frames.{OnlyReads, Grows};
ghost use Rattle.flame_outside.specs.Scripts.{outside};
ghost use Rattle.flame_spec.specs.Counted.{is_counted};
ghost use Rattle.flame_report.specs.GraphTexts.{graph_lines};
ghost use Rattle.flame_load.specs.TextReads.{Reader, ReadsTexts};
ghost use Rattle.flame_top.specs.OrderReports.{accepted_line, text_reading};
ghost use Rattle.flame_top.specs.Standing.{Carries, Keeps, IsFaulted};
ghost use Rattle.flame_top.specs.ModelTexts.{text_as};
ghost use Rattle.flame_top.specs.Printing.{StopsPrint, EndsPrint};

use crate::ending::{Carried, Ending};
use crate::inputs::program_in;
use flame_depend::edges;
use flame_outside::{Depot, Sink, WriteFail};
use flame_program::Program;
use flame_report::{code_text, graph_text};
use flame_rows::{Blob, NoMemory};
use itoa::Buffer;
use std::alloc::Global;
use std::fmt::Write;

/// Which text of a program is printed.
#[derive(Clone, Copy, Debug)]
pub(crate) enum TextOf {
    /// How many agent types, functions and message types it has.
    Counts,
    /// Its functions in order, and which stands before which.
    Graph,
    /// The code of its functions and helpers.
    Code,
}

/// The line of `check`.
fn accepted_text(alloc: Global, program: &Program) -> Result<Blob, NoMemory>
    ensures { IfOk result (λ bytes. bytes ≡ accepted_line program.now.model) }
{
    let model = &program.source().model;
    let mut agents = Buffer::new();
    let mut functions = Buffer::new();
    let mut messages = Buffer::new();
    let agents = agents.format(model.agents.len());
    let functions = functions.format(program.functions());
    let messages = messages.format(model.messages.len());
    let mut line = String::new(alloc);
    line.push_str("accepted agents ")?;
    write!(line, "{agents} functions {functions} messages {messages}\n")?;
    Ok(Blob::of(line.into_bytes()))
}

/// The text of `graph`.
fn graph_of(alloc: Global, program: &Program) -> Result<Blob, NoMemory>
    requires { IsTrue (is_counted program.now.model) }
    ensures { IfOk result (λ bytes. bytes ≡ graph_lines program.now.model) }
{
    let edges = edges(alloc, &program.source().model)?;
    graph_text(alloc, program, &edges)
}

/// That text of a program.
fn text_of(alloc: Global, program: &Program, what: TextOf) -> Result<Blob, NoMemory>
    requires { IsTrue (is_counted program.now.model) }
    ensures { IfOk result (λ bytes. bytes ≡ text_as what program.now) }
{
    match what {
        TextOf::Counts => accepted_text(alloc, program),
        TextOf::Graph => graph_of(alloc, program),
        TextOf::Code => code_text(alloc, program),
    }
}

/// Prints a text by one write. An empty one is not written.
pub(crate) fn print_text<S: Sink>(text: &[u8], out: &mut S) -> Result<(), Ending>
    ensures ok { OnOk result (Prints text.now (S.seen out.old) (S.seen out.new)) }
    ensures stops { IfErr result (StopsPrint text.now (S.seen out.old) (S.seen out.new)) }
    ensures grows { Grows (S.seen out.old) (S.seen out.new) }
{
    if text.is_empty() {
        return Ok(());
    }
    match out.write(text) {
        Ok(()) => Ok(()),
        Err(WriteFail::Failed) => Err(Ending::OutputFault),
        Err(WriteFail::NoMemory) => Err(Ending::NoMemory),
    }
}

/// Prints that text of a program.
fn print_of<S: Sink>(alloc: Global, program: &Program, what: TextOf, out: &mut S) -> Ending
    requires { IsTrue (is_counted program.now.model) }
    ensures ends { EndsPrint (text_as what program.now) (S.seen out.old) (S.seen out.new) result }
    ensures grows { Grows (S.seen out.old) (S.seen out.new) }
{
    match text_of(alloc, program, what) {
        Ok(text) => match print_text(text.bytes(), out) {
            Ok(()) => Ending::Done,
            Err(ending) => ending,
        },
        Err(NoMemory) => Ending::NoMemory,
    }
}

/// `check`, `graph` and `code`: reads the model, and prints that text of it.
pub(crate) fn carry_text<D: Depot, S: Sink>(
    alloc: Global,
    name: &str,
    what: TextOf,
    depot: &mut D,
    out: &mut S,
) -> Carried
    ensures carries { (told : Files) (read : Reader) → (D.seen depot.old).files ≡ Some told → ReadsTexts read
        → Carries (text_reading read told name.now (text_as what)) result.ending result.files
        (outside (D.seen depot.old) (S.seen out.old)) (outside (D.seen depot.new) (S.seen out.new)) }
    ensures keeps { Keeps result.ending result.files
        (outside (D.seen depot.old) (S.seen out.old)) (outside (D.seen depot.new) (S.seen out.new)) }
    ensures faultless { ¬ IsFaulted result.ending }
    ensures files { result.files ≡ 0 }
    ensures reads { OnlyReads (D.seen depot.old) (D.seen depot.new) }
{
    match program_in(alloc, depot, name) {
        Ok(program) => Carried::before_files(print_of(alloc, &program, what, out)),
        Err(ending) => Carried::before_files(ending),
    }
}
