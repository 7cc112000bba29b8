//! Cases of what `code` and `graph` print: the section `model` is a model in JSON, each section `text` a function file, in
//! the order of the model. The answer is the text of `code_text` or of `graph_text`. Where the source is not accepted, it is
//! `not accepted`.

ghost use Rattle.std.specs.Prelude.{IsTrue};
ghost use Rattle.flame_spec.specs.WellFormed.{is_well_formed};

use crate::accepting::program_of;
use crate::sources::{Sourced, source_in};
use flame_case_files::Case;
use flame_depend::edges;
use flame_program::Program;
use flame_report::{code_text, graph_text};
use flame_rows::{Blob, NoMemory};
use flame_spec::Source;
use std::alloc::{AllocError, Global};
use std::str;

/// A text of `flame_report`.
#[derive(Clone, Copy)]
enum Listing {
    Code,
    Graph,
}

/// What `graph` prints of the program.
fn graph(alloc: Global, program: &Program) -> Result<Blob, NoMemory> {
    let model = &program.source().model;
    if !model.has_few_functions() {
        return Err(NoMemory);
    }
    let edges = edges(alloc, model)?;
    graph_text(alloc, program, &edges)
}

/// These bytes as a text.
fn text_of(alloc: Global, bytes: &Blob) -> Result<String, NoMemory> {
    match str::from_utf8(bytes.bytes()) {
        Ok(text) => Ok(String::from_str(alloc, text)?),
        Err(_) => Ok(String::from_str(alloc, "no UTF-8\n")?),
    }
}

/// What is printed of the program.
fn printed(alloc: Global, what: Listing, program: &Program) -> Result<String, NoMemory> {
    let bytes = match what {
        Listing::Code => code_text(alloc, program)?,
        Listing::Graph => graph(alloc, program)?,
    };
    text_of(alloc, &bytes)
}

/// What is printed of the source's program, where there is one.
fn listed(alloc: Global, what: Listing, source: Source) -> Result<String, NoMemory>
    requires formed { IsTrue (is_well_formed source.model) }
{
    match program_of(alloc, source)? {
        Some(program) => printed(alloc, what, &program),
        None => Ok(String::from_str(alloc, "not accepted\n")?),
    }
}

/// The answer to a case of a kind of which this is printed.
fn answer(alloc: Global, what: Listing, case: &Case) -> Result<String, AllocError> {
    match source_in(alloc, case)? {
        Sourced::Told(told) => Ok(told),
        Sourced::Source(source) => match listed(alloc, what, source) {
            Ok(out) => Ok(out),
            Err(NoMemory) => Err(AllocError),
        },
    }
}

/// The answer to a case of the kind `code`.
pub fn answer_code(alloc: Global, case: &Case) -> Result<String, AllocError> {
    answer(alloc, Listing::Code, case)
}

/// The answer to a case of the kind `graph`.
pub fn answer_graph(alloc: Global, case: &Case) -> Result<String, AllocError> {
    answer(alloc, Listing::Graph, case)
}
