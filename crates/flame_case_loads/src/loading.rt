//! Cases of loading: each section `file NAME` is a file of a depot, and the model file is `m.json`. The lines of the section
//! `fails depot` are the numbers of the reads that fail, from 0. The answer is `accepted agents A functions F messages M` of the
//! program, or the line of the first refusal or of the failed read, as flame_report has it. Where the case has a section
//! `turns`, what is answered of the start comes behind it.

use crate::lines::text_of;
use crate::starting::started;
use flame_case_files::Case;
use flame_load::{LoadFail, LoadFault, load};
use flame_outside::MemDepot;
use flame_program::Program;
use flame_report::{
    check_text, depend_text, file_text, lex_text, name_text, nest_text, parse_text, shape_text,
};
use flame_rows::{Blob, NoMemory};
use flame_spec::Model;
use std::alloc::{AllocError, Global};

/// The name of the model file.
const ROOT: &str = "m.json";

/// The numbers of the reads that fail.
fn failing(alloc: Global, case: &Case) -> Result<Vec<u64>, AllocError> {
    let mut numbers = Vec::new(alloc);
    for line in case.text("fails depot").split('\n') {
        if let Ok(number) = line.parse::<u64>() {
            numbers.push(number)?;
        }
    }
    Ok(numbers)
}

/// A depot with the files of the case.
fn depot_of(alloc: Global, case: &Case) -> Result<MemDepot, NoMemory> {
    let mut depot = MemDepot::new(alloc, failing(alloc, case)?);
    for section in &case.sections {
        if let Some(name) = section.title.strip_prefix("file ") {
            depot.set(name, section.bytes.as_slice())?;
        }
    }
    Ok(depot)
}

/// These words, where a model comes with a fault that does not tell of it, or none where one does.
fn misplaced(alloc: Global) -> Result<Blob, NoMemory> {
    let text = String::from_str(alloc, "a model where none is due, or none where one is\n")?;
    Ok(Blob::of(text.into_bytes()))
}

/// The line of a fault that comes without a model.
fn file_line(alloc: Global, fault: &LoadFault) -> Result<Blob, NoMemory> {
    match fault {
        LoadFault::Missing(name) => file_text(alloc, "missing", name.as_str()),
        LoadFault::TooLarge(name) => file_text(alloc, "too large", name.as_str()),
        LoadFault::NotJson(name) => file_text(alloc, "not JSON", name.as_str()),
        LoadFault::TooMany(name) => file_text(alloc, "too many", name.as_str()),
        LoadFault::Shape(name, shape) => shape_text(alloc, name.as_str(), shape),
        LoadFault::Name(fault) => name_text(alloc, ROOT, fault),
        LoadFault::Nest(fault) => nest_text(alloc, fault),
        LoadFault::Lex(name, fault) => lex_text(alloc, name.as_str(), fault),
        LoadFault::Parse(name, line, fault) => parse_text(alloc, name.as_str(), *line, fault),
        LoadFault::Check(_) | LoadFault::Depend(_) => misplaced(alloc),
    }
}

/// The line of a fault that tells of the model.
fn model_line(alloc: Global, fault: &LoadFault, model: &Model) -> Result<Blob, NoMemory> {
    match fault {
        LoadFault::Check(fault) => check_text(alloc, model, fault),
        LoadFault::Depend(fault) => depend_text(alloc, model, fault),
        _ => misplaced(alloc),
    }
}

/// The line of why nothing was loaded.
fn fail_line(alloc: Global, fail: &LoadFail) -> Result<Blob, NoMemory> {
    match fail {
        LoadFail::Refused(fault) => file_line(alloc, fault),
        LoadFail::RefusedModel(fault, model) => model_line(alloc, fault, model),
        LoadFail::ReadFault(name) => file_text(alloc, "read fault", name.as_str()),
        LoadFail::NoMemory => Err(NoMemory),
    }
}

/// The same, as a text.
fn refused(alloc: Global, fail: &LoadFail) -> Result<String, NoMemory> {
    text_of(alloc, &fail_line(alloc, fail)?)
}

/// What is told of a program.
fn accepted(alloc: Global, program: &Program) -> Result<String, NoMemory> {
    let model = &program.source().model;
    let agents = model.agents.len();
    let functions = program.functions();
    let messages = model.messages.len();
    let mut text = String::from_str(alloc, "accepted agents ")?;
    writeln!(text, "{agents} functions {functions} messages {messages}")?;
    Ok(text)
}

/// What is told of a program, and of the start for which the case has a section `turns`.
fn loaded(
    alloc: Global,
    case: &Case,
    depot: &mut MemDepot,
    program: &Program,
) -> Result<String, NoMemory> {
    let mut text = accepted(alloc, program)?;
    if let Ok(turns) = case.text("turns").trim().parse::<u32>() {
        let more = started(alloc, depot, program, turns)?;
        text.push_str(more.as_str())?;
    }
    Ok(text)
}

/// What loading answers to the case.
fn told(alloc: Global, case: &Case) -> Result<String, NoMemory> {
    let mut depot = depot_of(alloc, case)?;
    match load(alloc, &mut depot, ROOT) {
        Ok(program) => loaded(alloc, case, &mut depot, &program),
        Err(fail) => refused(alloc, &fail),
    }
}

/// The answer to a case of the kind `load`.
pub fn answer_load(alloc: Global, case: &Case) -> Result<String, AllocError> {
    match told(alloc, case) {
        Ok(out) => Ok(out),
        Err(NoMemory) => Err(AllocError),
    }
}
