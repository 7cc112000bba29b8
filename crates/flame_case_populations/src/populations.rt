//! Cases of populations: the section `model` is a model in JSON, each section `text` a function file, in the order of the
//! model, and `population` the JSON text of a population, which `turns` iterations are to follow (0 without it). What it
//! holds is written in the version that `format` names (1 without it), with the boards of the section `boards`, and with
//! the number of the section `itno` in place of its own, where there is one. The answer is that text and the line that
//! tells of it, or the fault, as `Shape at /states/itno`; `not JSON` where the population is none, and `not accepted`
//! where names, check or plan refuse the source.

ghost use Rattle.std.specs.Prelude.{IsTrue};
ghost use Rattle.flame_spec.specs.WellFormed.{is_well_formed};

use crate::boards::boards_in;
use flame_case_files::Case;
use flame_case_programs::{Sourced, program_of, source_in};
use flame_popfile::{Format, PopFault, Start, line, population, text};
use flame_program::Program;
use flame_rows::{Fail, NoMemory};
use flame_spec::Source;
use flame_world::{Boards, World};
use serde_json::Value;
use std::alloc::{AllocError, Global};
use std::str;

/// The version in which the case wants the text.
fn format_in(case: &Case) -> Format {
    if case.text("format").trim() == "2" {
        Format::Two
    } else {
        Format::One
    }
}

/// The number with which the text is written.
fn itno_in(case: &Case, start: &Start) -> i32 {
    let given = case.text("itno").trim();
    given.parse::<i32>().unwrap_or(start.itno)
}

/// How many iterations are to follow.
fn turns_in(case: &Case) -> u32 {
    let given = case.text("turns").trim();
    given.parse::<u32>().unwrap_or(0)
}

/// Adds these bytes, where they are a text.
fn print_bytes(out: &mut String, bytes: &[u8]) -> Result<(), AllocError> {
    match str::from_utf8(bytes) {
        Ok(text) => out.push_str(text),
        Err(_) => writeln!(out, "no UTF-8"),
    }
}

/// Adds the fault, as `Shape at /states/itno`.
fn print_fault(out: &mut String, fault: &PopFault) -> Result<(), AllocError> {
    let kind = fault.kind.name();
    let path = fault.path.as_str();
    if path.is_empty() {
        return writeln!(out, "{kind} at the root");
    }
    writeln!(out, "{kind} at {path}")
}

/// Adds the text of the world and boards, in the version that the case wants.
fn print_text(
    alloc: Global,
    out: &mut String,
    case: &Case,
    program: &Program,
    itno: i32,
    world: &World,
    boards: &Boards,
) -> Result<(), NoMemory> {
    let bytes = text(alloc, program, format_in(case), itno, world, boards)?;
    print_bytes(out, bytes.bytes())?;
    Ok(())
}

/// Adds the line that tells of the world and boards.
fn print_line(
    alloc: Global,
    out: &mut String,
    itno: i32,
    world: &World,
    boards: &Boards,
) -> Result<(), NoMemory> {
    let bytes = line(alloc, itno, world, boards)?;
    print_bytes(out, bytes.bytes())?;
    Ok(())
}

/// The text of the start with the boards of the case, and the line that tells of it.
fn written(
    alloc: Global,
    case: &Case,
    program: &Program,
    start: &Start,
) -> Result<String, NoMemory> {
    let itno = itno_in(case, start);
    let boards = boards_in(alloc, case, &program.source().model)?;
    let mut out = String::new(alloc);
    print_text(alloc, &mut out, case, program, itno, &start.world, &boards)?;
    print_line(alloc, &mut out, itno, &start.world, &boards)?;
    Ok(out)
}

/// The fault, as a text.
fn refused(alloc: Global, fault: &PopFault) -> Result<String, NoMemory> {
    let mut out = String::new(alloc);
    print_fault(&mut out, fault)?;
    Ok(out)
}

/// What the value holds, or its fault.
fn read(alloc: Global, case: &Case, program: &Program, value: &Value) -> Result<String, NoMemory> {
    match population(alloc, value, program, turns_in(case)) {
        Ok(start) => written(alloc, case, program, &start),
        Err(Fail::Fault(fault)) => refused(alloc, &fault),
        Err(Fail::NoMemory) => Err(NoMemory),
    }
}

/// The same of the case's population, where it is JSON.
fn valued(alloc: Global, case: &Case, program: &Program) -> Result<String, NoMemory> {
    match Value::from_str(alloc, case.text("population")) {
        Ok(value) => read(alloc, case, program, &value),
        Err(error) if error.is_memory() => Err(NoMemory),
        Err(_) => Ok(String::from_str(alloc, "not JSON\n")?),
    }
}

/// The same for a source, where it is accepted.
fn answered(alloc: Global, case: &Case, source: Source) -> Result<String, NoMemory>
    requires formed { IsTrue (is_well_formed source.model) }
{
    match program_of(alloc, source)? {
        Some(program) => valued(alloc, case, &program),
        None => Ok(String::from_str(alloc, "not accepted\n")?),
    }
}

/// The answer to a case of the kind `population`.
pub fn answer_population(alloc: Global, case: &Case) -> Result<String, AllocError> {
    match source_in(alloc, case)? {
        Sourced::Told(told) => Ok(told),
        Sourced::Source(source) => match answered(alloc, case, source) {
            Ok(out) => Ok(out),
            Err(NoMemory) => Err(AllocError),
        },
    }
}
