//! How an order ends whose inputs give nothing.

ghost use Rattle.std.specs.Prelude.{◌≡◌, IfOk};
ghost use Rattle.flame_load.specs.LoadAnswers.{IsTold, TellsOf, TellsOfNone};
ghost use Rattle.flame_top.specs.RefusalLines.{files_line, model_line};
ghost use Rattle.flame_top.specs.InputAnswers.{IsLoadEnding, IsStartEnding, IsFileEnding, StopsReading, line_ending};

use crate::ending::Ending;
use flame_load::{FileFault, LoadFail, LoadFault, StartFail};
use flame_report::{
    check_text, depend_text, file_text, lex_text, name_text, nest_text, parse_text, pop_text,
    shape_text,
};
use flame_rows::{Blob, NoMemory, Text};
use flame_spec::Model;
use std::alloc::Global;

/// The line of a fault that tells of no model, where the root's model file has this name.
fn files_text(alloc: Global, root: &str, fault: &LoadFault) -> Result<Blob, NoMemory>
    requires { TellsOfNone fault.now }
    ensures { IfOk result (λ bytes. bytes ≡ files_line root.now fault.now) }
{
    match fault {
        LoadFault::Missing(name) => file_text(alloc, "missing", name.as_str()),
        LoadFault::TooLarge(name) => file_text(alloc, "too large", name.as_str()),
        LoadFault::NotJson(name) => file_text(alloc, "not JSON", name.as_str()),
        LoadFault::TooMany(name) => file_text(alloc, "too many", name.as_str()),
        LoadFault::Shape(name, shape) => shape_text(alloc, name.as_str(), shape),
        LoadFault::Name(fault) => name_text(alloc, root, fault),
        LoadFault::Lex(name, fault) => lex_text(alloc, name.as_str(), fault),
        LoadFault::Parse(name, line, fault) => parse_text(alloc, name.as_str(), *line, fault),
        LoadFault::Nest(fault) => nest_text(alloc, fault),
        LoadFault::Check(_) | LoadFault::Depend(_) => unreachable!(),
    }
}

/// The line of a fault that tells of this model.
fn model_text(alloc: Global, model: &Model, fault: &LoadFault) -> Result<Blob, NoMemory>
    requires { TellsOf model.now fault.now }
    ensures { IfOk result (λ bytes. bytes ≡ model_line model.now fault.now) }
{
    match fault {
        LoadFault::Check(fault) => check_text(alloc, model, fault),
        LoadFault::Depend(fault) => depend_text(alloc, model, fault),
        _ => unreachable!(),
    }
}

/// The ending by this line, or by want of memory for it.
pub(crate) fn refused(line: Result<Blob, NoMemory>) -> Ending
    ensures { result ≡ line_ending line }
{
    match line {
        Ok(line) => Ending::Refused(line),
        Err(NoMemory) => Ending::NoMemory,
    }
}

/// How an order ends whose program was not loaded, where the root's model file has this name.
pub(crate) fn load_ending(alloc: Global, root: &str, fail: LoadFail) -> Ending
    requires told { IsTold fail }
    ensures ending { IsLoadEnding root.now fail result }
    ensures line { StopsReading result }
{
    match fail {
        LoadFail::Refused(fault) => refused(files_text(alloc, root, &fault)),
        LoadFail::RefusedModel(fault, model) => refused(model_text(alloc, &model, &fault)),
        LoadFail::ReadFault(name) => Ending::ReadFault(name),
        LoadFail::NoMemory => Ending::NoMemory,
    }
}

/// How an order ends where the file of this name is not as it is wanted.
pub(crate) fn file_ending(alloc: Global, name: &str, fault: FileFault) -> Ending
    ensures ending { IsFileEnding name.now fault result }
    ensures line { StopsReading result }
{
    match fault {
        FileFault::Missing => refused(file_text(alloc, "missing", name)),
        FileFault::TooLarge => refused(file_text(alloc, "too large", name)),
        FileFault::NotJson => refused(file_text(alloc, "not JSON", name)),
    }
}

/// How an order ends whose population, in the file of this name, was not read.
pub(crate) fn start_ending(alloc: Global, name: &str, fail: StartFail) -> Ending
    ensures ending { IsStartEnding name.now fail result }
    ensures line { StopsReading result }
{
    match fail {
        StartFail::Missing => refused(file_text(alloc, "missing", name)),
        StartFail::TooLarge => refused(file_text(alloc, "too large", name)),
        StartFail::NotJson => refused(file_text(alloc, "not JSON", name)),
        StartFail::Pop(fault) => refused(pop_text(alloc, name, &fault)),
        StartFail::ReadFault => match Text::of(alloc, name) {
            Ok(name) => Ending::ReadFault(name),
            Err(NoMemory) => Ending::NoMemory,
        },
        StartFail::NoMemory => Ending::NoMemory,
    }
}
