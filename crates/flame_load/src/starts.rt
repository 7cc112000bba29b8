//! Populations to begin a run with.

ghost use Rattle.std.specs.Prelude.{◌≡◌, ℕ, List, Some, Ok, IfOk, IfErr};
ghost use Rattle.serde_json.specs.View.{view};
ghost use Rattle.flame_outside.specs.Files.{Files};
ghost use Rattle.flame_outside.specs.Frames.{OnlyReads};
ghost use Rattle.flame_outside.specs.Failures.{ReadFailed};
ghost use Rattle.flame_load.specs.FileAnswers.{IsFailed};
ghost use Rattle.flame_load.specs.FileReads.{file_in};
ghost use Rattle.flame_load.specs.StartAnswers.{GivesStart, IsHeld, IsStartReadFault, start_failure};
ghost use Rattle.flame_load.specs.StartReads.{population_limit, start_in, starting};

use crate::faults::FileFault;
use crate::files::{FileFail, file_in, json_in};
use flame_outside::Depot;
use flame_popfile::{PopFault, Start, population};
use flame_program::Program;
use flame_rows::Fail;
use serde_json::Value;
use std::alloc::Global;

/// The most bytes of a population.
const POPULATION_LIMIT: usize = 67_108_864;

/// Why there is no start.
#[derive(Debug, Drop)]
pub enum StartFail {
    /// No file has that name.
    Missing,
    /// The file has more than 67,108,864 bytes.
    TooLarge,
    /// serde_json does not read the file.
    NotJson,
    /// The value has this fault: the first one of a population of the program's model.
    Pop(PopFault),
    /// The file could not be read. The count of failed reads rose.
    ReadFault,
    /// Memory was not found, or 32 bits cannot hold the width of a row.
    NoMemory,
}

/// Why there is no start where the file gives nothing.
fn start_fail(fail: FileFail) -> StartFail
    ensures fails { result ≡ start_failure fail }
    ensures failed { IsStartReadFault result → IsFailed fail }
{
    match fail {
        FileFail::Fault(FileFault::Missing) => StartFail::Missing,
        FileFail::Fault(FileFault::TooLarge) => StartFail::TooLarge,
        FileFail::Fault(FileFault::NotJson) => StartFail::NotJson,
        FileFail::Failed => StartFail::ReadFault,
        FileFail::NoMemory => StartFail::NoMemory,
    }
}

/// The start that the value holds for the program's model.
#[tactic(auto, using(crate::proofs::KnownOrRefused::faultless, crate::proofs::KnownOrRefused::refuses, crate::proofs::Origin::is_held))]
fn start_in(alloc: Global, value: &Value, program: &Program, turns: u32) -> Result<Start, StartFail>
    ensures gives { GivesStart result (start_in program.now.model turns (view value.now)) }
    ensures held { IfOk result (IsHeld program.now.model turns) }
    ensures calm { IfErr result (λ fail. ¬ IsStartReadFault fail) }
{
    match population(alloc, value, program, turns) {
        Ok(start) => Ok(start),
        Err(Fail::Fault(fault)) => Err(StartFail::Pop(fault)),
        Err(Fail::NoMemory) => Err(StartFail::NoMemory),
    }
}

/// The start that the bytes of a population hold for the program's model: read by their tokens where they are written as a writer
/// does, and else as a value.
#[tactic(auto, using(crate::proofs::Origin::held_gives, crate::proofs::Origin::held, crate::proofs::Origin::value_gives, crate::proofs::Origin::json_stops))]
fn start_of(alloc: Global, bytes: &[u8], program: &Program, turns: u32) -> Result<Start, StartFail>
    ensures gives { (told : Files) (name : List ℕ) → file_in told population_limit name ≡ Ok bytes.now
        → GivesStart result (starting told program.now.model turns name) }
    ensures held { IfOk result (IsHeld program.now.model turns) }
    ensures calm { IfErr result (λ fail. ¬ IsStartReadFault fail) }
{
    if let Some(start) = flame_starts::start(alloc, bytes, program, turns) {
        return Ok(start);
    }
    match json_in(alloc, bytes) {
        Ok(value) => start_in(alloc, &value, program, turns),
        Err(fail) => Err(start_fail(fail)),
    }
}

/// The start that the population file of this name holds for the program's model: the number of its iteration and its world,
/// from which `turns` iterations are to follow. The file has at most 67,108,864 bytes.
///
/// # Errors
///
/// `Missing`, `TooLarge`, `NotJson` and `Pop` have the first refusal, in this order; `Pop` has the first fault of the
/// population. `ReadFault` comes only where the depot's count of failed reads rose. `NoMemory` is want of memory, also where
/// 32 bits cannot hold the width of a row. Whatever it answers, the depot has only been read.
#[tactic(auto, using(crate::proofs::Origin::file_stops))]
pub fn start<D: Depot>(
    alloc: Global,
    depot: &mut D,
    name: &str,
    program: &Program,
    turns: u32,
) -> Result<Start, StartFail>
    // Where the depot tells its files.
    ensures gives { (told : Files) → (D.seen depot.old).files ≡ Some told
        → GivesStart result (starting told program.now.model turns name.now) }

    // Whatever the depot tells.
    ensures held { IfOk result (IsHeld program.now.model turns) }
    ensures read_fault { IfErr result (λ fail. IsStartReadFault fail
        → ReadFailed (D.seen depot.old) (D.seen depot.new)) }
    ensures reads { OnlyReads (D.seen depot.old) (D.seen depot.new) }
{
    match file_in(depot, name, POPULATION_LIMIT) {
        Ok(bytes) => start_of(alloc, bytes.bytes(), program, turns),
        Err(fail) => Err(start_fail(fail)),
    }
}
