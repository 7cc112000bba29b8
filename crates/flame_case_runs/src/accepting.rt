//! Cases that are answered over the programs of their sources.

ghost use Rattle.std.specs.Prelude.{IsTrue};
ghost use Rattle.flame_spec.specs.WellFormed.{is_well_formed};

use flame_case_files::Case;
use flame_case_programs::{Sourced, program_of, source_in};
use flame_program::Program;
use flame_rows::NoMemory;
use flame_spec::Source;
use std::alloc::{AllocError, Global};

/// What is told over the program of the source, where it is accepted.
fn accepted<F: Fn(&Program) -> Result<String, NoMemory>>(
    alloc: Global,
    source: Source,
    tell: F,
) -> Result<String, NoMemory>
    requires formed { IsTrue (is_well_formed source.model) }
    requires callable { F.IsAlwaysCallable tell }
{
    match program_of(alloc, source)? {
        Some(program) => tell(&program),
        None => Ok(String::from_str(alloc, "not accepted\n")?),
    }
}

/// The answer to a case: what is told over the program of the source that it gives.
pub(crate) fn answer_over<F: Fn(&Program) -> Result<String, NoMemory>>(
    alloc: Global,
    case: &Case,
    tell: F,
) -> Result<String, AllocError>
    requires { F.IsAlwaysCallable tell }
{
    match source_in(alloc, case)? {
        Sourced::Told(told) => Ok(told),
        Sourced::Source(source) => match accepted(alloc, source, tell) {
            Ok(out) => Ok(out),
            Err(NoMemory) => Err(AllocError),
        },
    }
}
