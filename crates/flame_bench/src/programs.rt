//! What is done with the programs of cases.

use flame_case_files::Case;
use flame_case_programs::{Sourced, program_of, source_in};
use flame_program::Program;
use flame_rows::NoMemory;
use std::alloc::Global;
use std::io;

/// The program of a case's source; none where it has none.
fn program_in(alloc: Global, case: &Case) -> Result<Option<Program>, NoMemory> {
    match source_in(alloc, case)? {
        Sourced::Source(source) => program_of(alloc, source),
        Sourced::Told(_) => Ok(None),
    }
}

/// Measures the program of a case's source. Tells whether it could; there is nothing to measure where it has none.
pub(crate) fn measure_program<F: Fn(&Program) -> io::Result<bool>>(
    alloc: Global,
    case: &Case,
    measure: F,
) -> io::Result<bool>
    requires { F.IsAlwaysCallable measure }
{
    match program_in(alloc, case) {
        Ok(Some(program)) => measure(&program),
        _ => Ok(false),
    }
}
