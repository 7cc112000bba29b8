//! What several calls give together.

ghost use Rattle.std.specs.Prelude.{◌≡◌, Ok, IfOk, map};

use crate::fails::NoMemory;
use std::alloc::Global;

/// What all calls gave, in the same order, where none lacked memory.
pub fn all_of<T: Drop>(alloc: Global, results: Vec<Result<T, NoMemory>>) -> Result<Vec<T>, NoMemory>
    ensures { IfOk result (λ values. map Ok values.items ≡ results.items) }
{
    let mut values = Vec::new(alloc);
    for result in results {
        values.push(result?)?;
    }
    Ok(values)
}
