//! Counts as numbers.

ghost use Rattle.std.specs.Prelude.{◌≡◌, ◌≤◌, ◌^◌, MatchResult};

use crate::fails::NoMemory;

/// The count as a number of 32 bits. `NoMemory` comes exactly where it has more.
pub fn number(count: usize) -> Result<u32, NoMemory>
    ensures { MatchResult result (λ number. number ≡ count) (λ _. 2 ^ 32 ≤ count) }
{
    match u32::try_from(count) {
        Ok(number) => Ok(number),
        Err(_) => Err(NoMemory),
    }
}
