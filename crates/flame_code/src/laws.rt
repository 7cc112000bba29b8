//! Laws of codes. A law is its contract: it computes nothing.

ghost use Rattle.flame_code.specs.CodeLaws.{MeaningsAreUnique, ValidCodesHaveMeanings, FuelNeverRises};

/// A code has at most one outcome for each entry.
pub fn meanings_are_unique()
    ensures { MeaningsAreUnique }
{}

/// Valid code has an outcome for each entry that fits it: it misses no operand, never leaves the code, reads no row that
/// is not there, and ends.
pub fn valid_codes_have_meanings()
    ensures { ValidCodesHaveMeanings }
{}

/// No more fuel is left than there was.
pub fn fuel_never_rises()
    ensures { FuelNeverRises }
{}
