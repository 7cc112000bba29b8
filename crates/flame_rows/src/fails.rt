//! Why a call gives no answer.

use std::alloc::{AllocError, AllocFailed};

/// Memory was not found.
#[derive(Clone, Copy, Debug, PartialEq, Eq)]
pub struct NoMemory;

impl From<AllocError> for NoMemory {
    fn from(_error: AllocError) -> NoMemory {
        NoMemory
    }
}

impl<T: Drop> From<AllocFailed<T>> for NoMemory {
    fn from(_error: AllocFailed<T>) -> NoMemory {
        NoMemory
    }
}

/// Why a call gives no answer: its input has a fault of the kind `F`, or memory was not found.
#[derive(Debug, Drop)]
pub enum Fail<F> {
    /// The input's fault.
    Fault(F),
    /// Memory was not found.
    NoMemory,
}

impl<F> From<NoMemory> for Fail<F> {
    ghost use Rattle.std.specs.Prelude.{◌≡◌};
    ghost use Rattle.flame_rows.specs.declared.fails.Fail.TheVariants.{NoMemory};

    ghost from_gives = { λ _ fail. fail ≡ NoMemory };

    fn from(_error: NoMemory) -> Fail<F> {
        Fail::NoMemory
    }
}

impl<F> From<AllocError> for Fail<F> {
    ghost use Rattle.std.specs.Prelude.{◌≡◌};
    ghost use Rattle.flame_rows.specs.declared.fails.Fail.TheVariants.{NoMemory};

    ghost from_gives = { λ _ fail. fail ≡ NoMemory };

    fn from(_error: AllocError) -> Fail<F> {
        Fail::NoMemory
    }
}

impl<F, T: Drop> From<AllocFailed<T>> for Fail<F> {
    ghost use Rattle.std.specs.Prelude.{◌≡◌};
    ghost use Rattle.flame_rows.specs.declared.fails.Fail.TheVariants.{NoMemory};

    ghost from_gives = { λ _ fail. fail ≡ NoMemory };

    fn from(_error: AllocFailed<T>) -> Fail<F> {
        Fail::NoMemory
    }
}
