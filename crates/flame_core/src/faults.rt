//! Why nothing came of a call of a core.

use flame_rows::NoMemory;

/// Why nothing came of a call of a core, which is as it was.
#[derive(Debug, Drop)]
pub enum StepFault {
    /// What was asked for is not legal.
    Illegal,
    /// Memory was not found.
    NoMemory,
}

impl From<NoMemory> for StepFault {
    ghost use Rattle.std.specs.Prelude.{◌≡◌};
    ghost use Rattle.flame_core.specs.declared.faults.StepFault.TheVariants.{NoMemory as OutOfMemory};

    ghost from_gives = { λ _ fault. fault ≡ OutOfMemory };

    fn from(_cause: NoMemory) -> StepFault {
        StepFault::NoMemory
    }
}
