//! How runs end.

ghost use Rattle.std.specs.Prelude.{◌≡◌, IfOk};
ghost use Rattle.flame_code.specs.Meanings.{memory_after as after};
ghost use Rattle.flame_machine.specs.RunsInto.{outcome_of_all};

use flame_rows::{NoMemory, Row, Seq};
use flame_spec::{Born, Effect, Fault, Outcome, Sent};
use std::alloc::Global;

/// How an agent's run ended, beside the messages and births that it added.
#[derive(Drop)]
pub enum Ending {
    /// It returned, or ran off its end: the agent's memory, or `None` where the function removed the agent, and the fuel that
    /// is left.
    Ended(Option<Row>, u32),
    /// It faulted.
    Faulted(Fault),
}

/// What a run of a code came to.
#[derive(Drop)]
pub enum Called {
    /// Its value, and the fuel that is left.
    Returned(i32, u32),
    /// Its fault.
    Faulted(Fault),
}

/// The agent's memory, or none where the function returned another value than 0. A short row takes no memory.
pub fn memory_after(alloc: Global, value: i32, memory: &[i32]) -> Result<Option<Row>, NoMemory>
    ensures { IfOk result (λ left. left ≡ after value memory.now) }
{
    if value == 0 {
        Ok(Some(Row::of_slice(alloc, memory)?))
    } else {
        Ok(None)
    }
}

/// The outcome of a run that ended so and added no more than these messages and births.
pub fn whole(ending: Ending, sent: Vec<Sent>, born: Vec<Born>) -> Outcome
    ensures { result ≡ outcome_of_all ending sent.items born.items }
{
    match ending {
        Ending::Ended(memory, fuel) => Outcome::Ended(Effect {
            memory,
            sent: Seq::of(sent),
            born: Seq::of(born),
            fuel,
        }),
        Ending::Faulted(fault) => Outcome::Faulted(fault),
    }
}
