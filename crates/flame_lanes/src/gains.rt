//! What the agents of the functions of a layer leave besides messages, put together from their tasks.

ghost use Rattle.std.specs.Prelude.{◌≡◌, ◌<◌, ◌++◌, ℕ, ℤ, List, [], Some, IfOk, OnOk, length, map, slice_get};
ghost use Rattle.std.specs.List.{All};
ghost use Rattle.flame_spec.specs.declared.outcomes.Outcome.{Outcome};
ghost use Rattle.flame_world.specs.Fields.{Field as Standing};
ghost use Rattle.flame_world.specs.Iterations.{Round as Throughout, outcome_in};
ghost use Rattle.flame_lanes.specs.declared.tasks.Task.{Task};
ghost use Rattle.flame_lanes.specs.LayerGains.{AreOfFunctions, IsGain, IsRestOf};
ghost use Rattle.flame_lanes.specs.LaneTasks.{agents_at};
ghost use Rattle.flame_lanes.specs.TaskMeanings.{left_of};

use crate::jobs::Left;
use flame_leaving::laws::parts_make_the_whole;
use flame_leaving::lesser_fault;
use flame_rows::{NoMemory, Row};
use flame_spec::Born;
use flame_world::{Rest, SimFault};
use std::alloc::Global;

/// What the agents of a function leave besides messages, in any order.
#[derive(Debug, Drop)]
pub struct Gain {
    /// The memories of those that live on.
    pub survivors: Vec<Row>,
    /// The agents that they added.
    pub born: Vec<Born>,
    /// The fault of the least of them in content order that faulted.
    pub fault: Option<SimFault>,
}

/// Adds rows behind others. Where there are none yet their list is taken as it stands.
fn add_rows(all: &mut Vec<Row>, rows: Vec<Row>) -> Result<(), NoMemory>
    ensures { OnOk result (all.new.items ≡ all.old.items ++ rows.items) }
{
    if all.is_empty() {
        *all = rows;
        return Ok(());
    }
    let mut rows = rows;
    all.append(&mut rows)?;
    Ok(())
}

impl Gain {
    /// What nobody leaves.
    fn nothing(alloc: Global) -> Gain
        ensures { (iteration : ℤ) (function : ℕ) (run : List ℤ → Outcome) → IsGain iteration function run [] result }
    {
        Gain {
            survivors: Vec::new(alloc),
            born: Vec::new(alloc),
            fault: None,
        }
    }

    /// Adds what further agents left.
    fn add(&mut self, rest: Rest) -> Result<(), NoMemory>
        ensures { OnOk result ((iteration : ℤ) (function : ℕ) (run : List ℤ → Outcome) (agents more : List (List ℤ))
            → IsGain iteration function run agents self.old
            → IsRestOf iteration function run more rest
            → IsGain iteration function run (agents ++ more) self.new) }
    {
        parts_make_the_whole();
        let survivors = rest.survivors.into_rows();
        let mut born = rest.born.into_items();
        add_rows(&mut self.survivors, survivors)?;
        self.born.append(&mut born)?;
        self.fault = lesser_fault(self.fault.take(), rest.fault);
        Ok(())
    }
}

/// What nobody leaves, for each of so many functions.
fn nothing(alloc: Global, functions: usize) -> Result<Vec<Gain>, NoMemory>
    ensures long { IfOk result (λ gains. length gains.items ≡ functions) }
    ensures none { IfOk result (λ gains. (place : ℕ) (gain : _) → slice_get gains.items place ≡ Some gain
        → (iteration : ℤ) (function : ℕ) (run : List ℤ → Outcome) → IsGain iteration function run [] gain) }
{
    let mut gains = Vec::new(alloc);
    for _function in 0..functions {
        gains.push(Gain::nothing(alloc))?;
    }
    Ok(gains)
}

/// What the agents of each of so many functions left, whose tasks left this.
pub fn gain_all(alloc: Global, functions: usize, lefts: Vec<Left>) -> Result<Vec<Gain>, NoMemory>
    requires { All (λ left. left.place < functions) lefts.items }
    ensures long { IfOk result (λ gains. length gains.items ≡ functions) }
    ensures each { IfOk result (λ gains. (round : Throughout) (read : Standing) (numbers : List ℕ) (tasks : List Task)
        (place function : ℕ) (gain : _)
        → lefts.items ≡ map (left_of round read) tasks
        → AreOfFunctions numbers tasks
        → slice_get numbers place ≡ Some function
        → slice_get gains.items place ≡ Some gain
        → IsGain round.iteration function (outcome_in round function read) (agents_at place tasks) gain) }
{
    parts_make_the_whole();
    let mut gains = nothing(alloc, functions)?;
    for left in lefts {
        gains[left.place].add(left.rest)?;
    }
    Ok(gains)
}
