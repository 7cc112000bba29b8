//! What agents leave.

ghost use Rattle.std.specs.Prelude.{◌≡◌, ◌+◌, ◌<◌, ◌^◌, ◌++◌, ◌∷◌, [], ℕ, ℤ, List, Some, IfOk, OnOk, if◌then◌else◌};
ghost use Rattle.flame_spec.specs.declared.outcomes.Outcome.{Outcome as Ends};
ghost use Rattle.flame_spec.specs.declared.outcomes.Outcome.TheVariants.{Ended, Faulted};
ghost use Rattle.flame_spec.specs.declared.outcomes.Effect.{Effect as Left};
ghost use Rattle.flame_world.specs.declared.faults.SimFault.{SimFault as Told};
ghost use Rattle.flame_world.specs.AgentRuns.{fault_by};
ghost use Rattle.flame_leaving.specs.Leavings.{AreLeft, AreLeftBut};
ghost use Rattle.flame_leaving.specs.WholeLaws.{least_of};

use flame_rows::{NoMemory, Row};
use flame_spec::{Born, Fault, Sent};
use flame_world::SimFault;
use std::alloc::Global;

/// What some agents leave that ran a function, one after another.
#[derive(Debug, Drop)]
pub struct Leaving {
    /// How many they are.
    pub ran: usize,
    /// The memories of those that live on.
    pub survivors: Vec<Row>,
    /// Their messages.
    pub sent: Vec<Sent>,
    /// The agents that they added.
    pub born: Vec<Born>,
    /// The fault of the least of them in content order that faulted.
    pub fault: Option<SimFault>,
}

/// The fault of an agent with this memory.
fn fault_of(iteration: i32, function: u32, memory: &Row, fault: Fault) -> Result<SimFault, NoMemory>
    ensures { IfOk result (λ sim. fault_by iteration function memory.now (Faulted fault) ≡ Some sim) }
{
    Ok(SimFault {
        iteration,
        function,
        cause: fault.cause,
        line: fault.line,
        memory: memory.copy()?,
    })
}

/// Of two faults, where they are, that of the agent that goes before the other in content order.
pub fn lesser_fault(one: Option<SimFault>, two: Option<SimFault>) -> Option<SimFault>
    ensures { result ≡ least_of one two }
{
    match (one, two) {
        (None, two) => two,
        (Some(one), None) => Some(one),
        (Some(one), Some(two)) => {
            if one.memory.compare(&two.memory).is_gt() {
                Some(two)
            } else {
                Some(one)
            }
        }
    }
}

impl Leaving {
    /// What no agent leaves.
    pub fn nothing(alloc: Global) -> Leaving
        ensures { (iteration : ℤ) (function : ℕ) (run : List ℤ → Ends) → AreLeft iteration function run [] result }
    {
        Leaving {
            ran: 0,
            survivors: Vec::new(alloc),
            sent: Vec::new(alloc),
            born: Vec::new(alloc),
            fault: None,
        }
    }

    /// The same, with room for the memories of so many agents, where memory for it is found.
    pub fn expecting(alloc: Global, agents: usize) -> Leaving
        ensures { (iteration : ℤ) (function : ℕ) (run : List ℤ → Ends) → AreLeft iteration function run [] result }
    {
        let mut leaving = Leaving::nothing(alloc);
        let _found = leaving.survivors.reserve(agents).is_ok();
        leaving
    }

    /// Counts a further agent.
    fn count(&mut self)
        requires { self.old.ran + 1 < 2 ^ 64 }
        ensures { self.new ≡ record self.old { ran = self.old.ran + 1 } }
    {
        self.ran += 1;
    }

    /// A further agent ran and ended, and its messages and births stand here already: now it is counted, and the memory
    /// that it keeps, if it lives on, is among the survivors. Where this is what some agents leave and what that one added,
    /// it is what these and then that one leave. After `NoMemory` it is of no further use.
    pub fn add_ended(&mut self, memory: Option<Row>) -> Result<(), NoMemory>
        requires { self.old.ran + 1 < 2 ^ 64 }
        ensures { OnOk result ((iteration : ℤ) (function : ℕ) (run : List ℤ → Ends) (agents : List (List ℤ))
            (own : List ℤ) (effect : Left)
            → run own ≡ Ended effect
            → effect.memory ≡ memory
            → AreLeftBut iteration function run agents own self.old
            → AreLeft iteration function run (agents ++ own ∷ []) self.new) }
    {
        self.count();
        match memory {
            Some(memory) => {
                self.survivors.push(memory)?;
                Ok(())
            }
            None => Ok(()),
        }
    }

    /// Whether the fault of a further agent with this memory is the one to be kept: there is none yet, or that of an agent
    /// that goes after it in content order.
    fn gives_way_to(&self, memory: &Row) -> bool
        ensures { (other : Told) → other.memory ≡ memory.now
            → least_of self.now.fault (Some other) ≡ (if result then Some other else self.now.fault) }
    {
        match &self.fault {
            Some(kept) => kept.memory.compare(memory).is_gt(),
            None => true,
        }
    }

    /// Keeps the fault of a further agent where its memory goes before that of the one that is kept, which it replaces.
    fn fail(
        &mut self,
        iteration: i32,
        function: u32,
        memory: &Row,
        fault: Fault,
    ) -> Result<(), NoMemory>
        ensures fault { OnOk result (self.new.fault
            ≡ least_of self.old.fault (fault_by iteration function memory.now (Faulted fault))) }
        ensures survivors { OnOk result (self.new.survivors.items ≡ self.old.survivors.items) }
        ensures sent { OnOk result (self.new.sent.items ≡ self.old.sent.items) }
        ensures born { OnOk result (self.new.born.items ≡ self.old.born.items) }
        ensures ran { OnOk result (self.new.ran ≡ self.old.ran) }
    {
        if self.gives_way_to(memory) {
            let fault = fault_of(iteration, function, memory, fault)?;
            self.fault = Some(fault);
        }
        Ok(())
    }

    /// A further agent ran, with this memory, the function of this number in the iteration of this number, and faulted so:
    /// where this is what some agents leave, it is what these and then that one leave. Of the faults that of the least agent
    /// in content order is kept, so agents may come in any order. After `NoMemory` it is of no further use.
    pub fn add_faulted(
        &mut self,
        iteration: i32,
        function: u32,
        memory: &Row,
        fault: Fault,
    ) -> Result<(), NoMemory>
        requires { self.old.ran + 1 < 2 ^ 64 }
        ensures { OnOk result ((run : List ℤ → Ends) (agents : List (List ℤ))
            → run memory.now ≡ Faulted fault
            → AreLeftBut iteration function run agents memory.now self.old
            → AreLeft iteration function run (agents ++ memory.now ∷ []) self.new) }
    {
        self.count();
        self.fail(iteration, function, memory, fault)?;
        Ok(())
    }
}
