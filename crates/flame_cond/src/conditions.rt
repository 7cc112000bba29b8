//! Conditions of functions.

ghost use Rattle.std.specs.Prelude.{◌≡◌, IfOk};
ghost use Rattle.flame_spec.specs.Conditions.{IsReadable, agent_scope};
ghost use Rattle.flame_cond.specs.Said.{holds, IsWrittenCondition, SaysCondition};

use crate::forms::Test;
use crate::reading::test;
use flame_rows::{NoMemory, Row, Seq};
use flame_spec::{AgentType, Condition, TimeUnit};
use std::alloc::Global;
use std::marker::Model;

/// A condition of a function (FLAME User Manual), seen as the test that it makes of an agent's memory in an iteration.
#[derive(Drop)]
pub struct Cond {
    test: Test,
}

impl Model for Cond {
    ghost use Rattle.std.specs.Coded.{codes};
    ghost use Rattle.flame_cond.specs.declared.forms.Test.{Test};
    ghost use Rattle.flame_cond.specs.contracts.forms.Test as e;

    ghost Value = { Test };

    ghost coded = { Prim.hlevel (codes, e.the_row.coded) };

    ghost view = { λ a. a.test };
}

impl Cond {
    /// Reads the condition of a function of this agent type in a model with these time units.
    pub fn of(
        alloc: Global,
        condition: &Condition,
        agent: &AgentType,
        units: &Seq<TimeUnit>,
    ) -> Result<Cond, NoMemory>
        requires { IsReadable (agent_scope agent.now units.now) condition.now }
        ensures written { IfOk result (λ cond. IsWrittenCondition cond condition.now agent.now units.now) }
        ensures says { IfOk result (λ cond. SaysCondition cond condition.now agent.now units.now) }
    {
        let test = test(alloc, condition, agent.memory.items(), &[], units.items())?;
        Ok(Cond { test })
    }

    /// Whether the condition holds for an agent with this memory in the iteration. A column that the memory lacks
    /// counts as 0.
    pub fn holds(&self, memory: &Row, iteration: i32) -> bool
        ensures { result ≡ holds self.now memory.now iteration }
    {
        self.test.answer(memory.values(), &[], iteration)
    }
}
