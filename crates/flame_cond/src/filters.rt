//! Filters of inputs.

ghost use Rattle.std.specs.Prelude.{◌≡◌, IfOk};
ghost use Rattle.flame_spec.specs.Conditions.{IsReadable, input_scope};
ghost use Rattle.flame_cond.specs.TestForms.{form_of};
ghost use Rattle.flame_cond.specs.Said.{passes, IsWrittenFilter, SaysFilter};
ghost use Rattle.flame_cond.specs.Equalities.{first_equality, is_one_equality, reads_memory};
ghost use Rattle.flame_cond.specs.RowTests.{AsksTheSame};

use crate::equalities::Equality;
use crate::forms::Test;
use crate::reading::test;
use crate::row_tests::RowTest;
use flame_rows::{NoMemory, Row};
use flame_spec::{AgentType, Condition, MessageType};
use std::alloc::Global;
use std::marker::Model;

/// A filter of an input (FLAME User Manual), seen as the test that it makes of an agent's memory and a message's row.
#[derive(Drop)]
pub struct Filter {
    test: Test,
}

impl Model for Filter {
    ghost use Rattle.std.specs.Coded.{codes};
    ghost use Rattle.flame_cond.specs.declared.forms.Test.{Test};
    ghost use Rattle.flame_cond.specs.contracts.forms.Test as e;

    ghost Value = { Test };

    ghost coded = { Prim.hlevel (codes, e.the_row.coded) };

    ghost view = { λ a. a.test };
}

impl Filter {
    /// Reads the filter of an input of this message by a function of this agent type.
    pub fn of(
        alloc: Global,
        condition: &Condition,
        agent: &AgentType,
        message: &MessageType,
    ) -> Result<Filter, NoMemory>
        requires { IsReadable (input_scope agent.now message.now) condition.now }
        ensures written { IfOk result (λ filter. IsWrittenFilter filter condition.now agent.now message.now) }
        ensures says { IfOk result (λ filter. SaysFilter filter condition.now agent.now message.now) }
    {
        let test = test(
            alloc,
            condition,
            agent.memory.items(),
            message.variables.items(),
            &[],
        )?;
        Ok(Filter { test })
    }

    /// Whether the row passes the filter for an agent with this memory. A column that one of them lacks counts as 0.
    pub fn passes(&self, memory: &Row, row: &Row) -> bool
        ensures { result ≡ passes self.now memory.now row.now }
    {
        self.test.answer(memory.values(), row.values(), 0)
    }

    /// What it asks of a row, for an agent with this memory: the same rows pass as by `passes`. For who asks of many rows:
    /// the first comparison of a column of the row with a number or a column of the memory, where the filter is one or
    /// reaches one through AND alone, is told apart, and that column of the memory is read here.
    pub fn row_test<'a>(&'a self, memory: &'a Row) -> RowTest<'a>
        ensures { AsksTheSame result self.now memory.now }
    {
        if let Some(test) = self.test.only_column_test(memory.values()) {
            return RowTest::Column(test);
        }
        match self.test.first_column_test(memory.values()) {
            Some(test) => RowTest::ColumnFirst(test, self, memory),
            None => RowTest::Whole(self, memory),
        }
    }

    /// The first EQ from the left between a column of the row and a number or a column of the memory, where the filter is
    /// one or reaches one through AND alone; else None. A row that passes has that number there:
    /// `laws::passing_is_equal`.
    pub fn equality(&self) -> Option<Equality>
        ensures { result ≡ first_equality (form_of self.now) }
    {
        self.test.first_equality()
    }

    /// Whether the filter is one such equality and nothing else, so that a row passes exactly where it has that number:
    /// `laws::one_equality_is_all`.
    pub fn is_equality(&self) -> bool
        ensures { result ≡ is_one_equality (form_of self.now) }
    {
        self.test.is_one_equality()
    }

    /// Whether a variable of the memory stands in the filter. If not, the same rows pass with every memory:
    /// `laws::unread_memory_tells_nothing`.
    pub fn reads_memory(&self) -> bool
        ensures { result ≡ reads_memory (form_of self.now) }
    {
        self.test.reads_memory()
    }
}
