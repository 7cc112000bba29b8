//! Whether two models, model files, conditions or sources are one and the same.

use crate::conditions::{Condition, Operand};
use crate::models::{AgentType, Function, Input, MessageType, Model, Sort, TimeUnit, Variable};
use crate::outcomes::Source;
use crate::wide::{DataType, Wide, WideAgent, WideMessage, WideVariable};
use flame_rows::Same;

impl Same for Operand {
    fn same(&self, other: &Operand) -> bool {
        match (self, other) {
            (Operand::Number(n), Operand::Number(m)) => n == m,
            (Operand::Agent(a), Operand::Agent(b)) => a.same(b),
            (Operand::Message(a), Operand::Message(b)) => a.same(b),
            _ => false,
        }
    }
}

impl Same for Condition {
    fn same(&self, other: &Condition) -> bool {
        match (self, other) {
            (Condition::Compare(op, a, b), Condition::Compare(of, c, d)) => {
                op == of && a.same(c) && b.same(d)
            }
            (Condition::And(a, b), Condition::And(c, d)) => a.same(c) && b.same(d),
            (Condition::Or(a, b), Condition::Or(c, d)) => a.same(c) && b.same(d),
            (Condition::Not(a), Condition::Not(b)) => a.same(b),
            (Condition::Time(unit, phase, n), Condition::Time(period, start, m)) => {
                unit.same(period) && phase.same(start) && n == m
            }
            _ => false,
        }
    }
}

impl Same for TimeUnit {
    fn same(&self, other: &TimeUnit) -> bool {
        self.name.same(&other.name) && self.unit.same(&other.unit) && self.period == other.period
    }
}

impl Same for Variable {
    fn same(&self, other: &Variable) -> bool {
        self.name.same(&other.name) && self.length.same(&other.length)
    }
}

impl Same for MessageType {
    fn same(&self, other: &MessageType) -> bool {
        self.name.same(&other.name) && self.variables.same(&other.variables)
    }
}

impl Same for Sort {
    fn same(&self, other: &Sort) -> bool {
        self.key.same(&other.key) && self.descending == other.descending
    }
}

impl Same for Input {
    fn same(&self, other: &Input) -> bool {
        self.message.same(&other.message)
            && self.random == other.random
            && self.filter.same(&other.filter)
            && self.sort.same(&other.sort)
    }
}

impl Same for Function {
    fn same(&self, other: &Function) -> bool {
        self.name.same(&other.name)
            && self.current.same(&other.current)
            && self.next.same(&other.next)
            && self.condition.same(&other.condition)
            && self.inputs.same(&other.inputs)
            && self.outputs.same(&other.outputs)
    }
}

impl Same for AgentType {
    fn same(&self, other: &AgentType) -> bool {
        self.name.same(&other.name)
            && self.memory.same(&other.memory)
            && self.functions.same(&other.functions)
    }
}

impl Same for Model {
    fn same(&self, other: &Model) -> bool {
        self.constants.same(&other.constants)
            && self.files.same(&other.files)
            && self.units.same(&other.units)
            && self.messages.same(&other.messages)
            && self.agents.same(&other.agents)
    }
}

impl Same for WideVariable {
    fn same(&self, other: &WideVariable) -> bool {
        self.name.same(&other.name)
            && self.kind.same(&other.kind)
            && self.length.same(&other.length)
    }
}

impl Same for DataType {
    fn same(&self, other: &DataType) -> bool {
        self.name.same(&other.name) && self.variables.same(&other.variables)
    }
}

impl Same for WideMessage {
    fn same(&self, other: &WideMessage) -> bool {
        self.name.same(&other.name) && self.variables.same(&other.variables)
    }
}

impl Same for WideAgent {
    fn same(&self, other: &WideAgent) -> bool {
        self.name.same(&other.name)
            && self.memory.same(&other.memory)
            && self.functions.same(&other.functions)
    }
}

impl Same for Wide {
    fn same(&self, other: &Wide) -> bool {
        self.constants.same(&other.constants)
            && self.files.same(&other.files)
            && self.units.same(&other.units)
            && self.types.same(&other.types)
            && self.messages.same(&other.messages)
            && self.agents.same(&other.agents)
            && self.nested.same(&other.nested)
    }
}

impl Same for Source {
    fn same(&self, other: &Source) -> bool {
        self.model.same(&other.model) && self.units.same(&other.units)
    }
}
