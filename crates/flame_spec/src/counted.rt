//! Whether the parts of a model, or of a model file, can be numbered.

ghost use Rattle.std.specs.Prelude.{◌≡◌};
ghost use Rattle.std.specs.List.{list_all};
ghost use Rattle.flame_spec.specs.Columns.{width};
ghost use Rattle.flame_spec.specs.Counted.{is_numbered, is_counted_row, is_counted_message, is_counted_function};
ghost use Rattle.flame_spec.specs.Counted.{is_counted_agent, is_counted};
ghost use Rattle.flame_spec.specs.Functions.{functions};
ghost use Rattle.flame_spec.specs.WideModels.{is_counted_type, is_counted_wide_message, is_counted_wide_agent};
ghost use Rattle.flame_spec.specs.WideModels.{is_counted_wide};

use crate::models::{AgentType, Function, MessageType, Model, Variable};
use crate::wide::{DataType, Wide, WideAgent, WideMessage};
use flame_rows::Seq;

/// Whether there are fewer than 2^32 members.
fn is_numbered<T>(members: &Seq<T>) -> bool
    ensures { result ≡ is_numbered members.now }
{
    members.len() < 4294967296
}

fn width(variables: &[Variable]) -> u128
    ensures { result ≡ width variables.now }
{
    let mut total: u128 = 0;
    for (_i, variable) in variables.iter().enumerate() {
        total += u128::from(variable.width());
    }
    total
}

/// Whether there are fewer than 2^32 variables, and fewer than 2^32 columns.
fn is_counted_row(variables: &Seq<Variable>) -> bool
    ensures { result ≡ is_counted_row variables.now }
{
    is_numbered(variables) && width(variables.items()) < 4294967296
}

fn is_counted_message(message: &MessageType) -> bool
    ensures { result ≡ is_counted_message message.now }
{
    is_counted_row(&message.variables)
}

fn is_counted_function(function: &Function) -> bool
    ensures { result ≡ is_counted_function function.now }
{
    is_numbered(&function.inputs) && is_numbered(&function.outputs)
}

fn are_counted_functions(functions: &[Function]) -> bool
    ensures { result ≡ list_all is_counted_function functions.now }
{
    functions
        .iter()
        .all(|function| is_counted_function(function))
}

fn is_counted_agent(agent: &AgentType) -> bool
    ensures { result ≡ is_counted_agent agent.now }
{
    is_counted_row(&agent.memory)
        && is_numbered(&agent.functions)
        && are_counted_functions(agent.functions.items())
}

fn are_counted_messages(messages: &[MessageType]) -> bool
    ensures { result ≡ list_all is_counted_message messages.now }
{
    messages.iter().all(|message| is_counted_message(message))
}

fn are_counted_agents(agents: &[AgentType]) -> bool
    ensures { result ≡ list_all is_counted_agent agents.now }
{
    agents.iter().all(|agent| is_counted_agent(agent))
}

impl Model {
    /// Whether the types together have fewer than 2^32 functions.
    pub fn has_few_functions(&self) -> bool
        ensures { result ≡ is_numbered (functions self.now) }
    {
        let mut count: u128 = 0;
        for (_agent, kind) in self.agents.items().iter().enumerate() {
            count += kind.functions.items().len() as u128;
        }
        count < 4294967296
    }

    /// Whether each list whose members are numbered with 32 bits has fewer than 2^32 members: the constants, the
    /// function files, the time units, the messages with their variables and columns, the agent types with their
    /// variables, columns and functions, the functions of all types together, and the inputs and outputs of each.
    pub fn is_counted(&self) -> bool
        ensures { result ≡ is_counted self.now }
    {
        is_numbered(&self.constants)
            && is_numbered(&self.files)
            && is_numbered(&self.units)
            && is_numbered(&self.messages)
            && are_counted_messages(self.messages.items())
            && is_numbered(&self.agents)
            && are_counted_agents(self.agents.items())
            && self.has_few_functions()
    }
}

fn is_counted_type(kind: &DataType) -> bool
    ensures { result ≡ is_counted_type kind.now }
{
    is_numbered(&kind.variables)
}

fn is_counted_wide_message(message: &WideMessage) -> bool
    ensures { result ≡ is_counted_wide_message message.now }
{
    is_numbered(&message.variables)
}

fn is_counted_wide_agent(agent: &WideAgent) -> bool
    ensures { result ≡ is_counted_wide_agent agent.now }
{
    is_numbered(&agent.memory)
        && is_numbered(&agent.functions)
        && are_counted_functions(agent.functions.items())
}

fn are_counted_types(types: &[DataType]) -> bool
    ensures { result ≡ list_all is_counted_type types.now }
{
    types.iter().all(|kind| is_counted_type(kind))
}

fn are_counted_wide_messages(messages: &[WideMessage]) -> bool
    ensures { result ≡ list_all is_counted_wide_message messages.now }
{
    messages
        .iter()
        .all(|message| is_counted_wide_message(message))
}

fn are_counted_wide_agents(agents: &[WideAgent]) -> bool
    ensures { result ≡ list_all is_counted_wide_agent agents.now }
{
    agents.iter().all(|agent| is_counted_wide_agent(agent))
}

impl Wide {
    /// Whether each list of the model file has fewer than 2^32 members, those of its members too.
    pub fn is_counted(&self) -> bool
        ensures { result ≡ is_counted_wide self.now }
    {
        is_numbered(&self.constants)
            && is_numbered(&self.files)
            && is_numbered(&self.units)
            && is_numbered(&self.types)
            && are_counted_types(self.types.items())
            && is_numbered(&self.messages)
            && are_counted_wide_messages(self.messages.items())
            && is_numbered(&self.agents)
            && are_counted_wide_agents(self.agents.items())
            && is_numbered(&self.nested)
    }
}
