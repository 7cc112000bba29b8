//! Widths of rows.

ghost use Rattle.std.specs.Prelude.{◌≡◌, ℕ, List, IfOk, None, Some, map, slice_get, unwrap_or};
ghost use Rattle.std.specs.HashMap.{get_by_text};
ghost use Rattle.flame_spec.specs.Columns.{width};
ghost use Rattle.flame_spec.specs.KnownNames.{variables_in};
ghost use Rattle.flame_lookup.specs.WordsFound.{place_found};
ghost use Rattle.flame_body.specs.FunctionBodies.{widths_in, input_width};

use flame_lookup::{Table, Transition, put, width};
use flame_rows::{NoMemory, Seq, number};
use flame_spec::{AgentType, Input, MessageType, Widths};
use std::alloc::Global;
use std::collections::HashMap;
use std::marker::Model;

/// The widths of these message types.
fn message_widths(alloc: Global, messages: &[MessageType]) -> Result<Vec<u32>, NoMemory>
    ensures { IfOk result (λ widths. widths.items ≡ map (λ message. width message.variables) messages.now) }
{
    let mut widths = Vec::new(alloc);
    for message in messages {
        let total = width(message.variables.items())?;
        widths.push(total)?;
    }
    Ok(widths)
}

/// The widths of the memories of these agent types.
fn agent_widths(alloc: Global, agents: &[AgentType]) -> Result<Vec<u32>, NoMemory>
    ensures { IfOk result (λ widths. widths.items ≡ map (λ agent. width agent.memory) agents.now) }
{
    let mut widths = Vec::new(alloc);
    for agent in agents {
        let total = width(agent.memory.items())?;
        widths.push(total)?;
    }
    Ok(widths)
}

/// For each name the width of the first of these message types that has it.
fn widths_by_name(alloc: Global, messages: &[MessageType]) -> Result<Table<u32>, NoMemory>
    ensures { IfOk result (λ table. (name : List ℕ)
        → unwrap_or (get_by_text table name) 0 ≡ width (variables_in messages.now name)) }
{
    let mut table = HashMap::new(alloc);
    let mut left = messages.len();
    while left > 0 {
        left -= 1;
        let message = &messages[left];
        let total = width(message.variables.items())?;
        let name = String::from_str(alloc, message.name.as_str())?;
        put(&mut table, name, total)?;
    }
    Ok(table)
}

/// The widths of a model's rows, each summed up once; seen as the model.
#[derive(Drop)]
pub(crate) struct Rows<'a> {
    model: &'a flame_spec::Model,
    constants: u32,
    messages: Vec<u32>,
    agents: Vec<u32>,
    named: Table<u32>,
}

impl<'a> Model for Rows<'a> {
    ghost use Rattle.std.specs.Prelude.{◌≡◌, ℕ, List, length, map, unwrap_or};
    ghost use Rattle.std.specs.Coded.{codes};
    ghost use Rattle.std.specs.HashMap.{get_by_text};
    ghost use Rattle.flame_spec.specs.contracts.models.Model as m;
    ghost use Rattle.flame_spec.specs.declared.models.Model as declared;
    ghost use Rattle.flame_spec.specs.Columns.{width};
    ghost use Rattle.flame_spec.specs.KnownNames.{variables_in};

    ghost Value = { declared.Model };

    ghost coded = { Prim.hlevel (codes, m.the_row.coded) };

    ghost view = { λ r. r.model.now };

    ghost invariant = { λ r. record {
      constants : r.constants ≡ length r.model.now.constants;
      messages : r.messages.items ≡ map (λ message. width message.variables) r.model.now.messages;
      agents : r.agents.items ≡ map (λ agent. width agent.memory) r.model.now.agents;
      named : (name : List ℕ)
          → unwrap_or (get_by_text r.named name) 0 ≡ width (variables_in r.model.now.messages name);
    } };
}

impl<'a> Rows<'a> {
    /// The widths of the rows of this model. `NoMemory` comes too where one does not fit 32 bits.
    pub(crate) fn of(alloc: Global, model: &'a flame_spec::Model) -> Result<Rows<'a>, NoMemory>
        ensures { IfOk result (λ rows. rows ≡ model.now) }
    {
        let constants = number(model.constants.len())?;
        let messages = message_widths(alloc, model.messages.items())?;
        let agents = agent_widths(alloc, model.agents.items())?;
        let named = widths_by_name(alloc, model.messages.items())?;
        Ok(Rows {
            model,
            constants,
            messages,
            agents,
            named,
        })
    }

    /// The width of the message type of this name; 0 where there is none.
    fn of_message(&self, name: &str) -> u32
        ensures { result ≡ width (variables_in self.now.messages name.now) }
    {
        match self.named.get(name) {
            Some(width) => *width,
            None => 0,
        }
    }

    /// The widths of the messages of these inputs.
    fn of_inputs(&self, alloc: Global, inputs: &[Input]) -> Result<Vec<u32>, NoMemory>
        ensures { IfOk result (λ widths. widths.items ≡ map (input_width self.now) inputs.now) }
    {
        let mut widths = Vec::new(alloc);
        for input in inputs {
            widths.push(self.of_message(input.message.as_str()))?;
        }
        Ok(widths)
    }

    /// The widths of all message types.
    fn of_messages(&self, alloc: Global) -> Result<Vec<u32>, NoMemory>
        ensures { IfOk result (λ widths. widths.items ≡ map (λ message. width message.variables) self.now.messages) }
    {
        Ok(Vec::from_slice(alloc, self.messages.as_slice())?)
    }

    /// The widths of the memories of all agent types.
    fn of_agents(&self, alloc: Global) -> Result<Vec<u32>, NoMemory>
        ensures { IfOk result (λ widths. widths.items ≡ map (λ agent. width agent.memory) self.now.agents) }
    {
        Ok(Vec::from_slice(alloc, self.agents.as_slice())?)
    }

    /// The width of the memory of the agent type of this number. There is such a type.
    fn of_memory(&self, number: u32, agent: &AgentType) -> u32
        requires { slice_get self.now.agents number ≡ Some agent.now }
        ensures { result ≡ width agent.now.memory }
    {
        let agents = self.agents.as_slice();
        agents[number as usize]
    }

    /// The widths that a helper sees.
    pub(crate) fn of_helper(&self, alloc: Global) -> Widths
        ensures { result ≡ widths_in self.now None }
    {
        Widths {
            memory: 0,
            constants: self.constants,
            inputs: Seq::of(Vec::new(alloc)),
            messages: Seq::of(Vec::new(alloc)),
            agents: Seq::of(Vec::new(alloc)),
        }
    }

    /// The widths that the function in this place sees. Its type has the number that the place says.
    pub(crate) fn of_function(
        &self,
        alloc: Global,
        place: &Transition<'_>,
    ) -> Result<Widths, NoMemory>
        requires { slice_get self.now.agents place.now.number ≡ Some place.now.agent.now }
        ensures { IfOk result (λ widths. widths ≡ widths_in self.now (Some (place_found place.now))) }
    {
        let memory = self.of_memory(place.number, place.agent);
        let inputs = self.of_inputs(alloc, place.function.inputs.items())?;
        let messages = self.of_messages(alloc)?;
        let agents = self.of_agents(alloc)?;
        Ok(Widths {
            memory,
            constants: self.constants,
            inputs: Seq::of(inputs),
            messages: Seq::of(messages),
            agents: Seq::of(agents),
        })
    }
}
