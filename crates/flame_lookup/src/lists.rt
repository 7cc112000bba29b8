//! Lists of a model whose items are found by the words of function files.

ghost use Rattle.std.specs.Prelude.{◌≡◌, ◌<◌, IfOk, Some, length, map, option_map, slice_get};
ghost use Rattle.flame_spec.specs.Columns.{variable_named};
ghost use Rattle.flame_spec.specs.ExpressionFaults.{member_of};
ghost use Rattle.flame_spec.specs.LookUps.{memory_named, memory_got, memory_set, constant_named, agent_born};
ghost use Rattle.flame_spec.specs.LookUps.{message_sent, message_read, message_looped};
ghost use Rattle.flame_lookup.specs.WordsFound.{item_found};

use crate::forms::Form;
use crate::found::Found;
use crate::table::{Table, columned, look, numbered};
use flame_rows::{NoMemory, Text};
use flame_spec::{AgentType, MessageType, Variable};
use std::alloc::Global;
use std::marker::Model;

/// The constants, seen as the list of their names.
#[derive(Drop)]
pub(crate) struct Constants<'a> {
    names: &'a [Text],
    named: Table<Found<'a, Text>>,
}

impl<'a> Model for Constants<'a> {
    ghost use Rattle.std.specs.Prelude.{◌≡◌, ℕ, List, option_map};
    ghost use Rattle.std.specs.HashMap.{get_by_text};
    ghost use Rattle.flame_spec.specs.LookUps.{constant_named};
    ghost use Rattle.flame_lookup.specs.WordsFound.{item_found};

    ghost Value = { List (List ℕ) };

    ghost view = { λ t. t.names.now };

    ghost invariant = { λ t. (word : List ℕ)
        → option_map item_found (get_by_text t.named word) ≡ constant_named t.names.now word };
}

impl<'a> Constants<'a> {
    /// The table of these constants.
    pub(crate) fn of(alloc: Global, names: &'a [Text]) -> Result<Constants<'a>, NoMemory>
        ensures { IfOk result (λ constants. constants ≡ names.now) }
    {
        let named = numbered(alloc, Form::Capitals, names)?;
        Ok(Constants { names, named })
    }

    /// The constant that the word is in capitals.
    pub(crate) fn named(&self, word: &str) -> Option<Found<'a, Text>>
        ensures { option_map item_found result ≡ constant_named self.now word.now }
    {
        look(&self.named, word)
    }
}

/// The tables of the variables of these message types.
fn fields_of<'a>(alloc: Global, messages: &'a [MessageType]) -> Result<Vec<Fields<'a>>, NoMemory>
    ensures { IfOk result (λ fields. fields.items ≡ map (λ message. message.variables) messages.now) }
{
    let mut fields = Vec::new(alloc);
    for message in messages {
        fields.push(Fields::of(alloc, message.variables.items())?)?;
    }
    Ok(fields)
}

/// Message types, seen as their list.
#[derive(Drop)]
pub(crate) struct Messages<'a> {
    messages: &'a [MessageType],
    sent: Table<Found<'a, MessageType>>,
    read: Table<Found<'a, MessageType>>,
    looped: Table<Found<'a, MessageType>>,
    fields: Vec<Fields<'a>>,
}

impl<'a> Model for Messages<'a> {
    ghost use Rattle.std.specs.Prelude.{◌≡◌, ℕ, List, map, option_map};
    ghost use Rattle.std.specs.HashMap.{get_by_text};
    ghost use Rattle.flame_spec.specs.declared.models.MessageType.{MessageType};
    ghost use Rattle.flame_spec.specs.LookUps.{message_sent, message_read, message_looped};
    ghost use Rattle.flame_lookup.specs.WordsFound.{item_found};

    ghost Value = { List MessageType };

    ghost view = { λ t. t.messages.now };

    ghost invariant = { λ t. record {
      sent : (word : List ℕ)
          → option_map item_found (get_by_text t.sent word) ≡ message_sent t.messages.now word;
      read : (word : List ℕ)
          → option_map item_found (get_by_text t.read word) ≡ message_read t.messages.now word;
      looped : (word : List ℕ)
          → option_map item_found (get_by_text t.looped word) ≡ message_looped t.messages.now word;
      fields : t.fields.items ≡ map (λ message. message.variables) t.messages.now;
    } };
}

impl<'a> Messages<'a> {
    /// The table of these message types.
    pub(crate) fn of(alloc: Global, messages: &'a [MessageType]) -> Result<Messages<'a>, NoMemory>
        ensures { IfOk result (λ table. table ≡ messages.now) }
    {
        let sent = numbered(alloc, Form::AddMessage, messages)?;
        let read = numbered(alloc, Form::Row, messages)?;
        let looped = numbered(alloc, Form::Capitals, messages)?;
        let fields = fields_of(alloc, messages)?;
        Ok(Messages {
            messages,
            sent,
            read,
            looped,
            fields,
        })
    }

    /// The message that the word sends.
    pub(crate) fn sent(&self, word: &str) -> Option<Found<'a, MessageType>>
        ensures { option_map item_found result ≡ message_sent self.now word.now }
    {
        look(&self.sent, word)
    }

    /// The message whose row the word reads.
    pub(crate) fn read(&self, word: &str) -> Option<Found<'a, MessageType>>
        ensures { option_map item_found result ≡ message_read self.now word.now }
    {
        look(&self.read, word)
    }

    /// The message that a loop of this name goes over.
    pub(crate) fn looped(&self, word: &str) -> Option<Found<'a, MessageType>>
        ensures { option_map item_found result ≡ message_looped self.now word.now }
    {
        look(&self.looped, word)
    }

    /// The variables of the message of this number.
    fn fields(&self, number: u32) -> &Fields<'a>
        requires { number < length self.now }
        ensures { option_map (λ message. message.variables) (slice_get self.now number) ≡ Some result.now }
    {
        let fields = self.fields.as_slice();
        &fields[number as usize]
    }

    /// The variable of this name of the message whose row the word reads.
    pub(crate) fn member(&self, word: &str, variable: &str) -> Option<Found<'a, Variable>>
        ensures { option_map item_found result ≡ member_of (message_read self.now word.now) variable.now }
    {
        match self.read(word) {
            Some(message) => self.fields(message.at).named(variable),
            None => None,
        }
    }
}

/// The tables of the memories of these agent types.
fn memories_of<'a>(alloc: Global, agents: &'a [AgentType]) -> Result<Vec<Memory<'a>>, NoMemory>
    ensures { IfOk result (λ memories. memories.items ≡ map (λ agent. agent.memory) agents.now) }
{
    let mut memories = Vec::new(alloc);
    for agent in agents {
        memories.push(Memory::of(alloc, agent.memory.items())?)?;
    }
    Ok(memories)
}

/// Agent types, seen as their list.
#[derive(Drop)]
pub(crate) struct Agents<'a> {
    agents: &'a [AgentType],
    born: Table<Found<'a, AgentType>>,
    memories: Vec<Memory<'a>>,
}

impl<'a> Model for Agents<'a> {
    ghost use Rattle.std.specs.Prelude.{◌≡◌, ℕ, List, map, option_map};
    ghost use Rattle.std.specs.Coded.{codes};
    ghost use Rattle.std.specs.HashMap.{get_by_text};
    ghost use Rattle.flame_spec.specs.contracts.models.AgentType as a;
    ghost use Rattle.flame_spec.specs.declared.models.AgentType.{AgentType};
    ghost use Rattle.flame_spec.specs.LookUps.{agent_born};
    ghost use Rattle.flame_lookup.specs.WordsFound.{item_found};

    ghost Value = { List AgentType };

    ghost coded = { Prim.hlevel (codes, a.the_row.coded) };

    ghost view = { λ t. t.agents.now };

    ghost invariant = { λ t. record {
      born : (word : List ℕ) → option_map item_found (get_by_text t.born word) ≡ agent_born t.agents.now word;
      memories : t.memories.items ≡ map (λ agent. agent.memory) t.agents.now;
    } };
}

impl<'a> Agents<'a> {
    /// The table of these agent types.
    pub(crate) fn of(alloc: Global, agents: &'a [AgentType]) -> Result<Agents<'a>, NoMemory>
        ensures { IfOk result (λ table. table ≡ agents.now) }
    {
        let born = numbered(alloc, Form::AddAgent, agents)?;
        let memories = memories_of(alloc, agents)?;
        Ok(Agents {
            agents,
            born,
            memories,
        })
    }

    /// The type of the agent that the word bears.
    pub(crate) fn born(&self, word: &str) -> Option<Found<'a, AgentType>>
        ensures { option_map item_found result ≡ agent_born self.now word.now }
    {
        look(&self.born, word)
    }

    /// The memory of the type of this number.
    pub(crate) fn memory(&self, number: u32) -> &Memory<'a>
        requires { number < length self.now }
        ensures { option_map (λ agent. agent.memory) (slice_get self.now number) ≡ Some result.now }
    {
        let memories = self.memories.as_slice();
        &memories[number as usize]
    }
}

/// The variables of a message, seen as their list.
#[derive(Drop)]
pub(crate) struct Fields<'a> {
    variables: &'a [Variable],
    named: Table<Found<'a, Variable>>,
}

impl<'a> Model for Fields<'a> {
    ghost use Rattle.std.specs.Prelude.{◌≡◌, ℕ, List, option_map};
    ghost use Rattle.std.specs.HashMap.{get_by_text};
    ghost use Rattle.flame_spec.specs.declared.models.Variable.{Variable};
    ghost use Rattle.flame_spec.specs.Columns.{variable_named};
    ghost use Rattle.flame_lookup.specs.WordsFound.{item_found};

    ghost Value = { List Variable };

    ghost view = { λ t. t.variables.now };

    ghost invariant = { λ t. (word : List ℕ)
        → option_map item_found (get_by_text t.named word) ≡ variable_named t.variables.now word };
}

impl<'a> Fields<'a> {
    /// The table of these variables.
    pub(crate) fn of(alloc: Global, variables: &'a [Variable]) -> Result<Fields<'a>, NoMemory>
        ensures { IfOk result (λ table. table ≡ variables.now) }
    {
        let named = columned(alloc, Form::Same, variables)?;
        Ok(Fields { variables, named })
    }

    /// The variable of this name.
    pub(crate) fn named(&self, name: &str) -> Option<Found<'a, Variable>>
        ensures { option_map item_found result ≡ variable_named self.now name.now }
    {
        look(&self.named, name)
    }
}

/// The memory of an agent type, seen as the list of its variables.
#[derive(Drop)]
pub(crate) struct Memory<'a> {
    variables: &'a [Variable],
    named: Table<Found<'a, Variable>>,
    got: Table<Found<'a, Variable>>,
    set: Table<Found<'a, Variable>>,
}

impl<'a> Model for Memory<'a> {
    ghost use Rattle.std.specs.Prelude.{◌≡◌, ℕ, List, option_map};
    ghost use Rattle.std.specs.HashMap.{get_by_text};
    ghost use Rattle.flame_spec.specs.declared.models.Variable.{Variable};
    ghost use Rattle.flame_spec.specs.LookUps.{memory_named, memory_got, memory_set};
    ghost use Rattle.flame_lookup.specs.WordsFound.{item_found};

    ghost Value = { List Variable };

    ghost view = { λ t. t.variables.now };

    ghost invariant = { λ t. record {
      named : (word : List ℕ)
          → option_map item_found (get_by_text t.named word) ≡ memory_named t.variables.now word;
      got : (word : List ℕ) → option_map item_found (get_by_text t.got word) ≡ memory_got t.variables.now word;
      set : (word : List ℕ) → option_map item_found (get_by_text t.set word) ≡ memory_set t.variables.now word;
    } };
}

impl<'a> Memory<'a> {
    /// The table of these variables.
    pub(crate) fn of(alloc: Global, variables: &'a [Variable]) -> Result<Memory<'a>, NoMemory>
        ensures { IfOk result (λ table. table ≡ variables.now) }
    {
        let named = columned(alloc, Form::Capitals, variables)?;
        let got = columned(alloc, Form::Get, variables)?;
        let set = columned(alloc, Form::Set, variables)?;
        Ok(Memory {
            variables,
            named,
            got,
            set,
        })
    }

    /// The variable that the word is in capitals.
    pub(crate) fn named(&self, word: &str) -> Option<Found<'a, Variable>>
        ensures { option_map item_found result ≡ memory_named self.now word.now }
    {
        look(&self.named, word)
    }

    /// The variable that the word gets.
    pub(crate) fn got(&self, word: &str) -> Option<Found<'a, Variable>>
        ensures { option_map item_found result ≡ memory_got self.now word.now }
    {
        look(&self.got, word)
    }

    /// The variable that the word sets.
    pub(crate) fn set(&self, word: &str) -> Option<Found<'a, Variable>>
        ensures { option_map item_found result ≡ memory_set self.now word.now }
    {
        look(&self.set, word)
    }
}

/// The lists of a model whose items are found by words.
#[derive(Drop)]
pub(crate) struct Lists<'a> {
    pub(crate) constants: Constants<'a>,
    pub(crate) messages: Messages<'a>,
    pub(crate) agents: Agents<'a>,
}

impl<'a> Lists<'a> {
    /// The tables of the lists of this model.
    pub(crate) fn of(alloc: Global, model: &'a flame_spec::Model) -> Result<Lists<'a>, NoMemory>
        ensures constants { IfOk result (λ lists. lists.constants ≡ model.now.constants) }
        ensures messages { IfOk result (λ lists. lists.messages ≡ model.now.messages) }
        ensures agents { IfOk result (λ lists. lists.agents ≡ model.now.agents) }
    {
        let constants = Constants::of(alloc, model.constants.items())?;
        let agents = Agents::of(alloc, model.agents.items())?;
        let messages = Messages::of(alloc, model.messages.items())?;
        Ok(Lists {
            constants,
            messages,
            agents,
        })
    }
}
