//! The messages that inputs read.

ghost use Rattle.std.specs.Prelude.{◌≡◌, ℕ, Some, IfOk, map, option_map, slice_get};
ghost use Rattle.std.specs.List.{filter_map};
ghost use Rattle.flame_spec.specs.declared.models.Input.{Input};
ghost use Rattle.flame_meaning.specs.Outcomes.{message_named};
ghost use Rattle.flame_route.specs.ModelRoutes.{ReadsMessageOf};

use flame_lookup::{Found, Table, messages_by_name};
use flame_rows::{NoMemory, Text};
use flame_spec::{Input, MessageType};
use std::alloc::Global;
use std::marker::Model;

/// The messages of a model by their names, seen as the model.
#[derive(Drop)]
pub(crate) struct Messages<'a> {
    model: &'a flame_spec::Model,
    by_name: Table<Found<'a, MessageType>>,
}

impl<'a> Model for Messages<'a> {
    ghost use Rattle.std.specs.Prelude.{◌≡◌, ℕ, List, option_map};
    ghost use Rattle.std.specs.Coded.{codes};
    ghost use Rattle.std.specs.HashMap.{get_by_text};
    ghost use Rattle.flame_spec.specs.contracts.models.Model as m;
    ghost use Rattle.flame_spec.specs.declared.models.Model.{Model};
    ghost use Rattle.flame_lookup.specs.WordsFound.{item_found};
    ghost use Rattle.flame_meaning.specs.Outcomes.{message_named};

    ghost Value = { Model };

    ghost coded = { Prim.hlevel (codes, m.the_row.coded) };

    ghost view = { λ t. t.model.now };

    ghost invariant = { λ t. (name : List ℕ)
        → option_map item_found (get_by_text t.by_name name) ≡ message_named t.model.now.messages name };
}

impl<'a> Messages<'a> {
    /// The messages of this model.
    pub(crate) fn of(alloc: Global, model: &'a flame_spec::Model) -> Result<Messages<'a>, NoMemory>
        ensures { IfOk result (λ messages. messages ≡ model.now) }
    {
        let by_name = messages_by_name(alloc, model.messages.items())?;
        Ok(Messages { model, by_name })
    }

    /// The number of the message that the input reads. There is such a message.
    fn read_by(&self, input: &Input) -> u32
        requires { ReadsMessageOf self.now input.now }
        ensures { option_map (λ found. found.0) (message_named self.now.messages input.now.message) ≡ Some result }
    {
        match self.by_name.get(input.message.as_str()) {
            Some(found) => found.at,
            None => unreachable!(),
        }
    }

    /// The numbers of the messages that these inputs read. There are such messages.
    pub(crate) fn read_by_each(&self, alloc: Global, inputs: &[Input]) -> Result<Vec<u32>, NoMemory>
        requires { (i : ℕ) (input : Input) → slice_get inputs.now i ≡ Some input → ReadsMessageOf self.now input }
        ensures { IfOk result (λ numbers.
            map (λ input. option_map (λ found. found.0) (message_named self.now.messages input.message)) inputs.now
            ≡ map Some numbers.items) }
    {
        let mut numbers = Vec::new(alloc);
        for input in inputs {
            numbers.push(self.read_by(input))?;
        }
        Ok(numbers)
    }

    /// The number of the message of this name, if there is one.
    fn number_of(&self, name: &Text) -> Option<u32>
        ensures { result ≡ option_map (λ found. found.0) (message_named self.now.messages name.now) }
    {
        match self.by_name.get(name.as_str()) {
            Some(found) => Some(found.at),
            None => None,
        }
    }

    /// The numbers of the messages of these names, without those that no message has.
    pub(crate) fn numbers_of(&self, alloc: Global, names: &[Text]) -> Result<Vec<u32>, NoMemory>
        ensures { IfOk result (λ numbers. numbers.items
            ≡ filter_map (λ name. option_map (λ found. found.0) (message_named self.now.messages name)) names.now) }
    {
        let mut numbers = Vec::new(alloc);
        for name in names {
            if let Some(number) = self.number_of(name) {
                numbers.push(number)?;
            }
        }
        Ok(numbers)
    }
}
