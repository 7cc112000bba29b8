//! What a function of the model gives to the words of its body.

ghost use Rattle.std.specs.Prelude.{◌≡◌, ◌==◌, IfOk, option_map, not, Some};
ghost use Rattle.flame_spec.specs.KnownNames.{is_among};
ghost use Rattle.flame_spec.specs.LookUps.{input_of};
ghost use Rattle.flame_lookup.specs.WordsFound.{item_found, place_found};

use crate::forms::Form;
use crate::found::{Found, Transition};
use crate::lists::Memory;
use crate::table::{Table, look, numbered};
use flame_rows::{NoMemory, Text};
use flame_spec::{Input, MessageType};
use std::alloc::Global;
use std::marker::Model;

/// A function of the model with its memory, inputs and outputs, seen as its place in the model.
#[derive(Drop)]
pub(crate) struct Running<'t, 'a> {
    place: Transition<'a>,
    memory: &'t Memory<'a>,
    inputs: Table<Found<'a, Input>>,
    outputs: Table<Found<'a, Text>>,
}

impl<'t, 'a> Model for Running<'t, 'a> {
    ghost use Rattle.std.specs.Prelude.{◌≡◌, ℕ, List, option_map};
    ghost use Rattle.std.specs.Coded.{codes};
    ghost use Rattle.std.specs.HashMap.{get_by_text};
    ghost use Rattle.std.specs.Str.{bytes_eq};
    ghost use Rattle.flame_spec.specs.contracts.models.AgentType as a;
    ghost use Rattle.flame_spec.specs.contracts.models.Function as f;
    ghost use Rattle.flame_spec.specs.Functions.{Place};
    ghost use Rattle.flame_spec.specs.Lists.{numbered_where};
    ghost use Rattle.flame_lookup.specs.WordsFound.{item_found, place_found};

    ghost Value = { Place };

    ghost coded = { Prim.hlevel (codes, a.the_row.coded, f.the_row.coded) };

    ghost view = { λ r. place_found r.place };

    ghost invariant = { λ r. record {
      memory : r.memory.now ≡ r.place.agent.now.memory;
      inputs : (word : List ℕ) → option_map item_found (get_by_text r.inputs word)
          ≡ numbered_where (λ input. bytes_eq input.message word) r.place.function.now.inputs;
      outputs : (word : List ℕ) → option_map item_found (get_by_text r.outputs word)
          ≡ numbered_where (λ output. bytes_eq output word) r.place.function.now.outputs;
    } };
}

impl<'t, 'a> Running<'t, 'a> {
    /// The function in this place, with the table of its type's memory.
    pub(crate) fn of(
        alloc: Global,
        place: Transition<'a>,
        memory: &'t Memory<'a>,
    ) -> Result<Running<'t, 'a>, NoMemory>
        requires { memory.now ≡ place.agent.now.memory }
        ensures { IfOk result (λ runs. runs ≡ place_found place.entry) }
    {
        let inputs = numbered(alloc, Form::Same, place.function.inputs.items())?;
        let outputs = numbered(alloc, Form::Same, place.function.outputs.items())?;
        Ok(Running {
            place,
            memory,
            inputs,
            outputs,
        })
    }

    /// The function with its type.
    pub(crate) fn place(&self) -> Transition<'a>
        ensures { place_found result ≡ self.now }
    {
        self.place
    }

    /// The memory of its type.
    pub(crate) fn memory(&self) -> &'t Memory<'a>
        ensures { result.now ≡ self.now.type.memory }
    {
        self.memory
    }

    /// The input by which it reads the message.
    pub(crate) fn input(&self, message: &MessageType) -> Option<Found<'a, Input>>
        ensures { option_map item_found result ≡ input_of self.now.function message.now }
    {
        look(&self.inputs, message.name.as_str())
    }

    /// Whether it adds the message.
    pub(crate) fn is_output(&self, message: &MessageType) -> bool
        ensures { result ≡ is_among message.now.name self.now.function.outputs }
    {
        look(&self.outputs, message.name.as_str()).is_some()
    }
}
