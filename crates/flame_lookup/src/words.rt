//! What the words of a body stand for.

ghost use Rattle.std.specs.Prelude.{◌≡◌, Option, Some, option_map, not};
ghost use Rattle.flame_spec.specs.CallFaults.{deed_of, called_by, is_no_output};
ghost use Rattle.flame_spec.specs.Definitions.{helper_named};
ghost use Rattle.flame_spec.specs.ExpressionFaults.{member_read};
ghost use Rattle.flame_spec.specs.Functions.{Place};
ghost use Rattle.flame_spec.specs.LookUps.{memory_named, memory_got, memory_set, message_read, message_looped};
ghost use Rattle.flame_spec.specs.Scopes.{given_at, memory_at, messages_at, input_in};
ghost use Rattle.flame_lookup.specs.Sources.{context_at};
ghost use Rattle.flame_lookup.specs.WordsFound.{item_found, given_found, deed_found, place_found};

use crate::found::{Act, Found, Meant, Transition};
use crate::running::Running;
use crate::sources::Tables;
use flame_spec::{Input, MessageType, Variable};
use std::marker::Model;

/// What the words of a body stand for, seen as where the body stands: the sources, the function of the model that it is
/// checked for, which a helper has none of, and the number of its file.
#[derive(Drop)]
pub struct Words<'t, 'a> {
    tables: &'t Tables<'a>,
    runs: Option<Running<'t, 'a>>,
    file: u32,
}

impl<'t, 'a> Model for Words<'t, 'a> {
    ghost use Rattle.std.specs.Coded.{codes};
    ghost use Rattle.flame_spec.specs.contracts.models.AgentType as a;
    ghost use Rattle.flame_spec.specs.contracts.models.Function as f;
    ghost use Rattle.flame_spec.specs.contracts.models.Model as m;
    ghost use Rattle.flame_spec.specs.contracts.trees.Unit as u;
    ghost use Rattle.flame_lookup.specs.Sources.{BodyPlace};

    ghost Value = { BodyPlace };

    ghost coded = { Prim.hlevel (codes, m.the_row.coded, u.the_row.coded, a.the_row.coded, f.the_row.coded) };

    ghost view = { λ w. record { sources = w.tables.now; runs = w.runs; file = w.file } };
}

impl<'t, 'a> Words<'t, 'a> {
    /// What the words of a body stand for in the file of this number, by these tables.
    pub(crate) fn of(
        tables: &'t Tables<'a>,
        runs: Option<Running<'t, 'a>>,
        file: u32,
    ) -> Words<'t, 'a>
        ensures { result ≡ record { sources = tables.now; runs = runs.entry; file = file } }
    {
        Words { tables, runs, file }
    }

    /// The tables of the sources.
    fn tables(&self) -> &'t Tables<'a>
        ensures { result.now ≡ self.now.sources }
    {
        self.tables
    }

    /// The function of the model that the body is checked for.
    pub fn runs(&self) -> Option<Transition<'a>>
        ensures { option_map place_found result ≡ self.now.runs }
    {
        match &self.runs {
            Some(runs) => Some(runs.place()),
            None => None,
        }
    }

    /// The number of the file that the body stands in.
    pub fn file(&self) -> u32
        ensures { result ≡ self.now.file }
    {
        self.file
    }

    /// The memory variable that the word is in capitals.
    fn memory_named(&self, word: &str) -> Option<Found<'a, Variable>>
        ensures { option_map item_found result ≡ memory_named (memory_at (context_at self.now)) word.now }
    {
        match &self.runs {
            Some(runs) => runs.memory().named(word),
            None => None,
        }
    }

    /// The memory variable that the word sets.
    fn set(&self, word: &str) -> Option<Found<'a, Variable>>
        ensures { option_map item_found result ≡ memory_set (memory_at (context_at self.now)) word.now }
    {
        match &self.runs {
            Some(runs) => runs.memory().set(word),
            None => None,
        }
    }

    /// The memory variable that the word gets: the word is `get_` and its name.
    pub fn got(&self, word: &str) -> Option<Found<'a, Variable>>
        ensures { option_map item_found result ≡ memory_got (memory_at (context_at self.now)) word.now }
    {
        match &self.runs {
            Some(runs) => runs.memory().got(word),
            None => None,
        }
    }

    /// What the model gives to the word: a memory variable in capitals, a constant in capitals, or the number of the
    /// iteration.
    pub fn given(&self, word: &str) -> Option<Meant<'a>>
        ensures { option_map given_found result ≡ given_at (context_at self.now) word.now }
    {
        if let Some(found) = self.memory_named(word) {
            return Some(Meant::Memory(found));
        }
        if let Some(found) = self.tables().constants().named(word) {
            return Some(Meant::Constant(found.at));
        }
        if "iteration_loop" == word {
            return Some(Meant::Iteration);
        }
        None
    }

    /// What a call as a value of this word does: it calls a helper.
    pub fn called(&self, word: &str) -> Option<Act<'a>>
        ensures { option_map deed_found result ≡ called_by (helper_named (context_at self.now).helpers word.now) }
    {
        match self.tables().helper(word) {
            Some(helper) => Some(Act::Calls(helper)),
            None => None,
        }
    }

    /// What a call statement of this word does: it sets a memory variable, sends a message, bears an agent or calls a
    /// helper. A helper sets and adds nothing.
    pub fn deed(&self, word: &str) -> Option<Act<'a>>
        ensures { option_map deed_found result ≡ deed_of (context_at self.now) word.now }
    {
        if let Some(found) = self.set(word) {
            return Some(Act::Sets(found));
        }
        if let Some(found) = self.tables().messages().sent(word) {
            return match &self.runs {
                Some(_) => Some(Act::Sends(found)),
                None => None,
            };
        }
        if let Some(found) = self.tables().agents().born(word) {
            return match &self.runs {
                Some(_) => Some(Act::Bears(found)),
                None => None,
            };
        }
        self.called(word)
    }

    /// The message whose row the word reads: the word is its name and `_message`.
    pub fn read(&self, word: &str) -> Option<Found<'a, MessageType>>
        ensures { option_map item_found result ≡ message_read (messages_at (context_at self.now)) word.now }
    {
        match &self.runs {
            Some(_) => self.tables().messages().read(word),
            None => None,
        }
    }

    /// The variable that `word->variable` reads.
    pub fn member(&self, word: &str, variable: &str) -> Option<Found<'a, Variable>>
        ensures { option_map item_found result ≡ member_read (context_at self.now) word.now variable.now }
    {
        match &self.runs {
            Some(_) => self.tables().member(word, variable),
            None => None,
        }
    }

    /// The message that a loop of this name goes over: the name is that of the message in capitals.
    pub fn looped(&self, word: &str) -> Option<Found<'a, MessageType>>
        ensures { option_map item_found result ≡ message_looped (messages_at (context_at self.now)) word.now }
    {
        match &self.runs {
            Some(_) => self.tables().messages().looped(word),
            None => None,
        }
    }

    /// The input by which the function reads the message.
    pub fn input(&self, message: &MessageType) -> Option<Found<'a, Input>>
        ensures { option_map item_found result ≡ input_in self.now.runs message.now }
    {
        match &self.runs {
            Some(runs) => runs.input(message),
            None => None,
        }
    }

    /// Whether the function adds the message; a helper adds none.
    pub fn is_output(&self, message: &MessageType) -> bool
        ensures { result ≡ not (is_no_output self.now.runs message.now) }
    {
        match &self.runs {
            Some(runs) => runs.is_output(message),
            None => false,
        }
    }
}
