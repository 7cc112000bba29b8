//! The tables of a model and its function files.

ghost use Rattle.std.specs.Prelude.{◌≡◌, ◌<◌, IfOk, Some, None, find, length, map, option_map, slice_get};
ghost use Rattle.flame_spec.specs.CheckFaults.{is_run_by};
ghost use Rattle.flame_spec.specs.Definitions.{Definition, definitions, helpers, helper_named, is_for, is_helper};
ghost use Rattle.flame_spec.specs.ExpressionFaults.{member_of};
ghost use Rattle.flame_spec.specs.Functions.{functions};
ghost use Rattle.flame_spec.specs.KnownNames.{is_among};
ghost use Rattle.flame_spec.specs.Lists.{numbers_where};
ghost use Rattle.flame_spec.specs.LookUps.{message_read};
ghost use Rattle.flame_lookup.specs.Sources.{names_before};
ghost use Rattle.flame_lookup.specs.WordsFound.{item_found, definition_found, helper_found, place_found};

use crate::found::{CFunction, Found, Helper, Transition};
use crate::functions::{self, CFunctions, Functions};
use crate::lists::{Agents, Constants, Lists, Messages};
use crate::running::Running;
use crate::table::look;
use crate::words::Words;
use flame_rows::{NoMemory, Seq};
use flame_spec::{Function, Unit, Variable};
use std::alloc::Global;
use std::marker::Model;

/// What the words of function files name, looked up in time that does not grow with their number; seen as the model and
/// the files that it was made of. Where two have one name, the first counts.
#[derive(Drop)]
pub struct Tables<'a> {
    model: &'a flame_spec::Model,
    units: &'a Seq<Unit>,
    functions: Functions<'a>,
    defined: CFunctions<'a>,
    helpers: CFunctions<'a>,
    lists: Lists<'a>,
}

impl<'a> Model for Tables<'a> {
    ghost use Rattle.std.specs.Prelude.{◌≡◌, ℕ, List, map, option_map};
    ghost use Rattle.std.specs.Coded.{codes};
    ghost use Rattle.std.specs.HashMap.{get_by_text};
    ghost use Rattle.std.specs.Str.{bytes_eq};
    ghost use Rattle.flame_spec.specs.contracts.models.Model as m;
    ghost use Rattle.flame_spec.specs.contracts.trees.Unit as u;
    ghost use Rattle.flame_spec.specs.Definitions.{definitions, helpers as helpers_of, helper_named};
    ghost use Rattle.flame_spec.specs.Functions.{functions as functions_of};
    ghost use Rattle.flame_spec.specs.Lists.{numbered_where};
    ghost use Rattle.flame_lookup.specs.Sources.{Sources};
    ghost use Rattle.flame_lookup.specs.WordsFound.{definition_found, helper_found};

    ghost Value = { Sources };

    ghost coded = { Prim.hlevel (codes, m.the_row.coded, u.the_row.coded) };

    ghost view = { λ t. record { model = t.model.now; units = t.units.now } };

    ghost invariant = { λ t. record {
      constants : t.lists.constants ≡ t.model.now.constants;
      messages : t.lists.messages ≡ t.model.now.messages;
      agents : t.lists.agents ≡ t.model.now.agents;
      in_order : t.functions ≡ functions_of t.model.now;
      all : map definition_found t.defined.all.items ≡ definitions t.units.now;
      named : (word : List ℕ) → option_map helper_found (get_by_text t.defined.by_name word)
          ≡ numbered_where (λ d. bytes_eq d.name word) (definitions t.units.now);
      helping : map definition_found t.helpers.all.items ≡ helpers_of t.model.now t.units.now;
      helped : (word : List ℕ) → option_map helper_found (get_by_text t.helpers.by_name word)
          ≡ helper_named (helpers_of t.model.now t.units.now) word;
    } };
}

impl<'a> Tables<'a> {
    /// The tables of a model and its function files. `NoMemory` comes too where there are more constants, message types,
    /// agent types, functions, files or C functions, or wider rows, than 32 bits can number.
    pub fn of(
        alloc: Global,
        model: &'a flame_spec::Model,
        units: &'a Seq<Unit>,
    ) -> Result<Tables<'a>, NoMemory>
        ensures { IfOk result (λ tables. tables ≡ record { model = model.now; units = units.now }) }
    {
        let functions = Functions::of(alloc, model.agents.items())?;
        let defined = CFunctions::of(alloc, units.items())?;
        let helpers = defined.helpers(alloc, &functions)?;
        let lists = Lists::of(alloc, model)?;
        Ok(Tables {
            model,
            units,
            functions,
            defined,
            helpers,
            lists,
        })
    }

    /// All C functions in source order: file by file, from the top.
    pub fn c_functions(&self) -> &[CFunction<'a>]
        ensures { map definition_found result.now ≡ definitions self.now.units }
    {
        self.defined.all.as_slice()
    }

    /// All functions of the model in document order, by which they are numbered.
    pub fn transitions(&self) -> &[Transition<'a>]
        ensures { map place_found result.now ≡ functions self.now.model }
    {
        self.functions.places()
    }

    /// All helpers in source order, by which they are numbered.
    pub fn helpers(&self) -> &[CFunction<'a>]
        ensures { map definition_found result.now ≡ helpers self.now.model self.now.units }
    {
        self.helpers.all.as_slice()
    }

    /// Whether the C function is a helper: it has parameters, and no function of the model has its name.
    pub fn is_helper(&self, function: &CFunction<'_>) -> bool
        ensures { result ≡ is_helper self.now.model (definition_found function.now) }
    {
        functions::is_helper(&self.functions, function)
    }

    /// Whether an earlier C function has the name of the C function of this number in source order.
    pub fn is_repeated(&self, number: usize) -> bool
        requires { number < length (definitions self.now.units) }
        ensures { (d : Definition) → slice_get (definitions self.now.units) number ≡ Some d
            → result ≡ is_among d.name (names_before number (definitions self.now.units)) }
    {
        let all = self.defined.all.as_slice();
        let function = all[number];
        match look(&self.defined.by_name, function.def.name.as_str()) {
            Some(first) => (first.number as usize) < number,
            None => false,
        }
    }

    /// The first C function that has the name of the function of the model.
    pub fn defined(&self, function: &Function) -> Option<CFunction<'a>>
        ensures { option_map definition_found result ≡ find (is_for function.now) (definitions self.now.units) }
    {
        match look(&self.defined.by_name, function.name.as_str()) {
            Some(first) => Some(first.function),
            None => None,
        }
    }

    /// The functions of the model that the C function is one for, by number in document order; `idle` ones are none.
    pub fn run_by(&self, function: &CFunction<'_>) -> &[u32]
        ensures { result.now
            ≡ numbers_where (is_run_by (definition_found function.now)) (functions self.now.model) }
    {
        let name = function.def.name.as_str();
        if name == "idle" {
            return &[];
        }
        self.functions.numbers(name)
    }

    /// The helper of this name.
    pub(crate) fn helper(&self, word: &str) -> Option<Helper<'a>>
        ensures { option_map helper_found result ≡ helper_named (helpers self.now.model self.now.units) word.now }
    {
        look(&self.helpers.by_name, word)
    }

    /// The constants.
    pub(crate) fn constants(&self) -> &Constants<'a>
        ensures { result.now ≡ self.now.model.constants }
    {
        &self.lists.constants
    }

    /// The message types.
    pub(crate) fn messages(&self) -> &Messages<'a>
        ensures { result.now ≡ self.now.model.messages }
    {
        &self.lists.messages
    }

    /// The agent types.
    pub(crate) fn agents(&self) -> &Agents<'a>
        ensures { result.now ≡ self.now.model.agents }
    {
        &self.lists.agents
    }

    /// The variable of this name of the message whose row the word reads.
    pub(crate) fn member(&self, word: &str, variable: &str) -> Option<Found<'a, Variable>>
        ensures { option_map item_found result
            ≡ member_of (message_read self.now.model.messages word.now) variable.now }
    {
        self.lists.messages.member(word, variable)
    }

    /// What the words of a helper in the file of this number stand for.
    pub fn for_helper(&self, file: u32) -> Words<'_, 'a>
        ensures { result ≡ record { sources = self.now; runs = None; file = file } }
    {
        Words::of(self, None, file)
    }

    /// What the words stand for of a C function in the file of this number that is run by the function of the model of
    /// this number. There is such a function.
    pub fn for_function(
        &self,
        alloc: Global,
        number: u32,
        file: u32,
    ) -> Result<Words<'_, 'a>, NoMemory>
        requires { number < length (functions self.now.model) }
        ensures { IfOk result (λ words. words
            ≡ record { sources = self.now; runs = slice_get (functions self.now.model) number; file = file }) }
    {
        let place = self.functions.places()[number as usize];
        let runs = Running::of(alloc, place, self.lists.agents.memory(place.number))?;
        Ok(Words::of(self, Some(runs), file))
    }
}
