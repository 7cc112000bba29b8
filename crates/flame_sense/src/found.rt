//! Functions of the model, their bodies, and helpers.

ghost use Rattle.std.specs.Prelude.{◌≡◌, ◌≤◌, ◌&&◌, IfSome, option_map, find, slice_get};
ghost use Rattle.std.specs.List.{list_any};
ghost use Rattle.std.specs.Str.{bytes_eq};
ghost use Rattle.flame_spec.specs.Definitions.{definition, definitions, helpers, helper_named, body_of};
ghost use Rattle.flame_spec.specs.Functions.{functions};
ghost use Rattle.flame_spec.specs.Seen.{statements};
ghost use Rattle.flame_sense.specs.Depths.{depth, deepest_in, deepest};
ghost use Rattle.flame_sense.specs.StandsFor.{place_seen, definition_seen, is_wanted};

use crate::scene::Place;
use flame_spec::{Def, Function, Model, Stmt, Unit};

/// A C function and the number of its file.
#[derive(Clone, Copy)]
pub(crate) struct Definition<'a> {
    pub(crate) file: usize,
    pub(crate) def: &'a Def,
}

/// Which C functions are looked for.
#[derive(Clone, Copy)]
pub(crate) enum Wanted<'a> {
    /// Any.
    Any,
    /// The helpers beside this model.
    Helpers(&'a Model),
}

/// The function of this number in document order, with its type.
pub(crate) fn place_of(model: &Model, function: u32) -> Option<Place<'_>>
    ensures { option_map place_seen result ≡ slice_get (functions model.now) function }
{
    let mut left = function as usize;
    for (number, agent) in model.agents.items().iter().enumerate() {
        let functions = agent.functions.items();
        if left < functions.len() {
            return Some(Place {
                number,
                agent,
                function: &functions[left],
            });
        }
        left -= functions.len();
    }
    None
}

/// Whether one of the functions has this name.
fn names_one(name: &str, functions: &[Function]) -> bool
    ensures { result ≡ list_any (λ function. bytes_eq name.now function.name) functions.now }
{
    for function in functions {
        if name == function.name.as_str() {
            return true;
        }
    }
    false
}

/// Whether a function of the model has this name.
fn is_transition(model: &Model, name: &str) -> bool
    ensures { result ≡ list_any (λ place. bytes_eq name.now place.function.name) (functions model.now) }
{
    for agent in model.agents.items() {
        if names_one(name, agent.functions.items()) {
            return true;
        }
    }
    false
}

impl Wanted<'_> {
    /// Whether it is looked for.
    fn is_wanted(&self, def: &Def) -> bool
        ensures { result ≡ is_wanted self.now (definition 0 def.now) }
    {
        match self {
            Wanted::Any => true,
            Wanted::Helpers(model) => {
                !def.parameters.items().is_empty() && !is_transition(model, def.name.as_str())
            }
        }
    }
}

/// The first C function of this name in a file that is looked for.
fn definition_in<'a>(defs: &'a [Def], name: &str, wanted: Wanted<'_>) -> Option<&'a Def>
    ensures found { option_map (λ def. def.now) result
        ≡ find (λ def. bytes_eq def.name name.now && is_wanted wanted.entry (definition 0 def)) defs.now }
    ensures depth { IfSome result (λ def. depth def.now.body ≤ deepest_in defs.now) }
{
    for def in defs {
        if def.name.as_str() == name && wanted.is_wanted(def) {
            return Some(def);
        }
    }
    None
}

/// The first C function of this name in all files that is looked for.
fn definition_of<'a>(units: &'a [Unit], name: &str, wanted: Wanted<'_>) -> Option<Definition<'a>>
    ensures found { option_map definition_seen result
        ≡ find (λ d. bytes_eq d.name name.now && is_wanted wanted.entry d) (definitions units.now) }
    ensures depth { IfSome result (λ d. depth d.def.now.body ≤ deepest units.now) }
{
    for (file, unit) in units.iter().enumerate() {
        match definition_in(unit.functions.items(), name, wanted) {
            Some(def) => return Some(Definition { file, def }),
            None => {}
        }
    }
    None
}

/// The helper of this name.
pub(crate) fn helper_named<'a>(
    model: &Model,
    units: &'a [Unit],
    word: &str,
) -> Option<Definition<'a>>
    ensures found { option_map definition_seen result
        ≡ option_map (λ found. found.1) (helper_named (helpers model.now units.now) word.now) }
    ensures depth { IfSome result (λ d. depth d.def.now.body ≤ deepest units.now) }
{
    definition_of(units, word, Wanted::Helpers(model))
}

/// The statements of the body of a function of the model.
pub(crate) fn body_of<'a>(units: &'a [Unit], function: &Function) -> &'a [Stmt]
    ensures { statements result.now ≡ body_of units.now function.now }
{
    let name = function.name.as_str();
    if name == "idle" {
        return &[];
    }
    match definition_of(units, name, Wanted::Any) {
        Some(found) => found.def.body.items(),
        None => &[],
    }
}
