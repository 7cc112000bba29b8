//! The functions of a model and C functions, in their orders.

ghost use Rattle.std.specs.Prelude.{◌≡◌, ◌++◌, ℕ, List, [], ◌∷◌, IfOk, OnOk, map, option_map, if◌then◌else◌};
ghost use Rattle.std.specs.List.{filter, list_any};
ghost use Rattle.std.specs.HashMap.{get_by_text};
ghost use Rattle.std.specs.Str.{bytes_eq};
ghost use Rattle.flame_spec.specs.Definitions.{definitions, definitions_of};
ghost use Rattle.flame_spec.specs.Functions.{at_type, functions_from};
ghost use Rattle.flame_spec.specs.Lists.{numbered_where, numbers_where};
ghost use Rattle.flame_lookup.specs.WordsFound.{place_found, definition_found, helper_found};
ghost use Rattle.flame_lookup.specs.WordTables.{numbers_under, helps_beside};

use crate::found::{CFunction, Helper, Transition};
use crate::table::{Table, c_function_table};
use flame_rows::{NoMemory, number};
use flame_spec::{AgentType, Unit};
use std::alloc::Global;
use std::collections::HashMap;
use std::marker::Model;

/// Adds the functions of the type of this number.
fn add_functions<'a>(
    places: &mut Vec<Transition<'a>>,
    number: u32,
    agent: &'a AgentType,
) -> Result<(), NoMemory>
    ensures { OnOk result (map place_found places.new.items
        ≡ map place_found places.old.items ++ map (at_type number agent.now) agent.now.functions) }
{
    for function in agent.functions.items() {
        places.push(Transition {
            number,
            agent,
            function,
        })?;
    }
    Ok(())
}

/// The functions of these types in document order.
fn places_of<'a>(alloc: Global, agents: &'a [AgentType]) -> Result<Vec<Transition<'a>>, NoMemory>
    ensures { IfOk result (λ places. map place_found places.items ≡ functions_from 0 agents.now) }
{
    let mut places = Vec::new(alloc);
    for (i, agent) in agents.iter().enumerate() {
        add_functions(&mut places, number(i)?, agent)?;
    }
    Ok(places)
}

/// Notes the number under the name.
fn note(alloc: Global, table: &mut Table<Vec<u32>>, name: &str, number: u32) -> Result<(), NoMemory>
    ensures { OnOk result ((q : List ℕ) → numbers_under table.new q
        ≡ (if bytes_eq q name.now then numbers_under table.old q ++ number ∷ [] else numbers_under table.old q)) }
{
    let key = String::from_str(alloc, name)?;
    table.entry(key)?.or_default().push(number)?;
    Ok(())
}

/// The numbers under the name.
fn under<'t>(table: &'t Table<Vec<u32>>, name: &str) -> &'t [u32]
    ensures { result.now ≡ numbers_under table.now name.now }
{
    match table.get(name) {
        Some(numbers) => numbers.as_slice(),
        None => &[],
    }
}

/// For each name the functions that have it, by number.
fn numbers_by_name(alloc: Global, places: &[Transition<'_>]) -> Result<Table<Vec<u32>>, NoMemory>
    ensures { IfOk result (λ table. (name : List ℕ) → numbers_under table name
        ≡ numbers_where (λ place. bytes_eq name place.function.name) (map place_found places.now)) }
{
    let mut table = HashMap::new(alloc);
    for (i, place) in places.iter().enumerate() {
        note(alloc, &mut table, place.function.name.as_str(), number(i)?)?;
    }
    Ok(table)
}

/// The functions of a model, seen as their list in document order.
#[derive(Drop)]
pub(crate) struct Functions<'a> {
    places: Vec<Transition<'a>>,
    by_name: Table<Vec<u32>>,
}

impl<'a> Model for Functions<'a> {
    ghost use Rattle.std.specs.Prelude.{◌≡◌, ℕ, List, map};
    ghost use Rattle.std.specs.Coded.{codes};
    ghost use Rattle.std.specs.Str.{bytes_eq};
    ghost use Rattle.flame_spec.specs.contracts.models.AgentType as a;
    ghost use Rattle.flame_spec.specs.contracts.models.Function as f;
    ghost use Rattle.flame_spec.specs.Functions.{Place};
    ghost use Rattle.flame_spec.specs.Lists.{numbers_where};
    ghost use Rattle.flame_lookup.specs.WordsFound.{place_found};
    ghost use Rattle.flame_lookup.specs.WordTables.{numbers_under};

    ghost Value = { List Place };

    ghost coded = { Prim.hlevel (codes, a.the_row.coded, f.the_row.coded) };

    ghost view = { λ t. map place_found t.places.items };

    ghost invariant = { λ t. (name : List ℕ) → numbers_under t.by_name name
        ≡ numbers_where (λ place. bytes_eq name place.function.name) (map place_found t.places.items) };
}

impl<'a> Functions<'a> {
    /// The table of the functions of these types.
    pub(crate) fn of(alloc: Global, agents: &'a [AgentType]) -> Result<Functions<'a>, NoMemory>
        ensures { IfOk result (λ functions. functions ≡ functions_from 0 agents.now) }
    {
        let places = places_of(alloc, agents)?;
        let by_name = numbers_by_name(alloc, places.as_slice())?;
        Ok(Functions { places, by_name })
    }

    /// The functions in document order.
    pub(crate) fn places(&self) -> &[Transition<'a>]
        ensures { map place_found result.now ≡ self.now }
    {
        self.places.as_slice()
    }

    /// The functions of this name, by number.
    pub(crate) fn numbers(&self, name: &str) -> &[u32]
        ensures { result.now ≡ numbers_where (λ place. bytes_eq name.now place.function.name) self.now }
    {
        under(&self.by_name, name)
    }

    /// Whether one of the functions has this name.
    pub(crate) fn names(&self, name: &str) -> bool
        ensures { result ≡ list_any (λ place. bytes_eq name.now place.function.name) self.now }
    {
        !self.numbers(name).is_empty()
    }
}

/// Adds the C functions of the file of this number.
fn add_file<'a>(all: &mut Vec<CFunction<'a>>, file: u32, unit: &'a Unit) -> Result<(), NoMemory>
    ensures { OnOk result (map definition_found all.new.items
        ≡ map definition_found all.old.items ++ definitions_of file unit.now) }
{
    for def in unit.functions.items() {
        all.push(CFunction { file, def })?;
    }
    Ok(())
}

/// The C functions of these files in source order.
fn c_functions<'a>(alloc: Global, units: &'a [Unit]) -> Result<Vec<CFunction<'a>>, NoMemory>
    ensures { IfOk result (λ all. map definition_found all.items ≡ definitions units.now) }
{
    let mut all = Vec::new(alloc);
    for (i, unit) in units.iter().enumerate() {
        add_file(&mut all, number(i)?, unit)?;
    }
    Ok(all)
}

/// Whether the C function is a helper beside these functions of a model.
pub(crate) fn is_helper(functions: &Functions<'_>, function: &CFunction<'_>) -> bool
    ensures { result ≡ helps_beside functions.now (definition_found function.now) }
{
    !function.def.parameters.items().is_empty() && !functions.names(function.def.name.as_str())
}

/// Adds the C function where it is a helper beside these functions of a model.
fn add_helper<'a>(
    functions: &Functions<'_>,
    function: &CFunction<'a>,
    found: &mut Vec<CFunction<'a>>,
) -> Result<(), NoMemory>
    ensures { OnOk result (map definition_found found.new.items
        ≡ (if helps_beside functions.now (definition_found function.now)
        then map definition_found found.old.items ++ definition_found function.now ∷ []
        else map definition_found found.old.items)) }
{
    if is_helper(functions, function) {
        found.push(*function)?;
    }
    Ok(())
}

/// The helpers among these C functions beside these functions of a model.
fn helpers_among<'a>(
    alloc: Global,
    functions: &Functions<'_>,
    all: &[CFunction<'a>],
) -> Result<Vec<CFunction<'a>>, NoMemory>
    ensures { IfOk result (λ found. map definition_found found.items
        ≡ filter (helps_beside functions.now) (map definition_found all.now)) }
{
    let mut found = Vec::new(alloc);
    for function in all {
        add_helper(functions, function, &mut found)?;
    }
    Ok(found)
}

/// C functions, and for each name the first of them that has it.
#[derive(Drop)]
pub(crate) struct CFunctions<'a> {
    pub(crate) all: Vec<CFunction<'a>>,
    pub(crate) by_name: Table<Helper<'a>>,
}

impl<'a> CFunctions<'a> {
    /// These C functions, with the table of their names.
    fn with_names(alloc: Global, all: Vec<CFunction<'a>>) -> Result<CFunctions<'a>, NoMemory>
        ensures listed { IfOk result (λ functions. functions.all ≡ all.entry) }
        ensures named { IfOk result (λ functions. (name : List ℕ)
            → option_map helper_found (get_by_text functions.by_name name)
            ≡ numbered_where (λ d. bytes_eq d.name name) (map definition_found all.entry.items)) }
    {
        let by_name = c_function_table(alloc, all.as_slice())?;
        Ok(CFunctions { all, by_name })
    }

    /// The C functions of these files in source order.
    pub(crate) fn of(alloc: Global, units: &'a [Unit]) -> Result<CFunctions<'a>, NoMemory>
        ensures listed { IfOk result (λ functions. map definition_found functions.all.items ≡ definitions units.now) }
        ensures named { IfOk result (λ functions. (name : List ℕ)
            → option_map helper_found (get_by_text functions.by_name name)
            ≡ numbered_where (λ d. bytes_eq d.name name) (definitions units.now)) }
    {
        let all = c_functions(alloc, units)?;
        CFunctions::with_names(alloc, all)
    }

    /// The helpers among them beside these functions of a model.
    pub(crate) fn helpers(
        &self,
        alloc: Global,
        functions: &Functions<'_>,
    ) -> Result<CFunctions<'a>, NoMemory>
        ensures listed { IfOk result (λ helpers. map definition_found helpers.all.items
            ≡ filter (helps_beside functions.now) (map definition_found self.now.all.items)) }
        ensures named { IfOk result (λ helpers. (name : List ℕ)
            → option_map helper_found (get_by_text helpers.by_name name)
            ≡ numbered_where (λ d. bytes_eq d.name name)
            (filter (helps_beside functions.now) (map definition_found self.now.all.items))) }
    {
        let helpers = helpers_among(alloc, functions, self.all.as_slice())?;
        CFunctions::with_names(alloc, helpers)
    }
}
