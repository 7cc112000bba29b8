//! Bodies with numbers in place of names.

ghost use Rattle.std.specs.Prelude.{◌≡◌, [], IfErr, IfOk, None, Some, find, option_map, slice_get};
ghost use Rattle.std.specs.Prelude.{if◌then◌else◌};
ghost use Rattle.flame_spec.specs.CheckFaults.{check_faults, definition_faults};
ghost use Rattle.flame_spec.specs.Definitions.{definitions, helpers, is_for, is_idle};
ghost use Rattle.flame_spec.specs.FirstFaults.{FailsFirst};
ghost use Rattle.flame_spec.specs.Functions.{functions};
ghost use Rattle.flame_spec.specs.Scopes.{at_entry, after_parameters};
ghost use Rattle.flame_lookup.specs.Sources.{context_at};
ghost use Rattle.flame_lookup.specs.WordsFound.{definition_found, place_found};
ghost use Rattle.flame_body.specs.FunctionBodies.{widths_in, function_body, function_bodies};
ghost use Rattle.flame_body.specs.FunctionBodies.{helper_body, helper_bodies};
ghost use Rattle.flame_body.specs.NumberedTrees.{numbered_statements};
ghost use Rattle.flame_numbering.specs.WordPlaces.{words_at};

use crate::rows::Rows;
use flame_body::Body;
use flame_body::laws::definitions_fit;
use flame_lookup::{CFunction, Tables, Transition, Words};
use flame_numbering::definition;
use flame_rows::{Fail, Seq, number};
use flame_spec::{CheckFault, Function, Widths};
use std::alloc::Global;

/// The body of the C function with numbers in place of names, under this number; or its first fault.
fn body<'a>(
    alloc: Global,
    words: &Words<'_, 'a>,
    function: &CFunction<'a>,
    number: u32,
    widths: Widths,
) -> Result<Body, Fail<CheckFault>>
    requires { widths ≡ widths_in words.now.sources.model words.now.runs }
    ensures stands { IfOk result (λ body. let d = definition_found function.now in body ≡ record {
      function = number;
      widths = widths;
      tree = numbered_statements (words_at words.now) (after_parameters at_entry d.parameters) d.body;
    }) }
    ensures first { IfErr result
        (FailsFirst (definition_faults (context_at words.now) (definition_found function.now))) }
{
    let tree = definition(alloc, words, function)?;
    definitions_fit();
    Ok(Body::of(number, widths, tree))
}

/// The C function whose body the function of the model has; `idle` has none.
fn definer<'a>(tables: &Tables<'a>, function: &Function) -> Option<CFunction<'a>>
    ensures { option_map definition_found result
        ≡ (if is_idle function.now then None else find (is_for function.now) (definitions tables.now.units)) }
{
    if function.name.as_str() == "idle" {
        return None;
    }
    tables.defined(function)
}

/// The body of the function of the model of this number, which stands in this place and has that of this C function. The
/// files have no faults, so nothing but want of memory fails.
fn defined_function<'a>(
    alloc: Global,
    tables: &Tables<'a>,
    rows: &Rows<'_>,
    number: u32,
    place: &Transition<'_>,
    function: &CFunction<'a>,
) -> Result<Body, Fail<CheckFault>>
    requires rows { rows.now ≡ tables.now.model }
    requires place { slice_get (functions tables.now.model) number ≡ Some (place_found place.now) }
    requires found { Some (definition_found function.now) ≡ (if is_idle place.now.function.now
        then None else find (is_for place.now.function.now) (definitions tables.now.units)) }
    requires clean { check_faults tables.now.model tables.now.units ≡ [] }
    ensures stands { IfOk result (λ body.
        body ≡ function_body tables.now.model tables.now.units number (place_found place.now)) }
    ensures none { IfErr result (FailsFirst []) }
{
    let words = tables.for_function(alloc, number, function.file)?;
    let widths = rows.of_function(alloc, place)?;
    body(alloc, &words, function, number, widths)
}

/// The body of the function of the model of this number, which stands in this place. The files have no faults, so
/// nothing but want of memory fails.
fn numbered_function(
    alloc: Global,
    tables: &Tables<'_>,
    rows: &Rows<'_>,
    number: u32,
    place: &Transition<'_>,
) -> Result<Body, Fail<CheckFault>>
    requires rows { rows.now ≡ tables.now.model }
    requires place { slice_get (functions tables.now.model) number ≡ Some (place_found place.now) }
    requires clean { check_faults tables.now.model tables.now.units ≡ [] }
    ensures stands { IfOk result (λ body.
        body ≡ function_body tables.now.model tables.now.units number (place_found place.now)) }
    ensures none { IfErr result (FailsFirst []) }
{
    match definer(tables, place.function) {
        Some(function) => defined_function(alloc, tables, rows, number, place, &function),
        None => {
            let widths = rows.of_function(alloc, place)?;
            Ok(Body::of(number, widths, Seq::of(Vec::new(alloc))))
        }
    }
}

/// The bodies of the functions of the model, in document order. The files have no faults, so nothing but want of memory
/// fails.
pub(crate) fn numbered_functions(
    alloc: Global,
    tables: &Tables<'_>,
    rows: &Rows<'_>,
) -> Result<Seq<Body>, Fail<CheckFault>>
    requires rows { rows.now ≡ tables.now.model }
    requires clean { check_faults tables.now.model tables.now.units ≡ [] }
    ensures stands { IfOk result (λ bodies. bodies ≡ function_bodies tables.now.model tables.now.units) }
    ensures none { IfErr result (FailsFirst []) }
{
    let mut bodies = Vec::new(alloc);
    let places = tables.transitions();
    for (i, place) in places.iter().enumerate() {
        let number = number(i)?;
        let body = numbered_function(alloc, tables, rows, number, place)?;
        bodies.push(body)?;
    }
    Ok(Seq::of(bodies))
}

/// The body of the helper of this number. The files have no faults, so nothing but want of memory fails.
fn numbered_helper<'a>(
    alloc: Global,
    tables: &Tables<'a>,
    rows: &Rows<'_>,
    number: u32,
    function: &CFunction<'a>,
) -> Result<Body, Fail<CheckFault>>
    requires rows { rows.now ≡ tables.now.model }
    requires helper { slice_get (helpers tables.now.model tables.now.units) number
        ≡ Some (definition_found function.now) }
    requires clean { check_faults tables.now.model tables.now.units ≡ [] }
    ensures stands { IfOk result (λ body.
        body ≡ helper_body tables.now.model tables.now.units number (definition_found function.now)) }
    ensures none { IfErr result (FailsFirst []) }
{
    let words = tables.for_helper(function.file);
    body(alloc, &words, function, number, rows.of_helper(alloc))
}

/// The bodies of the helpers, in source order. The files have no faults, so nothing but want of memory fails.
pub(crate) fn numbered_helpers(
    alloc: Global,
    tables: &Tables<'_>,
    rows: &Rows<'_>,
) -> Result<Seq<Body>, Fail<CheckFault>>
    requires rows { rows.now ≡ tables.now.model }
    requires clean { check_faults tables.now.model tables.now.units ≡ [] }
    ensures stands { IfOk result (λ bodies. bodies ≡ helper_bodies tables.now.model tables.now.units) }
    ensures none { IfErr result (FailsFirst []) }
{
    let mut bodies = Vec::new(alloc);
    let all = tables.helpers();
    for (i, function) in all.iter().enumerate() {
        let number = number(i)?;
        let body = numbered_helper(alloc, tables, rows, number, function)?;
        bodies.push(body)?;
    }
    Ok(Seq::of(bodies))
}
