//! The first fault in the bodies of C functions.

ghost use Rattle.std.specs.Prelude.{◌≡◌, ◌<◌, [], IfErr, OnOk, length, slice_get};
ghost use Rattle.std.specs.List.{flat_map};
ghost use Rattle.flame_spec.specs.CheckFaults.{body_faults, bodies_faults, definition_faults};
ghost use Rattle.flame_spec.specs.Definitions.{definitions, helpers};
ghost use Rattle.flame_spec.specs.FirstFaults.{FailsFirst};
ghost use Rattle.flame_spec.specs.Functions.{functions};
ghost use Rattle.flame_lookup.specs.Sources.{context_at};
ghost use Rattle.flame_lookup.specs.WordsFound.{definition_found};

use flame_lookup::{CFunction, Tables, Words};
use flame_numbering::definition;
use flame_rows::Fail;
use flame_spec::CheckFault;
use std::alloc::Global;

/// The body of the C function has no fault where these words stand.
fn clean_there<'a>(
    alloc: Global,
    words: &Words<'_, 'a>,
    function: &CFunction<'a>,
) -> Result<(), Fail<CheckFault>>
    ensures clean { OnOk result (definition_faults (context_at words.now) (definition_found function.now) ≡ []) }
    ensures first { IfErr result
        (FailsFirst (definition_faults (context_at words.now) (definition_found function.now))) }
{
    let _ = definition(alloc, words, function)?;
    Ok(())
}

/// The body of the C function has no fault for the function of the model of this number.
fn clean_for<'a>(
    alloc: Global,
    tables: &Tables<'a>,
    number: u32,
    function: &CFunction<'a>,
) -> Result<(), Fail<CheckFault>>
    requires { number < length (functions tables.now.model) }
    ensures clean { OnOk result (definition_faults (context_at (record {
      sources = tables.now;
      runs = slice_get (functions tables.now.model) number;
      file = function.now.file;
    }))
        (definition_found function.now) ≡ []) }
    ensures first { IfErr result (FailsFirst (definition_faults (context_at (record {
      sources = tables.now;
      runs = slice_get (functions tables.now.model) number;
      file = function.now.file;
    }))
        (definition_found function.now))) }
{
    let words = tables.for_function(alloc, number, function.file)?;
    clean_there(alloc, &words, function)
}

/// The body of the C function has no fault for any function of the model that it is one for.
fn clean_for_all<'a>(
    alloc: Global,
    tables: &Tables<'a>,
    function: &CFunction<'a>,
) -> Result<(), Fail<CheckFault>>
    ensures clean { OnOk result
        (flat_map (body_faults tables.now.model (helpers tables.now.model tables.now.units)
        (definition_found function.now)) (functions tables.now.model) ≡ []) }
    ensures first { IfErr result
        (FailsFirst (flat_map (body_faults tables.now.model (helpers tables.now.model tables.now.units)
        (definition_found function.now)) (functions tables.now.model))) }
{
    let numbers = tables.run_by(function);
    for number in numbers {
        clean_for(alloc, tables, *number, function)?;
    }
    Ok(())
}

/// The body of the C function has no fault wherever it is checked: once as a helper, or for each function of the model
/// that it is one for.
fn clean_body<'a>(
    alloc: Global,
    tables: &Tables<'a>,
    function: &CFunction<'a>,
) -> Result<(), Fail<CheckFault>>
    ensures clean { OnOk result
        (bodies_faults tables.now.model (helpers tables.now.model tables.now.units)
        (definition_found function.now) ≡ []) }
    ensures first { IfErr result
        (FailsFirst (bodies_faults tables.now.model (helpers tables.now.model tables.now.units)
        (definition_found function.now))) }
{
    if tables.is_helper(function) {
        let words = tables.for_helper(function.file);
        let _ = definition(alloc, &words, function)?;
        return Ok(());
    }
    clean_for_all(alloc, tables, function)
}

/// No body has a fault.
pub(crate) fn clean_bodies(alloc: Global, tables: &Tables<'_>) -> Result<(), Fail<CheckFault>>
    ensures clean { OnOk result
        (flat_map (bodies_faults tables.now.model (helpers tables.now.model tables.now.units))
        (definitions tables.now.units) ≡ []) }
    ensures first { IfErr result
        (FailsFirst (flat_map (bodies_faults tables.now.model (helpers tables.now.model tables.now.units))
        (definitions tables.now.units))) }
{
    let all = tables.c_functions();
    for function in all {
        clean_body(alloc, tables, function)?;
    }
    Ok(())
}
