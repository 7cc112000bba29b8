//! C functions that are defined twice, that have parameters and are run by the model, or that are missing.

ghost use Rattle.std.specs.Prelude.{◌≡◌, ◌<◌, [], ◌&&◌, not, IfErr, OnOk, Some, length, slice_get};
ghost use Rattle.std.specs.List.{list_any, flat_map};
ghost use Rattle.flame_spec.specs.CheckFaults.{twice_faults, is_run_by, with_parameters_faults, missing_faults};
ghost use Rattle.flame_spec.specs.Definitions.{definitions, has_none, is_for, is_idle};
ghost use Rattle.flame_spec.specs.FirstFaults.{FailsFirst};
ghost use Rattle.flame_spec.specs.Functions.{functions};
ghost use Rattle.flame_lookup.specs.WordsFound.{definition_found, place_found};

use crate::fault::{fault, fault_at};
use flame_lookup::{CFunction, Tables, Transition};
use flame_rows::Fail;
use flame_spec::{CheckFault, CheckKind, Function};
use std::alloc::Global;

/// No C function has the name of an earlier one.
pub(crate) fn none_twice(alloc: Global, tables: &Tables<'_>) -> Result<(), Fail<CheckFault>>
    ensures clean { OnOk result (twice_faults [] (definitions tables.now.units) ≡ []) }
    ensures first { IfErr result (FailsFirst (twice_faults [] (definitions tables.now.units))) }
{
    let all = tables.c_functions();
    for (i, function) in all.iter().enumerate() {
        if tables.is_repeated(i) {
            return Err(fault_at(alloc, CheckKind::DefinedTwice, function));
        }
    }
    Ok(())
}

/// Whether the C function has parameters and is one for a function of the model.
fn has_parameters(tables: &Tables<'_>, function: &CFunction<'_>) -> bool
    ensures { let d = definition_found function.now in
        result ≡ (not (has_none d.parameters) && list_any (is_run_by d) (functions tables.now.model)) }
{
    !function.def.parameters.items().is_empty() && !tables.run_by(function).is_empty()
}

/// The C function has no parameters, where it is one for a function of the model.
fn bare(
    alloc: Global,
    tables: &Tables<'_>,
    function: &CFunction<'_>,
) -> Result<(), Fail<CheckFault>>
    ensures clean { OnOk result (with_parameters_faults tables.now.model (definition_found function.now) ≡ []) }
    ensures first { IfErr result
        (FailsFirst (with_parameters_faults tables.now.model (definition_found function.now))) }
{
    if has_parameters(tables, function) {
        return Err(fault_at(alloc, CheckKind::HasParameters, function));
    }
    Ok(())
}

/// No C function for a function of the model has parameters.
pub(crate) fn all_bare(alloc: Global, tables: &Tables<'_>) -> Result<(), Fail<CheckFault>>
    ensures clean { OnOk result
        (flat_map (with_parameters_faults tables.now.model) (definitions tables.now.units) ≡ []) }
    ensures first { IfErr result
        (FailsFirst (flat_map (with_parameters_faults tables.now.model) (definitions tables.now.units))) }
{
    let all = tables.c_functions();
    for function in all {
        bare(alloc, tables, function)?;
    }
    Ok(())
}

/// Whether no C function defines the function of the model, which is not `idle`.
fn is_missing(tables: &Tables<'_>, function: &Function) -> bool
    ensures { result
        ≡ (not (is_idle function.now) && not (list_any (is_for function.now) (definitions tables.now.units))) }
{
    if function.name.as_str() == "idle" {
        return false;
    }
    tables.defined(function).is_none()
}

/// A C function defines the function of the model, where it is not `idle`.
fn there(alloc: Global, tables: &Tables<'_>, place: &Transition<'_>) -> Result<(), Fail<CheckFault>>
    ensures clean { OnOk result (missing_faults (definitions tables.now.units) (place_found place.now) ≡ []) }
    ensures first { IfErr result (FailsFirst (missing_faults (definitions tables.now.units) (place_found place.now))) }
{
    if is_missing(tables, place.function) {
        let name = place.function.name.as_str();
        return Err(fault(alloc, CheckKind::MissingFunction, 0, 0, name));
    }
    Ok(())
}

/// C functions define all functions of the model but `idle` ones.
pub(crate) fn none_missing(alloc: Global, tables: &Tables<'_>) -> Result<(), Fail<CheckFault>>
    ensures clean { OnOk result
        (flat_map (missing_faults (definitions tables.now.units)) (functions tables.now.model) ≡ []) }
    ensures first { IfErr result
        (FailsFirst (flat_map (missing_faults (definitions tables.now.units)) (functions tables.now.model))) }
{
    let places = tables.transitions();
    for place in places {
        there(alloc, tables, place)?;
    }
    Ok(())
}
