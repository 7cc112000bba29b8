//! The check of function files.

ghost use Rattle.std.specs.Prelude.{◌≡◌, [], IfErr, IfOk, OnOk};
ghost use Rattle.flame_spec.specs.CheckFaults.{check_faults};
ghost use Rattle.flame_spec.specs.FirstFaults.{FailsFirst};
ghost use Rattle.flame_body.specs.FunctionBodies.{function_bodies, helper_bodies};

use crate::defining::{all_bare, none_missing, none_twice};
use crate::numbering::{numbered_functions, numbered_helpers};
use crate::rows::Rows;
use crate::walking::clean_bodies;
use flame_body::Body;
use flame_calls::call_faults;
use flame_lookup::Tables;
use flame_rows::{Fail, Seq};
use flame_spec::{CheckFault, Model, Unit};
use std::alloc::Global;

/// What a model's function files say, with numbers in place of names.
#[derive(Drop)]
pub struct Checked {
    /// The body of each function of the model, in document order; that of `idle` is empty.
    pub bodies: Seq<Body>,
    /// The body of each helper, in source order: file by file, from the top.
    pub helpers: Seq<Body>,
}

/// Finds the first fault of the function files.
fn refuse(alloc: Global, tables: &Tables<'_>) -> Result<(), Fail<CheckFault>>
    ensures clean { OnOk result (check_faults tables.now.model tables.now.units ≡ []) }
    ensures first { IfErr result (FailsFirst (check_faults tables.now.model tables.now.units)) }
{
    none_twice(alloc, tables)?;
    all_bare(alloc, tables)?;
    none_missing(alloc, tables)?;
    call_faults(alloc, tables)?;
    clean_bodies(alloc, tables)
}

/// The bodies of function files without a fault, so nothing but want of memory fails.
fn numbered(
    alloc: Global,
    tables: &Tables<'_>,
    rows: &Rows<'_>,
) -> Result<Checked, Fail<CheckFault>>
    requires rows { rows.now ≡ tables.now.model }
    requires clean { check_faults tables.now.model tables.now.units ≡ [] }
    ensures bodies { IfOk result (λ checked. checked.bodies ≡ function_bodies tables.now.model tables.now.units) }
    ensures helpers { IfOk result (λ checked. checked.helpers ≡ helper_bodies tables.now.model tables.now.units) }
    ensures none { IfErr result (FailsFirst []) }
{
    let bodies = numbered_functions(alloc, tables, rows)?;
    let helpers = numbered_helpers(alloc, tables, rows)?;
    Ok(Checked { bodies, helpers })
}

/// Checks the function files that these tables are made of, as `check` does.
fn check_by(alloc: Global, model: &Model, tables: &Tables<'_>) -> Result<Checked, Fail<CheckFault>>
    requires { tables.now.model ≡ model.now }
    ensures accepted { OnOk result (check_faults tables.now.model tables.now.units ≡ []) }
    ensures bodies { IfOk result (λ checked. checked.bodies ≡ function_bodies tables.now.model tables.now.units) }
    ensures helpers { IfOk result (λ checked. checked.helpers ≡ helper_bodies tables.now.model tables.now.units) }
    ensures first { IfErr result (FailsFirst (check_faults tables.now.model tables.now.units)) }
{
    refuse(alloc, tables)?;
    let rows = Rows::of(alloc, model)?;
    let checked = numbered(alloc, tables, &rows)?;
    Ok(checked)
}

/// Checks the function files of a model, which are numbered in the order in which they are given, and gives the bodies
/// of the model's functions and of the helpers with numbers in place of names. A helper is a C function with parameters
/// that has no name of a function of the model.
///
/// Each C function is walked for its faults, once for each function of the model that it is one for and once where it is
/// a helper, and again for the numbers of each body. Names are looked up in hashed tables.
///
/// # Errors
///
/// `Fault` comes exactly where the files have a fault, and it is the first in this order: C functions that have the
/// name of an earlier one; C functions for functions of the model that have parameters; functions of the model but
/// `idle` that no C function defines, in document order; a cycle of calls of helpers; calls that go too deep; the
/// faults in bodies, C function by C function from the top of the first file, and for each one of them in document
/// order of the functions of the model that it is one for. `NoMemory` is want of memory, or more constants, functions,
/// files or C functions, or wider rows, than 32 bits can number.
pub fn check(alloc: Global, model: &Model, units: &Seq<Unit>) -> Result<Checked, Fail<CheckFault>>
    ensures accepted { OnOk result (check_faults model.now units.now ≡ []) }
    ensures bodies { IfOk result (λ checked. checked.bodies ≡ function_bodies model.now units.now) }
    ensures helpers { IfOk result (λ checked. checked.helpers ≡ helper_bodies model.now units.now) }
    ensures first { IfErr result (FailsFirst (check_faults model.now units.now)) }
{
    let tables = Tables::of(alloc, model, units)?;
    check_by(alloc, model, &tables)
}
