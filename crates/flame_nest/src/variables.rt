//! Variables.

ghost use Rattle.std.specs.Prelude.{◌≡◌, ◌||◌, ◌&&◌, [], not, is_some, IfErr, OnOk};
ghost use Rattle.flame_nest.specs.NestFaults.{meant_by, variable_faults, variables_faults, is_int};
ghost use Rattle.flame_spec.specs.FirstFaults.{FailsFirst};

use crate::faults::{NestFault, NestKind};
use crate::kinds::Kinds;
use crate::refusing::refuse;
use flame_rows::{Fail, Text};
use flame_spec::WideVariable;
use std::alloc::Global;

/// Whether it is the name of the kind of all flat variables.
pub fn is_int(name: &Text) -> bool
    ensures { result ≡ is_int name.now }
{
    name.as_str() == "int"
}

/// Whether the variable is neither of a data type that is known nor of `int`.
fn is_unknown(variable: &WideVariable, typed: bool) -> bool
    ensures { result ≡ not (is_int variable.now.kind || typed) }
{
    !(is_int(&variable.kind) || typed)
}

/// Whether the variable is of a data type and has a length.
fn is_typed_array(variable: &WideVariable, typed: bool) -> bool
    ensures { result ≡ (typed && is_some variable.now.length) }
{
    typed && variable.length.is_some()
}

/// Whether the variable is of `int` or of one of these data types, of these no array, and without a long name when
/// flat. It is never too wide: its data type is not.
fn check_variable(
    alloc: Global,
    file: &Text,
    kinds: &Kinds<'_>,
    variable: &WideVariable,
) -> Result<(), Fail<NestFault>>
    ensures none { OnOk result (variable_faults file.now (meant_by kinds.now) variable.now ≡ []) }
    ensures first { IfErr result (FailsFirst (variable_faults file.now (meant_by kinds.now) variable.now)) }
{
    let name = &variable.name;
    let typed = kinds.is_typed(variable);
    refuse(
        alloc,
        is_unknown(variable, typed),
        NestKind::UnknownType,
        file,
        name,
    )?;
    refuse(
        alloc,
        is_typed_array(variable, typed),
        NestKind::TypedArray,
        file,
        name,
    )?;
    refuse(
        alloc,
        kinds.has_long(variable),
        NestKind::LongName,
        file,
        name,
    )
}

/// The same of variables, one after another.
pub fn check_variables(
    alloc: Global,
    file: &Text,
    kinds: &Kinds<'_>,
    variables: &[WideVariable],
) -> Result<(), Fail<NestFault>>
    ensures none { OnOk result (variables_faults file.now (meant_by kinds.now) variables.now ≡ []) }
    ensures first { IfErr result (FailsFirst (variables_faults file.now (meant_by kinds.now) variables.now)) }
{
    for variable in variables {
        check_variable(alloc, file, kinds, variable)?;
    }
    Ok(())
}
