//! Data types of a file.

ghost use Rattle.std.specs.Prelude.{◌≡◌, ◌||◌, ◌++◌, [], ◌∷◌, true, false, map, IfOk, IfErr, OnOk, ℕ, List, if◌then◌else◌};
ghost use Rattle.flame_spec.specs.KnownNames.{is_among};
ghost use Rattle.flame_nest.specs.FlatModels.{flat_variables, with_new};
ghost use Rattle.flame_nest.specs.NestFaults.{meant_by, type_names, fields_faults, type_faults, types_faults, is_wide, is_int};
ghost use Rattle.flame_nest.specs.GivenTables.{given_in};
ghost use Rattle.flame_spec.specs.FirstFaults.{FailsFirst};

use crate::earlier::Earlier;
use crate::faults::{NestFault, NestKind};
use crate::fields::Fields;
use crate::kinds::Kinds;
use crate::noting::note_name;
use crate::refusing::refuse;
use crate::variables::{check_variables, is_int};
use flame_name_sets::Names;
use flame_rows::{Fail, Text};
use flame_spec::DataType;
use std::alloc::Global;

/// The flat fields of a data type, which is not too wide and whose variables have no fault.
fn check_fields(
    alloc: Global,
    file: &Text,
    kinds: &Kinds<'_>,
    declared: &DataType,
) -> Result<Fields, Fail<NestFault>>
    ensures none { OnOk result (fields_faults file.now (meant_by kinds.now) declared.now ≡ []) }
    ensures fields { IfOk result (λ fields. fields ≡ flat_variables kinds.now declared.now.variables) }
    ensures narrow { IfOk result (λ fields. is_wide fields ≡ false) }
    ensures first { IfErr result (FailsFirst (fields_faults file.now (meant_by kinds.now) declared.now)) }
{
    let variables = declared.variables.items();
    check_variables(alloc, file, kinds, variables)?;
    let columns = kinds.width(variables);
    refuse(
        alloc,
        4096 < columns,
        NestKind::TooWide,
        file,
        &declared.name,
    )?;
    Ok(Fields::of(kinds.flat(alloc, variables)?, columns))
}

/// Whether the name is that of an earlier data type of the file, or `int`.
fn is_twice(here: &Names<'_>, name: &Text) -> bool
    ensures { result ≡ (is_int name.now || is_among name.now here.now) }
{
    is_int(name) || here.has(name.as_str())
}

/// Adds a data type, where earlier files have not given it. It is as they have given it, or has no fault; none of its
/// file has its name.
fn check_type<'a>(
    alloc: Global,
    file: &Text,
    earlier: &Earlier<'_>,
    here: &Names<'_>,
    kinds: &mut Kinds<'a>,
    declared: &'a DataType,
) -> Result<(), Fail<NestFault>>
    requires known { (name : List ℕ) → (given_in earlier.now).has name ≡ false → is_among name here.now ≡ false
        → is_among name (type_names kinds.old) ≡ false }
    ensures none { OnOk result
        (type_faults file.now (given_in earlier.now) here.now (meant_by kinds.old) declared.now ≡ []) }
    ensures kinds { OnOk result (kinds.new
        ≡ (if (given_in earlier.now).has declared.now.name then kinds.old else kinds.old ++ declared.now ∷ [])) }
    ensures first { IfErr result
        (FailsFirst (type_faults file.now (given_in earlier.now) here.now (meant_by kinds.old) declared.now)) }
{
    let differs = earlier.differs(&declared.name, &declared.variables);
    refuse(alloc, differs, NestKind::Differs, file, &declared.name)?;
    refuse(
        alloc,
        is_twice(here, &declared.name),
        NestKind::TwiceType,
        file,
        &declared.name,
    )?;
    if earlier.has(&declared.name) {
        return Ok(());
    }
    let fields = check_fields(alloc, file, kinds, declared)?;
    kinds.add(declared, fields)?;
    Ok(())
}

/// Adds the data types of a file that earlier files have not given.
pub fn check_types<'a>(
    alloc: Global,
    file: &Text,
    earlier: &Earlier<'_>,
    kinds: &mut Kinds<'a>,
    types: &'a [DataType],
) -> Result<(), Fail<NestFault>>
    requires known { (name : List ℕ) → is_among name (type_names kinds.old) ≡ (given_in earlier.now).has name }
    ensures none { OnOk result (types_faults file.now (given_in earlier.now) kinds.old types.now ≡ []) }
    ensures kinds { OnOk result (kinds.new ≡ with_new (λ type. type.name) kinds.old types.now) }
    ensures first { IfErr result (FailsFirst (types_faults file.now (given_in earlier.now) kinds.old types.now)) }
{
    let mut here = Names::new(alloc);
    for declared in types {
        check_type(alloc, file, earlier, &here, kinds, declared)?;
        note_name(&mut here, &declared.name)?;
    }
    Ok(())
}
