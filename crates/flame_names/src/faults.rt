//! Why a model's names are refused.

ghost use Rattle.std.specs.Prelude.{◌≡◌, ◌++◌, [], ◌∷◌, IfErr, IfOk, OnOk, false};
ghost use Rattle.flame_spec.specs.declared.faults.NameKind.TheVariants.{Duplicate};
ghost use Rattle.flame_spec.specs.KnownNames.{is_among};
ghost use Rattle.flame_spec.specs.Refusals.{name_fault, fault_where};
ghost use Rattle.flame_names.specs.PlacePaths.{text_of};
ghost use Rattle.flame_spec.specs.FirstFaults.{FailsBy, FailsFirst};

use crate::path::Place;
use flame_name_sets::Names;
use flame_rows::{Fail, NoMemory, Text};
use flame_spec::{NameFault, NameKind};
use std::alloc::Global;

/// The prefix and the name as one text.
fn marked(alloc: Global, prefix: &str, name: &str) -> Result<Text, NoMemory>
    ensures { IfOk result (λ text. text ≡ prefix.now ++ name.now) }
{
    let mut text = String::from_str(alloc, prefix)?;
    text.push_str(name)?;
    Ok(Text::from(text))
}

/// The fault, with its path.
fn name_fault_at(
    alloc: Global,
    kind: NameKind,
    place: &Place<'_>,
    prefix: &str,
    name: &str,
) -> Result<NameFault, NoMemory>
    ensures { IfOk result (λ fault. fault ≡ name_fault kind (text_of place.now) (prefix.now ++ name.now)) }
{
    let path = place.text(alloc)?;
    let name = marked(alloc, prefix, name)?;
    Ok(NameFault { kind, path, name })
}

/// The fault of a name that stands behind a prefix, or want of memory.
pub fn prefixed_fault(
    alloc: Global,
    kind: NameKind,
    place: &Place<'_>,
    prefix: &str,
    name: &str,
) -> Fail<NameFault>
    ensures { FailsBy (name_fault kind (text_of place.now) (prefix.now ++ name.now)) result }
{
    match name_fault_at(alloc, kind, place, prefix, name) {
        Ok(fault) => Fail::Fault(fault),
        Err(NoMemory) => Fail::NoMemory,
    }
}

/// The fault of a name, or want of memory.
pub fn fault(alloc: Global, kind: NameKind, place: &Place<'_>, name: &str) -> Fail<NameFault>
    ensures { FailsBy (name_fault kind (text_of place.now) name.now) result }
{
    prefixed_fault(alloc, kind, place, "", name)
}

/// Refuses the name where the test finds the fault.
pub fn refuse(
    alloc: Global,
    test: bool,
    kind: NameKind,
    place: &Place<'_>,
    name: &str,
) -> Result<(), Fail<NameFault>>
    ensures none { OnOk result (fault_where test kind (text_of place.now) name.now ≡ []) }
    ensures first { IfErr result (FailsFirst (fault_where test kind (text_of place.now) name.now)) }
{
    if test {
        return Err(fault(alloc, kind, place, name));
    }
    Ok(())
}

/// Adds a name that stands at this place, and refuses it where it is there.
pub fn add_new<'a>(
    alloc: Global,
    place: &Place<'_>,
    name: &'a str,
    earlier: &mut Names<'a>,
) -> Result<(), Fail<NameFault>>
    ensures none { OnOk result (fault_where (is_among name.now earlier.old) Duplicate (text_of place.now) name.now ≡ []) }
    ensures added { OnOk result (is_among name.now earlier.old ≡ false) }
    ensures names { OnOk result (earlier.new ≡ earlier.old ++ name.now ∷ []) }
    ensures first { IfErr result
        (FailsFirst (fault_where (is_among name.now earlier.old) Duplicate (text_of place.now) name.now)) }
{
    if !earlier.add(name)? {
        return Err(fault(alloc, NameKind::Duplicate, place, name));
    }
    Ok(())
}
