//! Refusals.

ghost use Rattle.std.specs.Prelude.{◌≡◌, [], IfOk, IfErr, OnOk};
ghost use Rattle.flame_nest.specs.NestFaults.{nest_fault, nest_where};
ghost use Rattle.flame_spec.specs.FirstFaults.{FailsBy, FailsFirst};

use crate::faults::{NestFault, NestKind};
use flame_rows::{Copied, Fail, NoMemory, Text};
use std::alloc::Global;

/// The fault of a name in a file.
fn fault_of(alloc: Global, kind: NestKind, file: &Text, name: &Text) -> Result<NestFault, NoMemory>
    ensures { IfOk result (λ fault. fault ≡ nest_fault kind file.now name.now) }
{
    Ok(NestFault {
        kind,
        file: file.copy(alloc)?,
        name: name.copy(alloc)?,
    })
}

/// The fault of a name in a file, or want of memory.
fn fault(alloc: Global, kind: NestKind, file: &Text, name: &Text) -> Fail<NestFault>
    ensures { FailsBy (nest_fault kind file.now name.now) result }
{
    match fault_of(alloc, kind, file, name) {
        Ok(fault) => Fail::Fault(fault),
        Err(NoMemory) => Fail::NoMemory,
    }
}

/// Refuses the name where the test finds the fault.
pub fn refuse(
    alloc: Global,
    test: bool,
    kind: NestKind,
    file: &Text,
    name: &Text,
) -> Result<(), Fail<NestFault>>
    ensures none { OnOk result (nest_where test kind file.now name.now ≡ []) }
    ensures first { IfErr result (FailsFirst (nest_where test kind file.now name.now)) }
{
    if test {
        return Err(fault(alloc, kind, file, name));
    }
    Ok(())
}
