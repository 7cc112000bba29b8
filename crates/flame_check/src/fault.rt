//! Why function files are refused.

ghost use Rattle.flame_spec.specs.FirstFaults.{FailsBy};
ghost use Rattle.flame_lookup.specs.WordsFound.{definition_found};

use flame_lookup::CFunction;
use flame_rows::{Fail, NoMemory, Text};
use flame_spec::{CheckFault, CheckKind};
use std::alloc::Global;

/// The fault with this name, or want of memory.
pub(crate) fn fault(
    alloc: Global,
    kind: CheckKind,
    file: u32,
    line: u32,
    name: &str,
) -> Fail<CheckFault>
    ensures { FailsBy (record { kind = kind; file = file; line = line; name = name.now }) result }
{
    match Text::of(alloc, name) {
        Ok(name) => Fail::Fault(CheckFault {
            kind,
            file,
            line,
            name,
        }),
        Err(NoMemory) => Fail::NoMemory,
    }
}

/// The fault at this C function, or want of memory.
pub(crate) fn fault_at(alloc: Global, kind: CheckKind, function: &CFunction<'_>) -> Fail<CheckFault>
    ensures { let d = definition_found function.now in
        FailsBy (record { kind = kind; file = d.file; line = d.line; name = d.name }) result }
{
    let name = function.def.name.as_str();
    fault(alloc, kind, function.file, function.def.line, name)
}
