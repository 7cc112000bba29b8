//! Why a function file is refused.

ghost use Rattle.std.specs.Prelude.{◌≡◌, [], IfErr, OnOk};
ghost use Rattle.flame_spec.specs.ExpressionFaults.{fault_where};
ghost use Rattle.flame_spec.specs.FirstFaults.{FailsBy, FailsFirst};
ghost use Rattle.flame_lookup.specs.Sources.{context_at};

use flame_lookup::Words;
use flame_rows::{Fail, NoMemory, Text};
use flame_spec::{CheckFault, CheckKind};
use std::alloc::Global;

/// The fault at this word, or want of memory.
pub(crate) fn fault(
    alloc: Global,
    kind: CheckKind,
    file: u32,
    line: u32,
    word: &str,
) -> Fail<CheckFault>
    ensures { FailsBy (record { kind = kind; file = file; line = line; name = word.now }) result }
{
    match Text::of(alloc, word) {
        Ok(name) => Fail::Fault(CheckFault {
            kind,
            file,
            line,
            name,
        }),
        Err(NoMemory) => Fail::NoMemory,
    }
}

/// Refuses the word where the test finds the fault.
pub(crate) fn refuse(
    alloc: Global,
    words: &Words<'_, '_>,
    test: bool,
    kind: CheckKind,
    line: u32,
    word: &str,
) -> Result<(), Fail<CheckFault>>
    ensures clean { OnOk result (fault_where test (context_at words.now) kind line word.now ≡ []) }
    ensures first { IfErr result (FailsFirst (fault_where test (context_at words.now) kind line word.now)) }
{
    if test {
        return Err(fault(alloc, kind, words.file(), line, word));
    }
    Ok(())
}
