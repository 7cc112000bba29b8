//! C functions.

ghost use Rattle.std.specs.Prelude.{◌≡◌, [], IfErr, IfOk, OnOk};
ghost use Rattle.flame_spec.specs.CheckFaults.{definition_faults};
ghost use Rattle.flame_spec.specs.FirstFaults.{FailsFirst};
ghost use Rattle.flame_spec.specs.Scopes.{after_parameters, at_entry};
ghost use Rattle.flame_lookup.specs.Sources.{context_at};
ghost use Rattle.flame_lookup.specs.WordsFound.{definition_found};
ghost use Rattle.flame_body.specs.NumberedTrees.{numbered_statements};
ghost use Rattle.flame_numbering.specs.WordPlaces.{words_at};

use crate::spot::Spot;
use crate::statement::statements;
use crate::stored::parameters;
use flame_body::SlotStmt;
use flame_lookup::{CFunction, Words};
use flame_rows::{Fail, Seq};
use flame_spec::CheckFault;
use std::alloc::Global;

/// The body of the C function from the place where its parameters are declared.
fn walked<'a>(
    alloc: Global,
    words: &Words<'_, 'a>,
    spot: &mut Spot<'a>,
    function: &CFunction<'a>,
) -> Result<Seq<SlotStmt>, Fail<CheckFault>>
    requires { spot.old ≡ at_entry }
    ensures clean { OnOk result (definition_faults (context_at words.now) (definition_found function.now) ≡ []) }
    ensures stands { IfOk result (λ tree. tree ≡ numbered_statements (words_at words.now)
        (after_parameters at_entry (definition_found function.now).parameters) (definition_found function.now).body) }
    ensures first { IfErr result
        (FailsFirst (definition_faults (context_at words.now) (definition_found function.now))) }
{
    parameters(alloc, words, spot, function.def.parameters.items())?;
    let body = statements(alloc, words, spot, function.def.body.items())?;
    Ok(body)
}

/// The body of the C function with numbers in place of names, checked where these words stand; or its first fault, or
/// want of memory.
pub fn definition<'a>(
    alloc: Global,
    words: &Words<'_, 'a>,
    function: &CFunction<'a>,
) -> Result<Seq<SlotStmt>, Fail<CheckFault>>
    ensures clean { OnOk result (definition_faults (context_at words.now) (definition_found function.now) ≡ []) }
    ensures stands { IfOk result (λ tree. tree ≡ numbered_statements (words_at words.now)
        (after_parameters at_entry (definition_found function.now).parameters) (definition_found function.now).body) }
    ensures first { IfErr result
        (FailsFirst (definition_faults (context_at words.now) (definition_found function.now))) }
{
    let mut spot: Spot<'a> = Spot::new(alloc);
    let body = walked(alloc, words, &mut spot, function)?;
    Ok(body)
}
