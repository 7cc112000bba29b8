//! The check of calls of helpers.

ghost use Rattle.std.specs.Prelude.{◌≡◌, [], ◌<◌, ◌^◌, IfOk, IfErr, length, map};
ghost use Rattle.flame_spec.specs.Definitions.{helpers};
ghost use Rattle.flame_spec.specs.FirstFaults.{FailsFirst};
ghost use Rattle.flame_spec.specs.HelperFaults.{is_called_by};
ghost use Rattle.flame_calls.specs.FaultsOfCalls.{call_faults};
ghost use Rattle.flame_graph.specs.Graph.{AreSuccessors};
ghost use Rattle.flame_lookup.specs.WordsFound.{definition_found};

use crate::judging::judge;
use crate::marking::mark_statements;
use flame_graph::{Successors, empty_lists};
use flame_lookup::{CFunction, Tables};
use flame_rows::{Fail, NoMemory};
use flame_spec::CheckFault;
use std::alloc::Global;

/// For each helper, in source order, the helpers that call it, ascending.
fn list_callers(
    alloc: Global,
    tables: &Tables<'_>,
    all: &[CFunction<'_>],
) -> Result<Vec<Successors>, NoMemory>
    requires few { length all.now < 2 ^ 32 }
    requires all { map definition_found all.now ≡ helpers tables.now.model tables.now.units }
    ensures { IfOk result (λ lists.
        let hs = helpers tables.now.model tables.now.units in
        AreSuccessors (length hs) (is_called_by tables.now.model hs) lists.items) }
{
    let mut lists = empty_lists(alloc, all.len())?;
    for (i, helper) in all.iter().enumerate() {
        let words = tables.for_helper(helper.file);
        mark_statements(helper.def.body.items(), &words, i as u32, &mut lists)?;
    }
    Ok(lists)
}

/// Checks the calls of helpers: that none of them go in a cycle, and that none go deeper than 64 levels.
///
/// Again and again the first helper is taken that is not taken and all of whose called helpers are taken. A helper
/// that calls none has height 1, and another one 1 more than the greatest height of those that it calls. With h helpers
/// and c calls of them it takes time for about h log h + c steps.
///
/// # Errors
///
/// `Fault` with `Recursive` comes exactly where helpers are left over. From the first of them the path goes to its
/// first called helper that is left over, again and again until one repeats; the fault stands at the first helper of
/// the repeated part in source order, and names it from there, as `a -> b -> a`. `Fault` with `DeepCalls` comes exactly
/// where none is left over and a helper's height is above 64; it stands at the first such helper. `NoMemory` is want of
/// memory, or 2^32 helpers.
pub fn call_faults(alloc: Global, tables: &Tables<'_>) -> Result<(), Fail<CheckFault>>
    ensures none { IfOk result (λ done.
        call_faults tables.now.model (helpers tables.now.model tables.now.units) ≡ []) }
    ensures first { IfErr result (FailsFirst
        (call_faults tables.now.model (helpers tables.now.model tables.now.units))) }
{
    let all = tables.helpers();
    if all.len() >= 4294967296 {
        return Err(Fail::NoMemory);
    }
    let lists = list_callers(alloc, tables, all)?;
    judge(alloc, all, &lists)
}
