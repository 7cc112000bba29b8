//! The first fault, where it is known who calls whom.

ghost use Rattle.std.specs.Prelude.{◌≡◌, [], ◌<◌, ◌^◌, IfOk, IfErr, None, Some, length, map};
ghost use Rattle.flame_spec.specs.FirstFaults.{FailsFirst};
ghost use Rattle.flame_spec.specs.HelperFaults.{call_cycle};
ghost use Rattle.flame_spec.specs.ModelOrder.{order, first_left};
ghost use Rattle.flame_calls.specs.FaultsOfCalls.{first_deep_among, faults_among};
ghost use Rattle.flame_graph.specs.Graph.{AreAscending, AreWaiting, follows};
ghost use Rattle.flame_lookup.specs.WordsFound.{definition_found};

use crate::faults::{deep_fault, find_deep, recursive_fault};
use flame_graph::{Successors, begin_with_least, first_waiting, layers, put_in_order, walk_back};
use flame_lookup::CFunction;
use flame_rows::{Fail, NoMemory};
use flame_spec::CheckFault;
use std::alloc::Global;

/// The cycle of calls that is met from the first helper that is left over, from caller to called helper.
fn meet_cycle(
    alloc: Global,
    lists: &[Successors],
    waiting: &[usize],
    start: u32,
) -> Result<Vec<u32>, NoMemory>
    requires few { length lists.now < 2 ^ 32 }
    requires ascending { AreAscending lists.now }
    requires waiting { AreWaiting
        (length lists.now)
        (length lists.now)
        (follows lists.now)
        (order (length lists.now) (follows lists.now))
        waiting.now }
    requires start { first_left (length lists.now) (follows lists.now) ≡ Some start }
    ensures { IfOk result (λ cycle. cycle.items ≡ call_cycle (length lists.now) (follows lists.now)) }
{
    let mut cycle = walk_back(alloc, lists, waiting, start)?;
    cycle.reverse();
    begin_with_least(&mut cycle);
    Ok(cycle)
}

/// Fails at the first helper whose calls are too deep, where none is left over by this order.
fn judge_depth(
    alloc: Global,
    helpers: &[CFunction<'_>],
    lists: &[Successors],
    taken: &[u32],
) -> Result<(), Fail<CheckFault>>
    requires few { length lists.now < 2 ^ 32 }
    requires ascending { AreAscending lists.now }
    requires same { length lists.now ≡ length helpers.now }
    requires order { taken.now ≡ order (length lists.now) (follows lists.now) }
    requires whole { first_left (length lists.now) (follows lists.now) ≡ None }
    ensures none { IfOk result (λ done.
        first_deep_among (map definition_found helpers.now) (follows lists.now) ≡ []) }
    ensures first { IfErr result (
        FailsFirst (first_deep_among (map definition_found helpers.now) (follows lists.now))) }
{
    let heights = layers(alloc, lists, taken)?;
    match find_deep(&heights) {
        Some(number) => Err(Fail::Fault(deep_fault(alloc, helpers, number)?)),
        None => Ok(()),
    }
}

/// Fails at the first fault of calls of helpers, where these are the lists of their callers.
pub fn judge(
    alloc: Global,
    helpers: &[CFunction<'_>],
    lists: &[Successors],
) -> Result<(), Fail<CheckFault>>
    requires few { length helpers.now < 2 ^ 32 }
    requires ascending { AreAscending lists.now }
    requires same { length lists.now ≡ length helpers.now }
    ensures none { IfOk result (λ done. faults_among (map definition_found helpers.now) (follows lists.now) ≡ []) }
    ensures first { IfErr result (FailsFirst (faults_among (map definition_found helpers.now) (follows lists.now))) }
{
    let ordered = put_in_order(alloc, lists)?;
    match first_waiting(&ordered.waiting) {
        Some(start) => {
            let cycle = meet_cycle(alloc, lists, &ordered.waiting, start)?;
            Err(Fail::Fault(recursive_fault(alloc, helpers, &cycle)?))
        }
        None => judge_depth(alloc, helpers, lists, &ordered.order),
    }
}
