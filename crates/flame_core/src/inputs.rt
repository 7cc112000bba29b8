//! Boards that a function reads.

ghost use Rattle.std.specs.Prelude.{◌≡◌, Some, false, IfOk, map, slice_get};
ghost use Rattle.flame_spec.specs.Functions.{Place, functions};
ghost use Rattle.flame_meaning.specs.Outcomes.{place_of};
ghost use Rattle.flame_index.specs.FrozenBoards.{shared_messages};
ghost use Rattle.flame_world.specs.InputBoards.{boards_named};
ghost use Rattle.flame_world.specs.WorldFits.{FitMessages};
ghost use Rattle.flame_agent.specs.FunctionFits.{AreBoardsFor};
ghost use Rattle.flame_events.specs.CoreStates.{is_waiting, status_of};
ghost use Rattle.flame_progress.specs.declared.counts.Counts.{Counts as Kept};
ghost use Rattle.flame_field.specs.KeptBoards.{board_bag};
ghost use Rattle.flame_progress.specs.KeptCores.{core_of};
ghost use Rattle.flame_progress.specs.Tallying.{Came, Tallies};
ghost use Rattle.flame_core.specs.KeptShares.{IsFed};

use flame_field::share;
use flame_index::Frozen;
use flame_progress::Progress;
use flame_round::{Round, route_of};
use flame_rows::{NoMemory, Seq};
use std::alloc::Global;
use std::sync::Arc;

/// The boards of the inputs of a function that began, in their order, with what helps its agents to find their messages
/// beside them. Nothing else changes.
pub(crate) fn input_boards(
    alloc: Global,
    round: &Round<'_>,
    progress: &mut Progress,
    function: u32,
) -> Result<Seq<Arc<Frozen>>, NoMemory>
    requires fed { IsFed round.now.program.now.model progress.old function }
    requires began { is_waiting (status_of (core_of progress.old) function) ≡ false }
    ensures read { IfOk result (λ boards. map shared_messages boards
        ≡ boards_named (place_of round.now.program.now function) round.now.program.now.model
        (map board_bag progress.old.field.boards.items)) }
    ensures wide { IfOk result (λ boards. (place : Place)
        → slice_get (functions round.now.program.now.model) function ≡ Some place
        → FitMessages round.now.program.now.model (map board_bag progress.old.field.boards.items)
        → AreBoardsFor round.now.program.now.model place.function.inputs (map shared_messages boards)) }
    ensures kept { (counts : Kept) → Tallies round.now.program.now.model progress.old counts
        → Came round.now.program.now.model (core_of progress.old) progress.new counts }
    ensures pools { progress.new.field.pools ≡ progress.old.field.pools }
{
    let route = route_of(round, function);
    let inputs = route.inputs.items();
    Ok(Seq::of(share(alloc, &mut progress.field.boards, inputs, round.wants)?))
}
