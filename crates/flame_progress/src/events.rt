//! Events that run nothing.

ghost use Rattle.std.specs.Prelude.{◌≡◌, ◌<◌, ℕ, true, false, OnOk, OnErr, IsTrue, length};
ghost use Rattle.flame_world.specs.Iterations.{Round};
ghost use Rattle.flame_events.specs.declared.events.Event.TheVariants as event;
ghost use Rattle.flame_events.specs.CoreStates.{is_frozen, status_of, works_of};
ghost use Rattle.flame_events.specs.EventSteps.{after};
ghost use Rattle.flame_events.specs.LegalEvents.{is_legal};
ghost use Rattle.flame_pieces.specs.Waiting.{thing_at};
ghost use Rattle.flame_progress.specs.declared.counts.Counts.{Counts as Kept};
ghost use Rattle.flame_progress.specs.KeptCores.{core_of, kept_at};
ghost use Rattle.flame_progress.specs.KeptWorkEvents.{OutputsOnce};
ghost use Rattle.flame_progress.specs.Tallying.{Came, Tallies};

use crate::counts::Counts;
use crate::progress::Progress;
use flame_pieces::Waits;
use flame_rows::NoMemory;
use std::alloc::Global;

/// The function of this number is done.
pub fn shut(progress: &mut Progress, counts: &mut Counts, function: u32)
    requires known { function < length progress.old.statuses.items }
    requires functions { (thing_at counts.old.functions.things function).done ≡ false }
    requires outputs { (thing_at counts.old.outputs.things function).done ≡ false }
    ensures came { (round : Round) (pieces : ℕ)
        → Tallies round.source.model progress.old counts.old
        → IsTrue (is_legal round.source.model (core_of progress.old) (event.Shut function))
        → Came round.source.model (after round pieces (core_of progress.old) (event.Shut function)) progress.new counts.new }
    ensures pools { progress.new.field.pools ≡ progress.old.field.pools }
{
    progress.shut(function);
    if progress.is_shut(function) {
        counts.shut(function);
    }
}

/// The board of this number is complete.
pub fn freeze(progress: &mut Progress, counts: &mut Counts, message: u32)
    requires known { message < length progress.old.field.boards.items }
    requires inputs { (thing_at counts.old.inputs.things message).done ≡ false }
    ensures came { (round : Round) (pieces : ℕ)
        → Tallies round.source.model progress.old counts.old
        → IsTrue (is_legal round.source.model (core_of progress.old) (event.Freeze message))
        → Came round.source.model (after round pieces (core_of progress.old) (event.Freeze message)) progress.new counts.new }
    ensures pools { progress.new.field.pools ≡ progress.old.field.pools }
{
    progress.freeze(message);
    counts.freeze(message);
}

/// A piece of a function hands in its messages of this type, whose board gathers and waits for these functions that output
/// them.
pub fn hand_in(
    alloc: Global,
    progress: &mut Progress,
    outputs: &Waits,
    function: u32,
    piece: u32,
    message: u32,
) -> Result<(), NoMemory>
    requires known { function < length progress.old.statuses.items }
    requires there { piece < length (works_of (status_of (core_of progress.old) function)) }
    requires board { message < length progress.old.field.boards.items }
    requires gathers { is_frozen (core_of progress.old) message ≡ false }
    requires once { OutputsOnce (kept_at progress.old function) }
    ensures ok { OnOk result ((round : Round) (pieces : ℕ) (counts : Kept)
        → Tallies round.source.model progress.old counts
        → IsTrue (is_legal round.source.model (core_of progress.old) (event.HandIn function piece message))
        → Came round.source.model (after round pieces (core_of progress.old) (event.HandIn function piece message))
        progress.new counts) }
    ensures err { OnErr result ((round : Round) (counts : Kept)
        → Tallies round.source.model progress.old counts
        → Came round.source.model (core_of progress.old) progress.new counts) }
    ensures pools { progress.new.field.pools ≡ progress.old.field.pools }
{
    let is_last = outputs.is_nearly_free(message);
    progress.hand_in(alloc, function, piece, message, is_last)?;
    Ok(())
}
