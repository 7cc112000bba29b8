//! What events make of an iteration.

ghost use Rattle.std.specs.Prelude.{◌≡◌, ◌∷◌, [], ℤ, List, true, IfOk, OnOk, OnErr, IsTrue, map};
ghost use Rattle.flame_meaning.specs.Outcomes.{outcome, place_of};
ghost use Rattle.flame_index.specs.FrozenBoards.{shared_messages};
ghost use Rattle.flame_world.specs.InputBoards.{boards_named};
ghost use Rattle.flame_leaving.specs.Leavings.{AreLeft};
ghost use Rattle.flame_events.specs.declared.events.Event.TheVariants as kind;
ghost use Rattle.flame_events.specs.EventSteps.{after};
ghost use Rattle.flame_events.specs.LegalEvents.{is_legal};
ghost use Rattle.flame_progress.specs.KeptCores.{core_of};
ghost use Rattle.flame_progress.specs.Tallying.{Came};
ghost use Rattle.flame_core.specs.KeptReady.{AreDealtIn, Ready};
ghost use Rattle.flame_core.specs.KeptShares.{ArePartsOf};
ghost use Rattle.flame_spec.specs.Below.{HasNoTwice};
ghost use Rattle.flame_round.specs.KeptRounds.{FitsRun, round_of};
ghost use Rattle.flame_core.specs.NextAgents.{HasNext, IsNext};
ghost use Rattle.flame_core.specs.CoreCalls.{takes_memory};

use crate::inputs::input_boards;
use flame_events::Event;
use flame_index::Frozen;
use flame_leaving::Leaving;
use flame_pieces::parted;
use flame_progress::{Counts, PartedLeaving, PieceRooms, Progress, freeze, hand_in, shut};
use flame_round::{Round, choose, count_takers, leave, route_of, run_over};
use flame_rows::{NoMemory, Seq};
use std::alloc::Global;
use std::slice;
use std::sync::Arc;

/// The takers of the function leave their state, in pieces: first all in the state have chosen and there is room for the
/// pieces, and then the takers are moved, which takes no memory.
fn open_function(
    alloc: Global,
    round: &Round<'_>,
    pieces: u32,
    progress: &mut Progress,
    counts: &Counts,
    function: u32,
) -> Result<(), NoMemory>
    requires ready { Ready round.now pieces progress.old counts.now }
    requires legal { IsTrue (is_legal round.now.program.now.model (core_of progress.old) (kind.Open function)) }
    ensures ok { OnOk result (Came round.now.program.now.model
        (after (round_of round.now) pieces (core_of progress.old) (kind.Open function)) progress.new counts.now) }
    ensures err { OnErr result (Came round.now.program.now.model (core_of progress.old) progress.new counts.now) }
    ensures dealt { AreDealtIn round.now progress.new }
{
    let route = route_of(round, function);
    choose(alloc, round, function, route, &mut progress.field.pools)?;
    let takers = count_takers(route, progress.field.pools.as_slice());
    let opening = PieceRooms::new(alloc, route.outputs.items(), takers, pieces)?;
    let takers = leave(alloc, route, &mut progress.field.pools);
    progress.start(function, opening.fill(takers));
    Ok(())
}

/// The next agent of the piece runs: what it leaves.
fn next_leaving(
    alloc: Global,
    round: &Round<'_>,
    progress: &Progress,
    function: u32,
    piece: u32,
    boards: &Seq<Arc<Frozen>>,
) -> Result<Leaving, NoMemory>
    requires fits { (memory : List ℤ) → IsNext (core_of progress.now) function piece memory
        → FitsRun round.now.program.now.model function round.now.constants.now (map shared_messages boards.now)
        (memory ∷ []) }
    requires there { HasNext (core_of progress.now) function piece }
    ensures { IfOk result (λ leaving. (all : List (List (List ℤ))) (memory : List ℤ)
        → IsNext (core_of progress.now) function piece memory
        → map shared_messages boards.now
        ≡ boards_named (place_of round.now.program.now function) round.now.program.now.model all
        → AreLeft round.now.iteration function (λ own. outcome round.now.program.now function own all
        round.now.constants.now round.now.iteration round.now.fuel) (memory ∷ []) leaving) }
{
    let Some(work) = progress.work(function, piece) else {
        unreachable!()
    };
    let Some(memory) = work.next() else {
        unreachable!()
    };
    run_over(alloc, round, function, slice::from_ref(memory), boards)
}

/// The same, its messages parted by these outputs of its function, of which none stands twice.
fn by_outputs(alloc: Global, outputs: &[u32], leaving: Leaving) -> Result<PartedLeaving, NoMemory>
    requires { HasNoTwice outputs.now }
    ensures { IfOk result (ArePartsOf outputs.now leaving) }
{
    let Leaving {
        ran,
        survivors,
        sent,
        born,
        fault,
    } = leaving;
    let parts = parted(alloc, outputs, sent)?;
    Ok(PartedLeaving {
        ran,
        survivors,
        parts,
        born,
        fault,
    })
}

/// The next agent of the piece runs.
fn run_next(
    alloc: Global,
    round: &Round<'_>,
    pieces: u32,
    progress: &mut Progress,
    counts: &Counts,
    function: u32,
    piece: u32,
) -> Result<(), NoMemory>
    requires ready { Ready round.now pieces progress.old counts.now }
    requires legal { IsTrue (is_legal round.now.program.now.model (core_of progress.old) (kind.Agent function piece)) }
    ensures ok { OnOk result (Came round.now.program.now.model
        (after (round_of round.now) pieces (core_of progress.old) (kind.Agent function piece))
        progress.new counts.now) }
    ensures err { OnErr result (Came round.now.program.now.model (core_of progress.old) progress.new counts.now) }
    ensures dealt { AreDealtIn round.now progress.new }
{
    let route = route_of(round, function);
    let boards = input_boards(alloc, round, progress, function)?;
    let leaving = next_leaving(alloc, round, progress, function, piece, &boards)?;
    let left = by_outputs(alloc, route.outputs.items(), leaving)?;
    progress.settle(alloc, function, piece, route.agent, route.to, left)?;
    Ok(())
}

/// The event, which is legal, comes. Only one that takes memory may find none.
pub(crate) fn happen(
    alloc: Global,
    round: &Round<'_>,
    pieces: u32,
    progress: &mut Progress,
    counts: &mut Counts,
    event: Event,
) -> Result<(), NoMemory>
    requires ready { Ready round.now pieces progress.old counts.old }
    requires legal { IsTrue (is_legal round.now.program.now.model (core_of progress.old) event) }
    ensures ok { OnOk result (Came round.now.program.now.model
        (after (round_of round.now) pieces (core_of progress.old) event) progress.new counts.new) }
    ensures err { OnErr result (Came round.now.program.now.model (core_of progress.old) progress.new counts.new) }
    ensures takes { OnErr result (takes_memory event ≡ true) }
    ensures dealt { AreDealtIn round.now progress.new }
{
    match event {
        Event::Open(function) => {
            open_function(alloc, round, pieces, progress, counts, function)?;
            Ok(())
        }
        Event::Agent(function, piece) => {
            run_next(alloc, round, pieces, progress, counts, function, piece)?;
            Ok(())
        }
        Event::HandIn(function, piece, message) => {
            hand_in(alloc, progress, &counts.outputs, function, piece, message)?;
            Ok(())
        }
        Event::Shut(function) => {
            shut(progress, counts, function);
            Ok(())
        }
        Event::Freeze(message) => {
            freeze(progress, counts, message);
            Ok(())
        }
    }
}
