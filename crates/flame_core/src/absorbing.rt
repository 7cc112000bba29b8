//! Shares: a piece's work that was done elsewhere.

ghost use Rattle.std.specs.Prelude.{◌≡◌, ◌↔◌, ◌<◌, [], ℕ, true, false, IfOk, OnOk, OnErr, IsTrue};
ghost use Rattle.std.specs.Prelude.{length, map, slice_index_or};
ghost use Rattle.std.specs.List.{All};
ghost use Rattle.flame_index.specs.FrozenBoards.{shared_messages};
ghost use Rattle.flame_world.specs.Shares.{piece_of};
ghost use Rattle.flame_events.specs.CoreFits.{FitsCore};
ghost use Rattle.flame_events.specs.CoreStates.{Work as Meant, work_of};
ghost use Rattle.flame_events.specs.AbsorbedPieces.{agent_events};
ghost use Rattle.flame_events.specs.EventSteps.{replay};
ghost use Rattle.flame_events.specs.LegalEvents.{outputs_of};
ghost use Rattle.flame_pieces.specs.KeptWorks.{work_of as kept_work};
ghost use Rattle.flame_progress.specs.declared.counts.Counts.{Counts as Kept};
ghost use Rattle.flame_field.specs.KeptBoards.{board_bag, is_board_frozen};
ghost use Rattle.flame_progress.specs.KeptCores.{core_of, HasOutputsAt};
ghost use Rattle.flame_progress.specs.Tallying.{Came};
ghost use Rattle.flame_core.specs.KeptShares.{CanTakeIn, IsFed, IsSettingOf};
ghost use Rattle.flame_core.specs.KeptReady.{AreDealtIn, Ready};
ghost use Rattle.flame_round.specs.KeptRounds.{GoesBy, round_of};

use flame_field::Board;
use flame_index::Frozen;
use flame_pieces::Work;
use flame_progress::{PartedLeaving, Progress};
use flame_round::{Round, route_of};
use flame_route::Route;
use flame_rows::{NoMemory, Row, Same};
use flame_world::{Part, Piece, Setting, Share};
use std::alloc::Global;
use std::sync::Arc;

/// Whether these are the messages of the board, which is frozen.
fn same_board(board: &Board, read: &Arc<Frozen>) -> bool
    requires { is_board_frozen board.now ≡ true }
    ensures { IsTrue result ↔ (shared_messages read.now ≡ board_bag board.now) }
{
    match board.frozen() {
        Some(frozen) => read.bag().same(frozen.bag()),
        None => unreachable!(),
    }
}

/// Whether these are the boards of these messages, which are frozen, in this order.
fn same_boards(boards: &[Board], messages: &[u32], read: &[Arc<Frozen>]) -> bool
    requires known { All (λ message. message < length boards.now) messages.now }
    requires frozen { All (λ message. slice_index_or (map is_board_frozen boards.now) message false ≡ true)
        messages.now }
    ensures { IsTrue result ↔ (map shared_messages read.now
        ≡ map (λ message. slice_index_or (map board_bag boards.now) message []) messages.now) }
{
    if messages.len() != read.len() {
        return false;
    }
    for i in 0..messages.len() {
        if !same_board(&boards[messages[i] as usize], &read[i]) {
            return false;
        }
    }
    true
}

/// Whether the piece has these agents, and none of them ran.
fn is_untouched(work: &Work, piece: &Piece) -> bool
    ensures { IsTrue result ↔ (((kept_work work.now).ran ≡ 0) × (piece.now.agents ≡ (kept_work work.now).agents)) }
{
    work.ran == 0 && piece.agents.same(&work.agents)
}

/// Whether the setting is what the agents have before them of the function which goes by this route.
fn is_setting(
    round: &Round<'_>,
    boards: &[Board],
    function: u32,
    route: &Route,
    setting: &Setting<'_>,
) -> bool
    requires route { GoesBy round.now.program.now.model function route.now }
    requires known { All (λ message. message < length boards.now) route.now.inputs }
    requires frozen { All (λ message. slice_index_or (map is_board_frozen boards.now) message false ≡ true)
        route.now.inputs }
    ensures { IsTrue result ↔ IsSettingOf round.now (map board_bag boards.now) function setting.now }
{
    if round.iteration != setting.iteration {
        return false;
    }
    if round.fuel != setting.fuel {
        return false;
    }
    if !round.constants.same(setting.constants) {
        return false;
    }
    if !same_boards(boards, route.inputs.items(), setting.boards.items()) {
        return false;
    }
    // What costs most, and hardly ever differs.
    round.program.source().same(setting.source)
}

/// Whether the share can be absorbed.
pub(crate) fn can_absorb(round: &Round<'_>, progress: &Progress, share: &Share<'_>) -> bool
    requires { (function : ℕ) → IsFed round.now.program.now.model progress.now function }
    ensures { IsTrue result ↔ CanTakeIn round.now (core_of progress.now) share.now }
{
    let piece = share.piece();
    match progress.work(piece.function, piece.number) {
        None => false,
        Some(work) => {
            is_untouched(work, piece)
                && is_setting(
                    round,
                    &progress.field.boards,
                    piece.function,
                    route_of(round, piece.function),
                    share.setting(),
                )
        }
    }
}

/// The messages of these parts, part by part. No message is moved.
fn lists_of(alloc: Global, parts: Vec<Part>) -> Result<Vec<Vec<Row>>, NoMemory>
    ensures { IfOk result (λ lists. map (λ rows. rows.items) lists.items ≡ map (λ part. part.rows) parts.items) }
{
    let mut lists = Vec::new(alloc);
    for part in parts {
        lists.push(part.rows.into_rows())?;
    }
    Ok(lists)
}

/// The share's piece ran, which can be absorbed.
pub(crate) fn absorb(
    alloc: Global,
    round: &Round<'_>,
    progress: &mut Progress,
    share: Share<'_>,
) -> Result<(), NoMemory>
    requires can { CanTakeIn round.now (core_of progress.old) share }
    requires fits { FitsCore round.now.program.now.model (core_of progress.old) }
    requires outputs { (function : ℕ) → HasOutputsAt progress.old function (outputs_of round.now.program.now.model function) }
    ensures ok { OnOk result ((pieces : ℕ) (counts : Kept) (work : Meant)
        → Ready round.now pieces progress.old counts
        → work_of (core_of progress.old) (piece_of share.entry).function (piece_of share.entry).number ≡ Some work
        → Came round.now.program.now.model (replay (round_of round.now) pieces (core_of progress.old)
        (agent_events (piece_of share.entry).function (piece_of share.entry).number work)) progress.new counts) }
    ensures err { OnErr result ((pieces : ℕ) (counts : Kept)
        → Ready round.now pieces progress.old counts
        → Came round.now.program.now.model (core_of progress.old) progress.new counts) }
    ensures dealt { AreDealtIn round.now progress.old → AreDealtIn round.now progress.new }
{
    let function = share.piece().function;
    let piece = share.piece().number;
    let ran = share.piece().agents.rows().len();
    let route = route_of(round, function);
    let (rest, parts) = share.split();
    let parts = lists_of(alloc, parts.into_items())?;
    let left = PartedLeaving {
        ran,
        survivors: rest.survivors.into_rows(),
        parts,
        born: rest.born.into_items(),
        fault: rest.fault,
    };
    progress.settle(alloc, function, piece, route.agent, route.to, left)?;
    Ok(())
}
