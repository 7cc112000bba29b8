//! How a core goes on by all events of functions and boards that are legal, found from what changed.

ghost use Rattle.std.specs.Prelude.{◌≡◌, ℕ, ◌<◌, ◌<◌, [], ◌∷◌, List, IfOk, OnOk, IfErr, OnErr, IsTrue, true, false, length, map, slice_index, slice_index_or};
ghost use Rattle.flame_spec.specs.Accepted.{IsAccepted};
ghost use Rattle.flame_spec.specs.ModelOrder.{model_order};
ghost use Rattle.flame_world.specs.Shares.{piece_of};
ghost use Rattle.flame_events.specs.EventBounds.{is_of_piece};
ghost use Rattle.flame_core.specs.CoreCalls.{CanAbsorb};
ghost use Rattle.flame_core.specs.SeenCores.{round_in, start_in};
ghost use Rattle.flame_flow.specs.Goings.{with_legal, with_frozen, with_pieces, with_one_opened, with_opened, with_behind, with_shut, GoesOn};
ghost use Rattle.flame_flow.specs.KeptGoings.{going_of};
ghost use Rattle.flame_flow.specs.KeptWays.{IsWaysOf};
ghost use Rattle.flame_flow.specs.QuietCores.{IsQuiet, ArePiecesWhole};
ghost use Rattle.flame_flow.specs.BegunPieces.{AreMarksOf};
ghost use Rattle.flame_flow.specs.ToldCores.{HasGoneOn, HasGrown, IsTold, RanWhole, SettledWhole};

use crate::numbers::{list_at, number_at, numbers_below};
use crate::ordered::Ordered;
use crate::told::Told;
use crate::ways::{Ways, outputs_at};
use flame_events::Event;
use flame_rows::NoMemory;
use flame_world::Share;
use std::alloc::Global;

/// A core with its history, and what there is to do with it.
#[derive(Drop)]
pub(crate) struct GoingOn<'a> {
    /// The core, and the events that came.
    pub told: Told<'a>,
    /// The ranks of open functions with pieces that were not begun, in order.
    pub due: Ordered,
    /// The functions that may be over.
    pub over: Vec<u32>,
}

/// The event comes, where it is legal. Nothing changes where memory is not found.
fn come(told: &mut Told<'_>, event: Event) -> Result<(), NoMemory>
    requires { is_of_piece event ≡ false }
    ensures ok { OnOk result (told.new.seen.core ≡ with_legal (round_in told.old.seen) told.old.seen.pieces event told.old.seen.core) }
    ensures on { HasGoneOn told.old told.new }
{
    if told.allows(event) {
        told.step(event)?;
    }
    Ok(())
}

/// Each of these boards is frozen that may be.
fn freeze_all(told: &mut Told<'_>, messages: &[u32]) -> Result<(), NoMemory>
    ensures ok { OnOk result (told.new.seen.core
        ≡ with_frozen (round_in told.old.seen) told.old.seen.pieces messages.now told.old.seen.core) }
    ensures on { HasGoneOn told.old told.new }
{
    for message in messages {
        come(told, Event::Freeze(*message))?;
    }
    Ok(())
}

/// The function was opened: where it has pieces they are due, else it may be over.
fn note(going: &mut GoingOn<'_>, ranks: &[u32], function: u32) -> Result<(), NoMemory>
    ensures ok { OnOk result (going_of going.new
        ≡ with_pieces ranks.now function (going_of going.old)) }
    ensures told { going.new.told ≡ going.old.told }
{
    if going.told.pieces(function) == 0 {
        going.over.push(function)?;
    } else {
        going.due.insert(number_at(ranks, function))?;
    }
    Ok(())
}

/// The function is opened, where it may be.
fn open(going: &mut GoingOn<'_>, ranks: &[u32], function: u32) -> Result<(), NoMemory>
    ensures ok { OnOk result (going_of going.new
        ≡ with_one_opened (round_in going.old.told.seen) going.old.told.seen.pieces ranks.now function (going_of going.old)) }
    ensures on { HasGoneOn going.old.told going.new.told }
{
    if !going.told.allows(Event::Open(function)) {
        return Ok(());
    }
    going.told.step(Event::Open(function))?;
    note(going, ranks, function)?;
    Ok(())
}

/// Each of these functions is opened that may be.
fn open_all(going: &mut GoingOn<'_>, ranks: &[u32], functions: &[u32]) -> Result<(), NoMemory>
    ensures ok { OnOk result (going_of going.new
        ≡ with_opened (round_in going.old.told.seen) going.old.told.seen.pieces ranks.now functions.now (going_of going.old)) }
    ensures on { HasGoneOn going.old.told going.new.told }
{
    for function in functions {
        open(going, ranks, *function)?;
    }
    Ok(())
}

/// Boards of the function's outputs are frozen, and then functions behind it opened, as far as they may be.
fn go_behind(going: &mut GoingOn<'_>, ways: &Ways, function: u32) -> Result<(), NoMemory>
    ensures ok { OnOk result (going_of going.new
        ≡ with_behind (round_in going.old.told.seen) going.old.told.seen.pieces ways.now.ranks.items
        (map (λ list. list.items) ways.now.next.items) function (going_of going.old)) }
    ensures on { HasGoneOn going.old.told going.new.told }
{
    let outputs = outputs_at(going.told.program(), function);
    freeze_all(&mut going.told, outputs)?;
    let lists = ways.next.as_slice();
    let ranks = ways.ranks.as_slice();
    let next = list_at(lists, function);
    open_all(going, ranks, next)?;
    Ok(())
}

/// The function is shut and what this allows comes, where it may be.
fn shut(going: &mut GoingOn<'_>, ways: &Ways, function: u32) -> Result<(), NoMemory>
    ensures ok { OnOk result (going_of going.new
        ≡ with_shut (round_in going.old.told.seen) going.old.told.seen.pieces ways.now.ranks.items
        (map (λ list. list.items) ways.now.next.items) function (going_of going.old)) }
    ensures on { HasGoneOn going.old.told going.new.told }
    ensures told { IsTold going.old.told }
{
    let _program = going.told.program();
    if !going.told.allows(Event::Shut(function)) {
        return Ok(());
    }
    going.told.step(Event::Shut(function))?;
    go_behind(going, ways, function)?;
    Ok(())
}

/// All functions that may be over are shut, and what this allows comes, until nothing of functions and boards is legal.
pub(crate) fn shut_all(going: &mut GoingOn<'_>, ways: &Ways) -> Result<(), NoMemory>
    requires { IsWaysOf going.old.told.seen.source.model ways.now }
    ensures over { OnOk result (going.new.over.items ≡ []) }
    ensures goes { OnOk result ((begun : List ℕ)
        → GoesOn going.old.told.seen.source.model begun [] [] (going_of going.old)
        → GoesOn going.old.told.seen.source.model begun [] [] (going_of going.new)) }
    ensures on { HasGoneOn going.old.told going.new.told }
{
    'functions: loop {
        match going.over.pop() {
            Some(function) => shut(going, ways, function)?,
            None => return Ok(()),
        }
    }
}

/// A core that is new goes on by all that is legal at once.
pub(crate) fn begin_all(alloc: Global, going: &mut GoingOn<'_>, ways: &Ways) -> Result<(), NoMemory>
    requires ways { IsWaysOf going.old.told.seen.source.model ways.now }
    requires new { going.old.told.seen.core ≡ start_in going.old.told.seen }
    requires due { going.old.due ≡ [] }
    requires over { going.old.over.items ≡ [] }
    ensures over { OnOk result (going.new.over.items ≡ []) }
    ensures goes { OnOk result ((begun : List ℕ)
        → ((function : ℕ) → slice_index begun function ≡ 0)
        → GoesOn going.old.told.seen.source.model begun [] [] (going_of going.new)) }
    ensures on { HasGoneOn going.old.told going.new.told }
{
    let program = going.told.program();
    let source = program.source();
    let count = source.model.messages.len();
    let messages = numbers_below(alloc, count)?;
    let numbers = messages.as_slice();
    let ranks = ways.ranks.as_slice();
    let order = program.plan().order.items();
    freeze_all(&mut going.told, numbers)?;
    open_all(going, ranks, order)?;
    shut_all(going, ways)?;
    Ok(())
}

/// All of the share's piece comes, which can be absorbed: its agents ran, and it hands in its messages.
fn run_whole(told: &mut Told<'_>, share: Share<'_>) -> Result<(), NoMemory>
    requires { CanAbsorb told.old.seen share }
    ensures ok { OnOk result (RanWhole share.entry told.old told.new) }
    ensures on { HasGrown told.old told.new }
{
    let program = told.program();
    let function = share.piece().function;
    let piece = share.piece().number;
    let _source = program.source();
    told.take_in(share)?;
    let outputs = outputs_at(program, function);
    told.hand_in(function, piece, outputs)?;
    Ok(())
}

/// The share's piece comes, which can be absorbed, and then all of functions and boards that is legal.
pub(crate) fn settle(going: &mut GoingOn<'_>, ways: &Ways, share: Share<'_>) -> Result<(), NoMemory>
    requires can { CanAbsorb going.old.told.seen share }
    requires ways { IsWaysOf going.old.told.seen.source.model ways.now }
    requires over { going.old.over.items ≡ [] }
    ensures over { OnOk result (going.new.over.items ≡ []) }
    ensures goes { OnOk result ((begun : List ℕ)
        → (piece_of share.entry).number < slice_index begun (piece_of share.entry).function
        → GoesOn going.old.told.seen.source.model begun [] [] (going_of going.old)
        → GoesOn going.old.told.seen.source.model begun [] [] (going_of going.new)) }
    ensures grown { HasGrown going.old.told going.new.told }
    ensures settled { OnOk result (SettledWhole share.entry going.old.told going.new.told) }
{
    let program = going.told.program();
    let source = program.source();
    let _messages = source.model.messages.len();
    let function = share.piece().function;
    run_whole(&mut going.told, share)?;
    going.over.push(function)?;
    shut_all(going, ways)?;
    Ok(())
}
