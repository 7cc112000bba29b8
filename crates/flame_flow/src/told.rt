//! Cores with their histories.

ghost use Rattle.std.specs.Prelude.{◌≡◌, ◌<◌, ◌↔◌, [], ◌∷◌, IfOk, OnOk, OnErr, IsTrue, true, false, length, map, slice_get};
ghost use Rattle.flame_spec.specs.Columns.{width};
ghost use Rattle.flame_spec.specs.Functions.{Place, functions};
ghost use Rattle.flame_meaning.specs.Outcomes.{place_of};
ghost use Rattle.flame_index.specs.FrozenBoards.{shared_messages};
ghost use Rattle.flame_world.specs.InputBoards.{boards_named};
ghost use Rattle.flame_world.specs.Iterations.{iteration as meant};
ghost use Rattle.flame_world.specs.WorldFits.{AreWide};
ghost use Rattle.flame_agent.specs.FunctionFits.{AreBoardsFor};
ghost use Rattle.flame_events.specs.CoreEnds.{is_complete, least_fault_rank};
ghost use Rattle.flame_events.specs.CoreStates.{status_of, works_of};
ghost use Rattle.flame_events.specs.EventSteps.{are_legal};
ghost use Rattle.flame_events.specs.HandedPieces.{hand_in_events};
ghost use Rattle.flame_core.specs.CoreCalls.{allows, BeganWith, CanAbsorb, IsPieceOf};
ghost use Rattle.flame_core.specs.SeenCores.{IsNew, round_in};
ghost use Rattle.flame_flow.specs.ToldCores.{told_on, HasGrown, IsTold, Ran};

use crate::histories::unfolded;
use flame_core::Core;
use flame_events::Event;
use flame_index::Frozen;
use flame_program::Program;
use flame_rows::{NoMemory, Seq};
use flame_world::{Piece, Share, Turn, World};
use std::alloc::Global;
use std::marker::Model;
use std::sync::Arc;

/// An event that came so many times in a row: a piece's agents are one entry, however many they are.
#[derive(Clone, Copy, Debug)]
pub(crate) struct Came {
    /// The event.
    pub event: Event,
    /// How often it came.
    pub times: usize,
}

/// A core, and the events that led to it.
#[derive(Drop)]
pub(crate) struct Told<'a> {
    core: Core<'a>,
    history: Vec<Came>,
}

impl<'a> Model for Told<'a> {
    ghost use Rattle.std.specs.Coded.{codes};
    ghost use Rattle.flame_spec.specs.contracts.outcomes.Source as e;
    ghost use Rattle.flame_events.specs.contracts.events.Event as v;
    ghost use Rattle.flame_flow.specs.ToldCores.{ToldCore};

    ghost Value = { ToldCore };

    ghost coded = { Prim.hlevel (codes, e.the_row.coded, v.the_row.coded) };

    ghost use Rattle.flame_flow.specs.ToldCores.{history_of, IsTold};

    ghost view = { λ t. record { seen = t.core; history = history_of t.history.items } };

    ghost invariant = { λ t. IsTold (record { seen = t.core; history = history_of t.history.items }) };
}

impl<'a> Told<'a> {
    /// A core that is new: no event came.
    pub(crate) fn new(alloc: Global, core: Core<'a>) -> Told<'a>
        requires { IsNew core }
        ensures { result ≡ record { seen = core.entry; history = [] } }
    {
        let _program = core.program();
        Told {
            core,
            history: Vec::new(alloc),
        }
    }

    /// The program. Events, each legal when it came, led to the core.
    pub(crate) fn program(&self) -> &'a Program
        ensures source { result.now ≡ self.now.seen.source }
        ensures told { IsTold self.now }
    {
        let _history = self.history.len();
        self.core.program()
    }

    /// Whether the event is legal.
    pub(crate) fn allows(&self, event: Event) -> bool
        ensures { result ≡ allows self.now.seen event }
    {
        self.core.allows(event)
    }

    /// How many pieces the function has while it is open, else 0.
    pub(crate) fn pieces(&self, function: u32) -> u32
        ensures { result ≡ length (works_of (status_of self.now.seen.core function)) }
    {
        self.core.pieces(function)
    }

    /// A copy of this piece of a function.
    pub(crate) fn piece(&self, function: u32, piece: u32) -> Result<Piece, NoMemory>
        requires { piece < length (works_of (status_of self.now.seen.core function)) }
        ensures is { IfOk result (IsPieceOf self.now.seen function piece) }
        ensures wide { IfOk result (λ piece. (place : Place)
            → slice_get (functions self.now.seen.source.model) function ≡ Some place
            → AreWide (width place.type.memory) piece.agents) }
    {
        self.core.piece(function, piece)
    }

    /// The boards of the inputs of this function, which has a piece.
    pub(crate) fn boards(&mut self, function: u32) -> Result<Seq<Arc<Frozen>>, NoMemory>
        requires { 0 < length (works_of (status_of self.old.seen.core function)) }
        ensures read { IfOk result (λ boards. map shared_messages boards
            ≡ boards_named (place_of self.old.seen.source function) self.old.seen.source.model self.old.seen.core.field.boards) }
        ensures wide { IfOk result (λ boards. (place : Place)
            → slice_get (functions self.old.seen.source.model) function ≡ Some place
            → AreBoardsFor self.old.seen.source.model place.function.inputs (map shared_messages boards)) }
        ensures kept { self.new ≡ self.old }
    {
        self.core.boards(function)
    }

    /// The least rank of a function that is faulted.
    pub(crate) fn least_fault(&self) -> Option<u32>
        ensures { result ≡ least_fault_rank self.now.seen.source.model self.now.seen.core }
    {
        self.core.least_fault()
    }

    /// Whether all wanted functions are shut.
    pub(crate) fn is_complete(&self) -> bool
        ensures { result ≡ is_complete self.now.seen.source.model self.now.seen.core }
    {
        self.core.complete()
    }

    /// Whether the share can be absorbed.
    pub(crate) fn can_absorb(&self, share: &Share<'_>) -> bool
        ensures { IsTrue result ↔ CanAbsorb self.now.seen share.now }
    {
        self.core.can_absorb(share)
    }

    /// Whether it began so.
    pub(crate) fn starts_from(
        &self,
        program: &Program,
        world: &World,
        iteration: i32,
        fuel: u32,
        pieces: u32,
    ) -> bool
        ensures { IsTrue result ↔ BeganWith self.now.seen program.now world.now iteration fuel pieces }
    {
        self.core
            .starts_from(program, world, iteration, fuel, pieces)
    }

    /// All events that came, the first one first.
    pub(crate) fn events(&self, alloc: Global) -> Result<Vec<Event>, NoMemory>
        ensures { IfOk result (λ events. events.items ≡ self.now.history) }
    {
        unfolded(alloc, self.history.as_slice())
    }

    /// The event comes, which is legal. Nothing changes where memory is not found.
    pub(crate) fn step(&mut self, event: Event) -> Result<(), NoMemory>
        requires { IsTrue (allows self.old.seen event) }
        ensures ok { OnOk result (self.new ≡ told_on (event ∷ []) self.old) }
        ensures err { OnErr result (self.new ≡ self.old) }
    {
        self.history.reserve(1)?;
        match self.core.step(event) {
            Ok(()) => {}
            Err(_) => return Err(NoMemory),
        }
        self.history.push_reserved(Came { event, times: 1 });
        Ok(())
    }

    /// The agents of the share's piece ran, which can be absorbed. Nothing changes where memory is not found.
    pub(crate) fn take_in(&mut self, share: Share<'_>) -> Result<(), NoMemory>
        requires { CanAbsorb self.old.seen share }
        ensures ok { OnOk result (Ran share.entry self.old self.new) }
        ensures err { OnErr result (self.new ≡ self.old) }
    {
        let piece = share.piece();
        let came = Came {
            event: Event::Agent(piece.function, piece.number),
            times: piece.agents.rows().len(),
        };
        self.history.reserve(1)?;
        self.core.take_in(share)?;
        self.history.push_reserved(came);
        Ok(())
    }

    /// The piece hands in its messages for these outputs, which is legal one after another.
    pub(crate) fn hand_in(
        &mut self,
        function: u32,
        piece: u32,
        outputs: &[u32],
    ) -> Result<(), NoMemory>
        requires { IsTrue (are_legal (round_in self.old.seen) self.old.seen.pieces self.old.seen.core
            (hand_in_events outputs.now function piece)) }
        ensures ok { OnOk result (self.new ≡ told_on (hand_in_events outputs.now function piece) self.old) }
        ensures on { HasGrown self.old self.new }
    {
        for message in outputs {
            self.step(Event::HandIn(function, piece, *message))?;
        }
        Ok(())
    }

    /// The turn of the iteration, which is complete.
    pub(crate) fn finish(self) -> Result<Turn, NoMemory>
        requires { is_complete self.seen.source.model self.seen.core ≡ true }
        ensures { IfOk result (λ turn. turn ≡ meant self.entry.seen.source self.entry.seen.world self.entry.seen.iteration
            self.entry.seen.fuel) }
    {
        let Told { core, .. } = self;
        core.finish()
    }
}
