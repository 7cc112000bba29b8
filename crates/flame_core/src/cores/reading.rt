//! What a core tells.

ghost use Rattle.std.specs.Prelude.{◌≡◌, ◌<◌, ◌↔◌, [], Some, None, false, IfOk, IsTrue, length, option_map, slice_get};
ghost use Rattle.std.specs.Prelude.{slice_index_or, if◌then◌else◌};
ghost use Rattle.flame_spec.specs.Columns.{width};
ghost use Rattle.flame_spec.specs.Functions.{Place, functions};
ghost use Rattle.flame_index.specs.FrozenBoards.{messages_on};
ghost use Rattle.flame_world.specs.WorldFits.{AreWide};
ghost use Rattle.flame_events.specs.CoreEnds.{is_complete, least_fault_rank};
ghost use Rattle.flame_events.specs.CoreStates.{is_frozen, status_of, works_of};
ghost use Rattle.flame_events.specs.EveryOrder.{CanGoOn};
ghost use Rattle.flame_core.specs.CoreCalls.{allows, BeganWith, CanAbsorb, IsPieceOf};
ghost use Rattle.flame_core.specs.SeenCores.{IsReached};

use crate::absorbing::can_absorb;
use crate::cores::Core;
use crate::starting::Start;
use flame_events::Event;
use flame_events::laws::every_order;
use flame_index::Frozen;
use flame_program::Program;
use flame_round::Round;
use flame_rows::NoMemory;
use flame_world::{Piece, Share, World};

impl<'a> Core<'a> {
    /// Whether the event is legal. One that names no function, piece or message of this core is not.
    pub fn allows(&self, event: Event) -> bool
        ensures { result ≡ allows self.now event }
    {
        flame_progress::allows(&self.progress, &self.counts, event)
    }

    /// How many pieces the function of this number has, where it is open, else 0.
    pub fn pieces(&self, function: u32) -> u32
        ensures { result ≡ length (works_of (status_of self.now.core function)) }
    {
        // No function has more pieces than this.
        let _most = self.pieces;
        self.progress.pieces(function) as u32
    }

    /// A copy of this piece of a function, whose agents are as wide as the model declares.
    pub fn piece(&self, function: u32, piece: u32) -> Result<Piece, NoMemory>
        requires { piece < length (works_of (status_of self.now.core function)) }
        ensures is { IfOk result (IsPieceOf self.now function piece) }
        ensures wide { IfOk result (λ piece. (place : Place)
            → slice_get (functions self.now.source.model) function ≡ Some place
            → AreWide (width place.type.memory) piece.agents) }
    {
        match self.progress.work(function, piece) {
            Some(work) => Ok(Piece {
                function,
                number: piece,
                agents: work.agents.copy()?,
            }),
            None => unreachable!(),
        }
    }

    /// The board of this message, where it is frozen; none where it gathers, or is not there.
    pub fn frozen(&self, message: u32) -> Option<&Frozen>
        ensures { option_map (λ board. messages_on board.now) result ≡ (if is_frozen self.now.core message
            then Some (slice_index_or self.now.core.field.boards message []) else None) }
    {
        self.progress.frozen(message)
    }

    /// The program. Events, each legal when it came, led from the beginning to the core.
    pub fn program(&self) -> &'a Program
        ensures source { result.now ≡ self.now.source }
        ensures reached { IsReached self.now }
    {
        self.program
    }

    /// The least rank of a function that is faulted.
    pub fn least_fault(&self) -> Option<u32>
        ensures { result ≡ least_fault_rank self.now.source.model self.now.core }
    {
        self.ranks.fault
    }

    /// Whether it began so: with an equal program, an equal world, this iteration, this fuel and this many pieces.
    pub fn starts_from(
        &self,
        program: &Program,
        world: &World,
        iteration: i32,
        fuel: u32,
        pieces: u32,
    ) -> bool
        ensures { IsTrue result ↔ BeganWith self.now program.now world.now iteration fuel pieces }
    {
        let own = Start {
            program: self.program,
            world: &self.world,
            iteration: self.iteration,
            fuel: self.fuel,
            pieces: self.pieces,
        };
        let other = Start {
            program,
            world,
            iteration,
            fuel,
            pieces,
        };
        own.same(&other)
    }

    /// Whether the share can be absorbed: its piece is a piece of an open function, with the same agents, of which none
    /// ran, and its setting is that of the core and the function.
    pub fn can_absorb(&self, share: &Share<'_>) -> bool
        ensures { IsTrue result ↔ CanAbsorb self.now share.now }
    {
        let round = Round {
            program: self.program,
            constants: &self.world.constants,
            iteration: self.iteration,
            fuel: self.fuel,
            wants: self.wants.as_slice(),
        };
        can_absorb(&round, &self.progress, share)
    }

    /// Whether all functions are shut that are wanted: those of a rank below the least of a function that is faulted,
    /// and all where none is. Where some are not, there is a legal event of a wanted function, or one that freezes a
    /// board that one inputs.
    pub fn complete(&self) -> bool
        ensures complete { result ≡ is_complete self.now.source.model self.now.core }
        ensures goes_on { result ≡ false → CanGoOn self.now.source.model self.now.core }
    {
        every_order();
        let _source = self.program.source();
        self.ranks.is_complete(self.program)
    }
}
