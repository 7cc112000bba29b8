//! How a core begins, and how it goes on.

ghost use Rattle.std.specs.Prelude.{◌≡◌, ◌≤◌, Some, IfOk, IfErr, OnOk, OnErr, length, map, slice_get};
ghost use Rattle.flame_spec.specs.Functions.{Place, functions};
ghost use Rattle.flame_meaning.specs.Outcomes.{place_of};
ghost use Rattle.flame_index.specs.FrozenBoards.{shared_messages};
ghost use Rattle.flame_agent.specs.FunctionFits.{AreBoardsFor};
ghost use Rattle.flame_world.specs.InputBoards.{boards_named};
ghost use Rattle.flame_world.specs.WorldFits.{FitsModel};
ghost use Rattle.flame_events.specs.CoreStates.{opening_core, status_of, works_of};
ghost use Rattle.flame_core.specs.CoreCalls.{Absorbed, CanAbsorb, Happened, NotAbsorbed, Refused};
ghost use Rattle.flame_core.specs.SeenCores.{IsNew};

use crate::absorbing::absorb;
use crate::cores::Core;
use crate::faults::StepFault;
use crate::happening::happen;
use crate::inputs::input_boards;
use crate::ranks::Ranks;
use crate::starting::{begun, counted};
use flame_events::Event;
use flame_index::Frozen;
use flame_program::Program;
use flame_round::{Round, wants_of};
use flame_rows::{Copied, NoMemory, Seq};
use flame_world::{Share, World};
use std::alloc::Global;
use std::sync::Arc;

impl<'a> Core<'a> {
    /// The core with which the iteration of this number begins in this world, which fits the model, with this fuel for
    /// each call of a function: functions wait, boards gather. The agents of a function are cut into this many pieces
    /// at most, which is one at least. `NoMemory` comes where none is found, and where 32 bits cannot number the parts
    /// of the model.
    pub fn new(
        alloc: Global,
        program: &'a Program,
        world: World,
        iteration: i32,
        fuel: u32,
        pieces: u32,
    ) -> Result<Core<'a>, NoMemory>
        requires fits { FitsModel program.now.model world }
        requires some { 1 ≤ pieces }
        ensures new { IfOk result IsNew }
        ensures core { IfOk result (λ core. core ≡ record {
          source = program.now;
          world = world;
          iteration = iteration;
          fuel = fuel;
          pieces = pieces;
          core = opening_core program.now.model world.agents;
        }) }
    {
        if !program.source().model.is_counted() {
            return Err(NoMemory);
        }
        let agents = world.agents.copy(alloc)?;
        let progress = begun(alloc, program, agents)?;
        let counts = counted(alloc, program)?;
        // Each agent makes all of its views.
        let wants = wants_of(alloc, program, world.agents.items(), false);
        Ok(Core {
            program,
            world,
            iteration,
            fuel,
            pieces,
            progress,
            counts,
            ranks: Ranks::none(),
            wants,
        })
    }

    /// The event comes. `Illegal` exactly where it is not legal; nothing changes then, nor where no memory was found.
    /// Shut and Freeze take none.
    pub fn step(&mut self, event: Event) -> Result<(), StepFault>
        ensures ok { OnOk result (Happened event self.old self.new) }
        ensures err { IfErr result (Refused event self.old self.new) }
    {
        if !self.allows(event) {
            return Err(StepFault::Illegal);
        }
        let alloc = *self.progress.field.born.allocator();
        let round = Round {
            program: self.program,
            constants: &self.world.constants,
            iteration: self.iteration,
            fuel: self.fuel,
            wants: self.wants.as_slice(),
        };
        happen(
            alloc,
            &round,
            self.pieces,
            &mut self.progress,
            &mut self.counts,
            event,
        )?;
        self.ranks.follow(self.program, &self.progress, event);
        Ok(())
    }

    /// The piece of the share ran: its Agent events, which are legal one after another, come. `Illegal` exactly where
    /// the share's piece is no piece of an open function, has other agents or an agent that ran, or where the share's
    /// setting is not that of the core and the function; nothing changes then, nor where no memory was found. The share is
    /// given up in each case.
    pub fn absorb(&mut self, share: Share<'_>) -> Result<(), StepFault>
        ensures ok { OnOk result (Absorbed share.entry self.old self.new) }
        ensures err { IfErr result (NotAbsorbed share.entry self.old self.new) }
    {
        if !self.can_absorb(&share) {
            return Err(StepFault::Illegal);
        }
        self.take_in(share)?;
        Ok(())
    }

    /// The same of a share of which it is known that it can be absorbed: nothing is compared. Nothing changes where no
    /// memory was found; the share is given up then too.
    pub fn take_in(&mut self, share: Share<'_>) -> Result<(), NoMemory>
        requires { CanAbsorb self.old share }
        ensures ok { OnOk result (Absorbed share.entry self.old self.new) }
        ensures err { OnErr result (self.new ≡ self.old) }
    {
        let alloc = *self.progress.field.born.allocator();
        let round = Round {
            program: self.program,
            constants: &self.world.constants,
            iteration: self.iteration,
            fuel: self.fuel,
            wants: self.wants.as_slice(),
        };
        absorb(alloc, &round, &mut self.progress, share)?;
        Ok(())
    }

    /// The boards of the inputs of this function, which has a piece, in their order, for who runs the piece elsewhere.
    /// They are shared and not copied, as wide as the model declares, and the core stays as it is.
    pub fn boards(&mut self, function: u32) -> Result<Seq<Arc<Frozen>>, NoMemory>
        requires { 1 ≤ length (works_of (status_of self.old.core function)) }
        ensures read { IfOk result (λ boards. map shared_messages boards
            ≡ boards_named (place_of self.old.source function) self.old.source.model self.old.core.field.boards) }
        ensures wide { IfOk result (λ boards. (place : Place)
            → slice_get (functions self.old.source.model) function ≡ Some place
            → AreBoardsFor self.old.source.model place.function.inputs (map shared_messages boards)) }
        ensures kept { self.new ≡ self.old }
    {
        let alloc = *self.progress.field.born.allocator();
        let round = Round {
            program: self.program,
            constants: &self.world.constants,
            iteration: self.iteration,
            fuel: self.fuel,
            wants: self.wants.as_slice(),
        };
        input_boards(alloc, &round, &mut self.progress, function)
    }
}
