//! What a flow tells, and what it comes to.

ghost use Rattle.std.specs.Prelude.{◌≡◌, ◌↔◌, IfOk, IsTrue, false, option_map, Option, Some, None};
ghost use Rattle.flame_world.specs.Iterations.{iteration as meant};
ghost use Rattle.flame_events.specs.Histories.{Leads};
ghost use Rattle.flame_core.specs.CoreCalls.{BeganWith};
ghost use Rattle.flame_core.specs.SeenCores.{round_in, start_in};
ghost use Rattle.flame_flow.specs.FlowCalls.{IsKept, IsReady};
ghost use Rattle.flame_flow.specs.FlowStates.{next_piece, is_rank_below};
ghost use Rattle.flame_flow.specs.declared.jobs.Ready.TheVariants.{Done};

use crate::flows::Flow;
use crate::jobs::Ready;
use crate::numbers::number_at;
use flame_events::Event;
use flame_program::Program;
use flame_rows::{NoMemory, Seq};
use flame_world::{Turn, World};
use std::alloc::Global;

/// Whether the rank is below the least of a function that is faulted, if there is one.
fn is_below(least: Option<u32>, rank: u32) -> bool
    ensures { result ≡ is_rank_below least rank }
{
    match least {
        Some(least) => rank < least,
        None => true,
    }
}

impl<'a> Flow<'a> {
    /// What a worker may do. `Short` exactly where an earlier `begin`, `settle` or `take_in` answered `NoMemory`, or it was
    /// cut short; else `Done` exactly where the core is complete; else `Work` with the first piece by rank and number that
    /// was not begun, of an open function below the least faulted rank; else `Idle`: there is none, and one was begun and is
    /// not settled. It takes no memory, and goes over no functions.
    pub fn ready(&self) -> Ready
        ensures ready { IsReady self.now result }
        ensures kept { IsKept self.now }
    {
        if self.is_short() {
            return Ready::Short;
        }
        if self.going.told.is_complete() {
            return Ready::Done;
        }
        match self.next() {
            Some((function, piece)) => Ready::Work(function, piece),
            None => Ready::Idle,
        }
    }

    /// Whether it is short.
    fn is_short(&self) -> bool
        ensures is { result ≡ self.now.short }
        ensures kept { IsKept self.now }
    {
        let _program = self.going.told.program();
        self.short
    }

    /// The first piece by rank and number of a wanted function that was not begun, where the flow is not short.
    fn next(&self) -> Option<(u32, u32)>
        ensures { self.now.short ≡ false → result ≡ next_piece self.now.seen.source.model self.now.begun self.now.seen.core }
    {
        let program = self.going.told.program();
        let least = self.going.told.least_fault();
        match self.going.due.first() {
            None => None,
            Some(rank) => {
                if !is_below(least, rank) {
                    return None;
                }
                let order = program.plan().order.items();
                let function = number_at(order, rank);
                let begun = self.begun.as_slice();
                let piece = number_at(begun, function);
                Some((function, piece))
            }
        }
    }

    /// Whether its core began so: with an equal program, an equal world, this iteration, this fuel and this many pieces.
    pub fn starts_from(
        &self,
        program: &Program,
        world: &World,
        iteration: i32,
        fuel: u32,
        pieces: u32,
    ) -> bool
        ensures { IsTrue result ↔ BeganWith self.now.seen program.now world.now iteration fuel pieces }
    {
        self.going
            .told
            .starts_from(program, world, iteration, fuel, pieces)
    }

    /// All events that came, the first one first: they led, each legal when it came, from the beginning to its core. The
    /// list is as long as they are many.
    pub fn history(&self, alloc: Global) -> Result<Seq<Event>, NoMemory>
        ensures is { IfOk result (λ events. events ≡ self.now.history) }
        ensures leads { IfOk result (λ events. Leads (round_in self.now.seen) self.now.seen.pieces (start_in self.now.seen)
            events self.now.seen.core) }
    {
        let _program = self.going.told.program();
        let events = self.going.told.events(alloc)?;
        Ok(Seq::of(events))
    }

    /// The turn of the iteration: the world and the boards at its end, or its fault. The flow is one of which `ready` says
    /// that it is done. `NoMemory` where memory is not found.
    pub fn finish(self) -> Result<Turn, NoMemory>
        requires { IsReady self Done }
        ensures { IfOk result (λ turn. turn ≡ meant self.entry.seen.source self.entry.seen.world self.entry.seen.iteration
            self.entry.seen.fuel) }
    {
        let Flow { going, .. } = self;
        going.told.finish()
    }
}
