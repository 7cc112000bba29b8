//! Pieces that come back.

ghost use Rattle.std.specs.Prelude.{◌≡◌, ◌↔◌, ◌<◌, OnOk, OnErr, IfErr, IsTrue, false, true, slice_index};
ghost use Rattle.flame_world.specs.Shares.{piece_of};
ghost use Rattle.flame_events.specs.declared.events.Event.TheVariants as event;
ghost use Rattle.flame_core.specs.CoreCalls.{allows};
ghost use Rattle.flame_flow.specs.FlowCalls.{BecameShort, CanSettle, IsDueShare, NotSettled, Settled};
ghost use Rattle.flame_flow.specs.SeenFlows.{start_of};

use crate::flows::Flow;
use crate::goings::settle;
use crate::numbers::number_at;
use flame_core::StepFault;
use flame_events::Event;
use flame_rows::NoMemory;
use flame_spec_laws::names_differ;
use flame_world::Share;

impl<'a> Flow<'a> {
    /// Whether the share can be settled.
    fn can_settle(&self, share: &Share<'_>) -> bool
        ensures { IsTrue result ↔ CanSettle self.now share.now }
    {
        if self.short {
            return false;
        }
        let piece = share.piece();
        let begun = self.begun.as_slice();
        let count = number_at(begun, piece.function);
        if count <= piece.number {
            return false;
        }
        self.going.told.can_absorb(share)
    }

    /// The share is settled, which can be.
    fn bring(&mut self, share: Share<'_>) -> Result<(), NoMemory>
        requires { CanSettle self.old share }
        ensures ok { OnOk result (Settled share.entry self.old self.new) }
        ensures err { OnErr result (BecameShort self.old self.new) }
        ensures start { start_of self.new.seen ≡ start_of self.old.seen }
    {
        let _before = self.going.told.program();
        match settle(&mut self.going, &self.ways, share) {
            Ok(()) => {
                let _after = self.going.told.program();
                Ok(())
            }
            Err(_) => {
                let _after = self.going.told.program();
                self.short = true;
                Err(NoMemory)
            }
        }
    }

    /// The share's piece is settled: its Agent events come, then its HandIns, then each Shut, Freeze and Open that became
    /// legal. `Illegal` exactly where the flow is short, the piece is not begun and unsettled, the share has other agents,
    /// or its setting is not that of the core and the function; the flow is unchanged then. Where memory is not found the flow
    /// is short, and its history a legal list that begins with the earlier one.
    pub fn settle(&mut self, share: Share<'_>) -> Result<(), StepFault>
        ensures ok { OnOk result (Settled share.entry self.old self.new) }
        ensures err { IfErr result (NotSettled share.entry self.old self.new) }
        ensures start { start_of self.new.seen ≡ start_of self.old.seen }
    {
        if !self.can_settle(&share) {
            return Err(StepFault::Illegal);
        }
        self.bring(share)?;
        Ok(())
    }

    /// Whether the piece of this number of the function was begun and is not settled, and the flow is not short.
    fn awaits(&self, function: u32, piece: u32) -> bool
        ensures short { IsTrue result → self.now.short ≡ false }
        ensures begun { IsTrue result → piece < slice_index self.now.begun function }
        ensures legal { IsTrue result → IsTrue (allows self.now.seen (event.Agent function piece)) }
        ensures not { result ≡ false → self.now.short ≡ false → piece < slice_index self.now.begun function
            → allows self.now.seen (event.Agent function piece) ≡ false }
    {
        if self.short {
            return false;
        }
        let begun = self.begun.as_slice();
        let count = number_at(begun, function);
        if count <= piece {
            return false;
        }
        self.going.told.allows(Event::Agent(function, piece))
    }

    /// The share's piece is settled, where the share is known to be due: one of a piece that some core from this flow's
    /// beginning has, under the boards and all else that it has before it there. Its Agent events come, then its HandIns, then
    /// each Shut, Freeze and Open that became legal. Nothing is compared. `Illegal` exactly where the flow is short or the
    /// piece is not begun and unsettled; the flow is unchanged then. Where memory is not found the flow is short, and its
    /// history a legal list that begins with the earlier one.
    pub fn take_in(&mut self, share: Share<'_>) -> Result<(), StepFault>
        requires { IsDueShare (start_of self.old.seen) share }
        ensures ok { OnOk result (Settled share.entry self.old self.new) }
        ensures err { IfErr result (NotSettled share.entry self.old self.new) }
        ensures start { start_of self.new.seen ≡ start_of self.old.seen }
    {
        names_differ();
        let _ready = self.ready();
        let _source = self.going.told.program().source();
        let piece = share.piece();
        if !self.awaits(piece.function, piece.number) {
            return Err(StepFault::Illegal);
        }
        self.bring(share)?;
        Ok(())
    }
}
