//! How a flow begins, and how its pieces are begun.

ghost use Rattle.std.specs.Prelude.{◌≡◌, ◌+◌, ◌<◌, ℕ, IfOk, OnOk, OnErr, true, false, not, cond, ◌==◌, drop, length, slice_index, slice_set};
ghost use Rattle.std.specs.List.{list_all};
ghost use Rattle.flame_events.specs.CoreStates.{status_of, works_of};
ghost use Rattle.flame_events.specs.EventBounds.{is_of_piece};
ghost use Rattle.flame_core.specs.SeenCores.{IsNew, when_came};
ghost use Rattle.flame_flow.specs.BegunPieces.{AreMarksOf};
ghost use Rattle.flame_flow.specs.FlowCalls.{IsReady, IsJobOf, with_begun, cut_short};
ghost use Rattle.flame_flow.specs.QuietCores.{IsQuiet};
ghost use Rattle.flame_flow.specs.declared.jobs.Ready.TheVariants.{Work};

use crate::flows::Flow;
use crate::goings::{GoingOn, begin_all};
use crate::jobs::Job;
use crate::numbers::zeros;
use crate::ordered::Ordered;
use crate::told::Told;
use crate::ways::ways_of;
use flame_core::Core;
use flame_rows::NoMemory;
use std::alloc::Global;

/// A copy of this piece of a function, and the boards that its function reads.
fn job_of(told: &mut Told<'_>, function: u32, piece: u32) -> Result<Job, NoMemory>
    requires { piece < length (works_of (status_of told.old.seen.core function)) }
    ensures job { IfOk result (IsJobOf told.old.seen function piece) }
    ensures kept { told.new ≡ told.old }
{
    let agents = told.piece(function, piece)?;
    let boards = told.boards(function)?;
    Ok(Job {
        piece: agents,
        boards,
    })
}

/// One more piece of the function is begun, which has so many: where all are, it is due no more.
fn mark(begun: &mut Vec<u32>, due: &mut Ordered, function: u32, piece: u32, pieces: u32)
    requires there { function < length begun.old.items }
    requires below { piece < pieces }
    requires due { 0 < length due.old }
    ensures begun { begun.new.items ≡ slice_set begun.old.items function (piece + 1) }
    ensures due { due.new ≡ (cond (piece + 1 == pieces) (drop 1 due.old) due.old) }
{
    begun[function as usize] = piece + 1;
    if piece + 1 == pieces {
        due.remove_first();
    }
}

impl<'a> Flow<'a> {
    /// The flow of a core that is new: each Open, Shut and Freeze came that is legal, until none was, and nothing else.
    /// `NoMemory` comes where none is found, and where 32 bits cannot number the parts of the model.
    pub fn new(alloc: Global, core: Core<'a>) -> Result<Flow<'a>, NoMemory>
        requires { IsNew core }
        ensures long { IfOk result (λ flow. flow.short ≡ false) }
        ensures seen { IfOk result (λ flow. flow.seen ≡ when_came flow.history core.entry) }
        ensures kinds { IfOk result (λ flow. list_all (λ event. not (is_of_piece event)) flow.history ≡ true) }
        ensures quiet { IfOk result (λ flow. IsQuiet flow.seen.source.model flow.seen.core) }
        ensures begun { IfOk result (λ flow. (function : ℕ) → slice_index flow.begun function ≡ 0) }
    {
        let program = core.program();
        let ways = ways_of(alloc, program)?;
        let begun = zeros(alloc, program.functions())?;
        let told = Told::new(alloc, core);
        let due = Ordered::new(alloc);
        let over = Vec::new(alloc);
        let mut going = GoingOn { told, due, over };
        begin_all(alloc, &mut going, &ways)?;
        Ok(Flow {
            going,
            ways,
            begun,
            short: false,
        })
    }

    /// The piece is begun which `ready` says to begin: a copy of it, and the boards of its function's inputs. Where memory is
    /// not found the flow is short, and no piece is begun.
    pub fn begin(&mut self, function: u32, piece: u32) -> Result<Job, NoMemory>
        requires { IsReady self.old (Work function piece) }
        ensures job { IfOk result (IsJobOf self.old.seen function piece) }
        ensures ok { OnOk result (self.new ≡ with_begun function piece self.old) }
        ensures err { OnErr result (self.new ≡ cut_short self.old) }
    {
        let _program = self.going.told.program();
        match job_of(&mut self.going.told, function, piece) {
            Ok(job) => {
                let pieces = self.going.told.pieces(function);
                mark(
                    &mut self.begun,
                    &mut self.going.due,
                    function,
                    piece,
                    pieces,
                );
                Ok(job)
            }
            Err(_) => {
                self.short = true;
                Err(NoMemory)
            }
        }
    }

    /// The flow is short from now on: for who found no memory elsewhere, or ends for another cause. It takes no memory.
    pub fn cut_short(&mut self)
        ensures { self.new ≡ cut_short self.old }
    {
        self.short = true;
    }
}
