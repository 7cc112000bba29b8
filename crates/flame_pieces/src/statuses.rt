//! How far functions are.

ghost use Rattle.std.specs.Prelude.{◌≡◌, ◌+◌, ◌≤◌, ◌<◌, ℕ, List, map, length, is_some, Some, slice_get, slice_set, option_map, IfSome, OnOk};
ghost use Rattle.std.specs.Option.{option_or};
ghost use Rattle.flame_spec.specs.Below.{HasNoTwice};
ghost use Rattle.flame_events.specs.CoreStates.{Work as Meant, Open, fault_in, fault_of, is_shut, is_waiting, works_of};
ghost use Rattle.flame_events.specs.EventSteps.{done_with};
ghost use Rattle.flame_events.specs.LegalEvents.{may_shut};
ghost use Rattle.flame_pieces.specs.KeptWorks.{work_of, outputs_in, with_lists};
ghost use Rattle.flame_pieces.specs.KeptStatuses.{status_of, HasOutputs, FitOutputs, PieceHasRoom};

use crate::works::{Work, all_over};
use flame_rows::{NoMemory, Row};
use flame_world::SimFault;
use std::mem;

/// How far a function is.
#[derive(Debug, Drop)]
pub enum Status {
    /// It has not begun.
    Waiting,
    /// It is open, in these pieces.
    Open(Vec<Work>),
    /// It is done, and no agent faulted.
    Shut,
    /// It is done, with the least fault of its agents.
    Faulted(SimFault),
}

/// The least fault of these pieces.
fn fault_among(works: Vec<Work>) -> Option<SimFault>
    ensures { result ≡ fault_in (map work_of works.items) }
{
    let mut fault = None;
    for work in works {
        fault = fault.or(work.fault);
    }
    fault
}

impl Status {
    /// Whether it has not begun.
    pub fn is_waiting(&self) -> bool
        ensures { result ≡ is_waiting (status_of self.now) }
    {
        matches!(self, Status::Waiting)
    }

    /// Whether it is done without a fault.
    pub fn is_shut(&self) -> bool
        ensures { result ≡ is_shut (status_of self.now) }
    {
        matches!(self, Status::Shut)
    }

    /// Whether it is done with a fault.
    pub fn is_faulted(&self) -> bool
        ensures { result ≡ is_some (fault_of (status_of self.now)) }
    {
        matches!(self, Status::Faulted(_))
    }

    /// How many pieces it has, while it is open.
    pub fn pieces(&self) -> usize
        ensures { result ≡ length (works_of (status_of self.now)) }
    {
        match self {
            Status::Waiting => 0,
            Status::Open(works) => works.len(),
            Status::Shut => 0,
            Status::Faulted(_) => 0,
        }
    }

    /// The piece of this number, while it is open.
    pub fn work(&self, piece: u32) -> Option<&Work>
        ensures work { option_map (λ work. work_of work.now) result ≡ slice_get (works_of (status_of self.now)) piece }
        ensures outputs { (outputs : List ℕ) → HasOutputs outputs self.now
            → IfSome result (λ work. outputs_in work.now ≡ outputs) }
    {
        match self {
            Status::Waiting => None,
            Status::Open(works) => works.get(piece as usize),
            Status::Shut => None,
            Status::Faulted(_) => None,
        }
    }

    /// Makes room in the piece of this number for these messages, a list for each output, in their order.
    pub fn make_room(&mut self, piece: u32, parts: &[Vec<Row>]) -> Result<(), NoMemory>
        requires there { piece < length (works_of (status_of self.old)) }
        requires parts { FitOutputs (length parts.now) self.old }
        ensures same { status_of self.new ≡ status_of self.old }
        ensures outputs { (outputs : List ℕ) → HasOutputs outputs self.old → HasOutputs outputs self.new }
        ensures room { OnOk result (PieceHasRoom parts.now self.new piece) }
    {
        match self {
            Status::Waiting => unreachable!(),
            Status::Open(works) => works[piece as usize].make_room(parts),
            Status::Shut => unreachable!(),
            Status::Faulted(_) => unreachable!(),
        }
    }

    /// `ran` agents more of the piece of this number ran, and sent these messages, a list for each output, in their order, for
    /// which there is room; the least of them that faulted did so.
    pub fn add(&mut self, piece: u32, ran: usize, parts: Vec<Vec<Row>>, fault: Option<SimFault>)
        requires there { piece < length (works_of (status_of self.old)) }
        requires room { PieceHasRoom parts.items self.old piece }
        requires left { (work : Meant) → slice_get (works_of (status_of self.old)) piece ≡ Some work
            → work.ran + ran ≤ length work.agents }
        ensures status { (work : Meant) → slice_get (works_of (status_of self.old)) piece ≡ Some work
            → status_of self.new ≡ Open (slice_set (works_of (status_of self.old)) piece (record work {
              ran = work.ran + ran;
              parts = with_lists (map (λ rows. rows.items) parts.items) work.parts;
              fault = option_or work.fault fault;
            })) }
        ensures outputs { (outputs : List ℕ) → HasOutputs outputs self.old → HasOutputs outputs self.new }
    {
        match self {
            Status::Waiting => unreachable!(),
            Status::Open(works) => works[piece as usize].add(ran, parts, fault),
            Status::Shut => unreachable!(),
            Status::Faulted(_) => unreachable!(),
        }
    }

    /// Whether it may be shut: where it is open and all of its pieces are over.
    pub fn may_shut(&self) -> bool
        ensures { (outputs : List ℕ) → HasNoTwice outputs → HasOutputs outputs self.now
            → result ≡ may_shut outputs (status_of self.now) }
    {
        match self {
            Status::Waiting => false,
            Status::Open(works) => all_over(works),
            Status::Shut => false,
            Status::Faulted(_) => false,
        }
    }

    /// It is done, without a fault or with the least one of its pieces.
    pub fn shut(&mut self)
        ensures { status_of self.new ≡ done_with (fault_in (works_of (status_of self.old))) }
    {
        let fault = match mem::replace(self, Status::Shut) {
            Status::Waiting => None,
            Status::Open(works) => fault_among(works),
            Status::Shut => None,
            Status::Faulted(_) => None,
        };
        if let Some(fault) = fault {
            *self = Status::Faulted(fault);
        }
    }
}
