//! How far an iteration is.

ghost use Rattle.std.specs.Prelude.{◌≡◌, ◌<◌, [], ℕ, ℤ, List, true, false, Some, None, OnOk, OnErr, length, map};
ghost use Rattle.std.specs.Prelude.{option_map};
ghost use Rattle.std.specs.Prelude.{is_some, IfSome, slice_get, slice_set, slice_index_or, if◌then◌else◌};
ghost use Rattle.flame_rows.specs.Bags.{ascending, merge};
ghost use Rattle.flame_index.specs.FrozenBoards.{messages_on};
ghost use Rattle.flame_world.specs.AgentRuns.{births_of};
ghost use Rattle.flame_world.specs.Fields.{changed, changed_pool, joined};
ghost use Rattle.flame_events.specs.CoreStates.{Work as Meant, Open, is_waiting, is_shut, fault_of, fault_in};
ghost use Rattle.flame_events.specs.CoreStates.{is_frozen, part_in};
ghost use Rattle.flame_events.specs.CoreStates.{status_of, work_of, works_of};
ghost use Rattle.flame_events.specs.EventSteps.{done_with, with_work};
ghost use Rattle.flame_events.specs.LegalEvents.{may_run, may_hand_in, may_shut};
ghost use Rattle.flame_pieces.specs.KeptWorks.{work_of as kept_work, outputs_in};
ghost use Rattle.flame_pieces.specs.KeptStatuses.{status_of as kept_status, FitOutputs};
ghost use Rattle.flame_field.specs.KeptPools.{AreDealt};
ghost use Rattle.flame_field.specs.KeptBoards.{board_bag, is_board_frozen};
ghost use Rattle.flame_progress.specs.KeptCores.{core_of, kept_at, HasOutputsAt};
ghost use Rattle.flame_progress.specs.KeptWorkEvents.{added, are_left, without, OutputsOnce};

use crate::handing::hand_over_at;
use crate::leavings::PartedLeaving;
use flame_field::{Board, Field};
use flame_index::Frozen;
use flame_pieces::{Status, Work};
use flame_rows::NoMemory;
use std::alloc::Global;

/// How far an iteration is: how far each function is, and where agents, births and messages are.
#[derive(Debug, Drop)]
pub struct Progress {
    /// How far each function is, in document order.
    pub statuses: Vec<Status>,
    /// Where agents, births and messages are.
    pub field: Field,
}

impl Progress {
    /// How far the function of this number is.
    pub(crate) fn status(&self, function: u32) -> Option<&Status>
        ensures kept { option_map (λ status. status.now) result ≡ slice_get self.now.statuses.items function }
        ensures status { option_map (λ status. kept_status status.now) result
            ≡ slice_get (core_of self.now).statuses function }
    {
        self.statuses.get(function as usize)
    }

    /// The board of this number.
    fn board(&self, message: u32) -> Option<&Board>
        ensures bag { option_map (λ board. board_bag board.now) result
            ≡ slice_get (core_of self.now).field.boards message }
        ensures frozen { option_map (λ board. is_board_frozen board.now) result
            ≡ slice_get (core_of self.now).frozen message }
    {
        self.field.boards.get(message as usize)
    }

    /// Whether it has not begun.
    pub(crate) fn is_waiting(&self, function: u32) -> bool
        ensures { result ≡ is_waiting (status_of (core_of self.now) function) }
    {
        match self.status(function) {
            Some(status) => status.is_waiting(),
            None => true,
        }
    }

    /// Whether it is done without a fault.
    pub fn is_shut(&self, function: u32) -> bool
        ensures { result ≡ is_shut (status_of (core_of self.now) function) }
    {
        match self.status(function) {
            Some(status) => status.is_shut(),
            None => false,
        }
    }

    /// Whether it is done with a fault.
    pub fn is_faulted(&self, function: u32) -> bool
        ensures { result ≡ is_some (fault_of (status_of (core_of self.now) function)) }
    {
        match self.status(function) {
            Some(status) => status.is_faulted(),
            None => false,
        }
    }

    /// How many pieces it has, while it is open.
    pub fn pieces(&self, function: u32) -> usize
        ensures { result ≡ length (works_of (status_of (core_of self.now) function)) }
    {
        match self.status(function) {
            Some(status) => status.pieces(),
            None => 0,
        }
    }

    /// The piece of this number, while it is open.
    pub fn work(&self, function: u32, piece: u32) -> Option<&Work>
        ensures work { option_map (λ work. kept_work work.now) result ≡ work_of (core_of self.now) function piece }
        ensures outputs { (outputs : List ℕ) → HasOutputsAt self.now function outputs
            → IfSome result (λ work. outputs_in work.now ≡ outputs) }
    {
        match self.status(function) {
            Some(status) => status.work(piece),
            None => None,
        }
    }

    /// Whether the board of this number is frozen.
    pub(crate) fn is_frozen(&self, message: u32) -> bool
        ensures { result ≡ is_frozen (core_of self.now) message }
    {
        match self.board(message) {
            Some(board) => board.is_frozen(),
            None => false,
        }
    }

    /// The messages of the board of this number, where it is frozen.
    pub fn frozen(&self, message: u32) -> Option<&Frozen>
        ensures { option_map (λ board. messages_on board.now) result ≡ (if is_frozen (core_of self.now) message
            then Some (slice_index_or (core_of self.now).field.boards message []) else None) }
    {
        match self.board(message) {
            Some(board) => board.frozen(),
            None => None,
        }
    }

    /// The function of this number is done.
    pub(crate) fn shut(&mut self, function: u32)
        requires { function < length self.old.statuses.items }
        ensures core { core_of self.new ≡ record (core_of self.old) {
          statuses = slice_set (core_of self.old).statuses function
              (done_with (fault_in (works_of (status_of (core_of self.old) function))));
        } }
        ensures outputs { (other : ℕ) (outputs : List ℕ) → HasOutputsAt self.old other outputs
            → HasOutputsAt self.new other outputs }
        ensures field { self.new.field ≡ self.old.field }
    {
        self.statuses[function as usize].shut();
    }

    /// The board of this number is complete.
    pub(crate) fn freeze(&mut self, message: u32)
        requires { message < length self.old.field.boards.items }
        ensures core { core_of self.new ≡ record (core_of self.old) {
          frozen = slice_set (core_of self.old).frozen message true;
        } }
        ensures statuses { self.new.statuses.items ≡ self.old.statuses.items }
        ensures pools { self.new.field.pools ≡ self.old.field.pools }
    {
        self.field.boards[message as usize].freeze();
    }

    /// The function of this number is open, in these pieces.
    pub fn start(&mut self, function: u32, works: Vec<Work>)
        requires { function < length self.old.statuses.items }
        ensures core { core_of self.new ≡ record (core_of self.old) {
          statuses = slice_set (core_of self.old).statuses function (Open (map kept_work works.items));
        } }
        ensures statuses { self.new.statuses.items ≡ slice_set self.old.statuses.items function (Status.Open works) }
        ensures field { self.new.field ≡ self.old.field }
    {
        self.statuses[function as usize] = Status::Open(works);
    }

    /// The next agents of a piece of a function ran, and left this, with a list of messages for each output of the function:
    /// those that live on arrive in this state of this type, their births are set aside, their messages join those of the
    /// piece, and the piece has the least of their faults where it had none. Nothing changes where no memory is found.
    pub fn settle(
        &mut self,
        alloc: Global,
        function: u32,
        piece: u32,
        agent: u32,
        state: u32,
        left: PartedLeaving,
    ) -> Result<(), NoMemory>
        requires left { are_left left.ran (work_of (core_of self.old) function piece) ≡ true }
        requires known { function < length self.old.statuses.items }
        requires parts { FitOutputs (length left.parts.items) (kept_at self.old function) }
        requires there { state < length (slice_index_or (core_of self.old).field.pools agent []) }
        ensures ok { OnOk result ((work : Meant)
            → work_of (core_of self.old) function piece ≡ Some work
            → core_of self.new ≡ record (core_of self.old) {
              statuses = with_work (core_of self.old) function piece (added left work);
              field = record (core_of self.old).field {
                pools = changed_pool agent state (λ pool. merge pool (ascending left.survivors.items))
                    (core_of self.old).field.pools;
                born = joined (births_of left.born.items) (core_of self.old).field.born;
              };
            }) }
        ensures outputs { (other : ℕ) (outputs : List ℕ) → HasOutputsAt self.old other outputs
            → HasOutputsAt self.new other outputs }
        ensures err { OnErr result (core_of self.new ≡ core_of self.old) }
        ensures dealt { (choose : ℕ → ℕ → List ℤ → ℕ) → AreDealt choose self.old.field.pools
            → AreDealt choose self.new.field.pools }
    {
        let PartedLeaving {
            ran,
            survivors,
            parts,
            born,
            fault,
        } = left;
        self.statuses[function as usize].make_room(piece, &parts)?;
        self.field.bring(alloc, agent, state, survivors, born)?;
        self.statuses[function as usize].add(piece, ran, parts, fault);
        Ok(())
    }

    /// A piece of a function hands in its messages of this type, whose board gathers. Where no other function may send
    /// more, the last piece puts the board in order, if memory is found.
    pub(crate) fn hand_in(
        &mut self,
        alloc: Global,
        function: u32,
        piece: u32,
        message: u32,
        is_last: bool,
    ) -> Result<(), NoMemory>
        requires known { function < length self.old.statuses.items }
        requires there { piece < length (works_of (status_of (core_of self.old) function)) }
        requires board { message < length self.old.field.boards.items }
        requires gathers { is_frozen (core_of self.old) message ≡ false }
        requires once { OutputsOnce (kept_at self.old function) }
        ensures ok { OnOk result ((outputs : List ℕ) (work : Meant) (rows : List (List ℤ))
            → HasOutputsAt self.old function outputs
            → work_of (core_of self.old) function piece ≡ Some work
            → part_in outputs work.parts message ≡ Some rows
            → core_of self.new ≡ record (core_of self.old) {
              statuses = with_work (core_of self.old) function piece (without outputs message work);
              field = record (core_of self.old).field {
                boards = changed message (λ board. merge board rows) (core_of self.old).field.boards;
              };
            }) }
        ensures outputs { (other : ℕ) (outputs : List ℕ) → HasOutputsAt self.old other outputs
            → HasOutputsAt self.new other outputs }
        ensures err { OnErr result (core_of self.new ≡ core_of self.old) }
        ensures pools { self.new.field.pools ≡ self.old.field.pools }
    {
        hand_over_at(
            alloc,
            &mut self.statuses[function as usize],
            piece,
            message,
            &mut self.field.boards,
            is_last,
        )?;
        Ok(())
    }
}
