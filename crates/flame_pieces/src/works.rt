//! Pieces of functions that are open.

ghost use Rattle.std.specs.Prelude.{◌≡◌, ◌+◌, ◌≤◌, ◌==◌, ℕ, ℤ, List, [], IfOk, OnOk, Some, None, length, map, slice_get};
ghost use Rattle.std.specs.Prelude.{option_map, slice_set};
ghost use Rattle.std.specs.List.{All, list_all, position, position_or_len};
ghost use Rattle.std.specs.Option.{option_or};
ghost use Rattle.std.specs.Vec.{vec_len};
ghost use Rattle.flame_spec.specs.Below.{HasNoTwice};
ghost use Rattle.flame_rows.specs.Bags.{ascending, merge};
ghost use Rattle.flame_field.specs.KeptGatherings.{bag_of, HasRoom};
ghost use Rattle.flame_events.specs.CoreStates.{has_left, part_in};
ghost use Rattle.flame_events.specs.LegalEvents.{is_over, may_hand_in};
ghost use Rattle.flame_events.specs.EventSteps.{fresh_work};
ghost use Rattle.flame_pieces.specs.KeptWorks.{work_of, outputs_in, messages_in, part_of, with_lists, kept_count, OutputsHaveRoom, WorkHasRoom};

use flame_field::Gathering;
use flame_rows::{Bag, NoMemory, Row};
use flame_world::SimFault;
use std::alloc::Global;
use std::mem;

/// An output of a piece: a message, what the piece sent of it, and whether that is handed in.
#[derive(Debug, Drop)]
pub struct Output {
    /// The number of the message.
    pub message: u32,
    /// The messages, list by list as they came; none any more once they are handed in.
    pub rows: Gathering,
    /// Whether they are handed in.
    pub handed: bool,
}

/// A piece of a function that is open.
#[derive(Debug, Drop)]
pub struct Work {
    /// Its agents.
    pub agents: Bag,
    /// How many of them ran.
    pub ran: usize,
    /// The outputs of the function, with what those that ended sent.
    pub outputs: Vec<Output>,
    /// The least fault of those that faulted.
    pub fault: Option<SimFault>,
}

/// The outputs of a piece of which nothing ran.
fn outputs_of(alloc: Global, messages: &[u32]) -> Result<Vec<Output>, NoMemory>
    ensures parts { IfOk result (λ outputs. map part_of outputs.items ≡ map (λ message. Some []) messages.now) }
    ensures messages { IfOk result (λ outputs. messages_in outputs.items ≡ messages.now) }
{
    let mut outputs = Vec::new(alloc);
    for message in messages {
        outputs.push(Output {
            message: *message,
            rows: Gathering::empty(alloc),
            handed: false,
        })?;
    }
    Ok(outputs)
}

/// Whether all of these are handed in.
fn all_handed(outputs: &[Output]) -> bool
    ensures { result ≡ list_all (λ output. output.handed) outputs.now }
{
    outputs.iter().all(|output| output.handed)
}

/// The place of the output of this message, where it is one.
fn place_of(outputs: &[Output], message: u32) -> Option<usize>
    ensures { result ≡ position (λ output. output.message == message) outputs.now }
{
    outputs.iter().position(|output| output.message == message)
}

impl Output {
    /// Makes room for so many messages.
    fn make_room(&mut self, rows: usize) -> Result<(), NoMemory>
        ensures part { part_of self.new ≡ part_of self.old }
        ensures message { self.new.message ≡ self.old.message }
        ensures room { OnOk result (HasRoom rows self.new.rows) }
    {
        self.rows.make_room(rows)
    }

    /// These messages join its own, for which there is room. Where its own are handed in, these are none any more.
    fn put(&mut self, rows: Vec<Row>)
        requires { HasRoom (vec_len rows) self.old.rows }
        ensures part { part_of self.new ≡ option_map (λ own. merge own rows.items) (part_of self.old) }
        ensures message { self.new.message ≡ self.old.message }
    {
        if !self.handed {
            self.rows.put(rows);
        }
    }

    /// Its messages, which are handed in.
    fn hand_in(&mut self) -> Vec<Row>
        ensures rows { ascending result.items ≡ bag_of self.old.rows }
        ensures count { vec_len result ≡ vec_len self.old.rows.rows }
        ensures part { part_of self.new ≡ None }
        ensures message { self.new.message ≡ self.old.message }
    {
        self.handed = true;
        self.rows.put_in_order();
        let empty = Vec::new(*self.rows.rows.allocator());
        mem::replace(&mut self.rows.rows, empty)
    }
}

/// Makes room for these messages, a list for each output.
fn make_rooms(outputs: &mut [Output], parts: &[Vec<Row>]) -> Result<(), NoMemory>
    requires { length parts.now ≡ length outputs.old }
    ensures parts { map part_of outputs.new ≡ map part_of outputs.old }
    ensures messages { messages_in outputs.new ≡ messages_in outputs.old }
    ensures room { OnOk result (OutputsHaveRoom parts.now outputs.new) }
{
    for i in 0..outputs.len() {
        outputs[i].make_room(parts[i].len())?;
    }
    Ok(())
}

/// These messages join those of the outputs, a list for each, for which there is room.
fn put_parts(outputs: &mut [Output], parts: Vec<Vec<Row>>)
    requires { OutputsHaveRoom parts.items outputs.old }
    ensures parts { map part_of outputs.new ≡ with_lists (map (λ rows. rows.items) parts.items) (map part_of outputs.old) }
    ensures messages { messages_in outputs.new ≡ messages_in outputs.old }
{
    let mut parts = parts.into_iter();
    for i in 0..outputs.len() {
        if let Some(rows) = parts.next() {
            outputs[i].put(rows);
        }
    }
}

impl Work {
    /// The piece of these agents, of which nothing ran. The function has these outputs.
    pub fn fresh(alloc: Global, outputs: &[u32], agents: Bag) -> Result<Work, NoMemory>
        ensures work { IfOk result (λ work. work_of work ≡ fresh_work outputs.now agents) }
        ensures outputs { IfOk result (λ work. outputs_in work ≡ outputs.now) }
    {
        Ok(Work {
            agents,
            ran: 0,
            outputs: outputs_of(alloc, outputs)?,
            fault: None,
        })
    }

    /// Whether an agent of it has not run.
    pub fn has_left(&self) -> bool
        ensures { result ≡ has_left (work_of self.now) }
    {
        self.ran < self.agents.rows().len()
    }

    /// The next agent of it that runs.
    pub fn next(&self) -> Option<&Row>
        ensures { option_map (λ row. row.now) result ≡ slice_get (work_of self.now).agents (work_of self.now).ran }
    {
        self.agents.rows().get(self.ran)
    }

    /// Makes room for these messages, a list for each output, in their order.
    pub fn make_room(&mut self, parts: &[Vec<Row>]) -> Result<(), NoMemory>
        requires { length parts.now ≡ length (outputs_in self.old) }
        ensures same { work_of self.new ≡ work_of self.old }
        ensures outputs { outputs_in self.new ≡ outputs_in self.old }
        ensures room { OnOk result (WorkHasRoom parts.now self.new) }
    {
        make_rooms(&mut self.outputs, parts)
    }

    /// `ran` agents more ran, and sent these messages, a list for each output, in their order, for which there is room; the
    /// least of them that faulted did so.
    pub fn add(&mut self, ran: usize, parts: Vec<Vec<Row>>, fault: Option<SimFault>)
        requires room { WorkHasRoom parts.items self.old }
        requires left { (work_of self.old).ran + ran ≤ length (work_of self.old).agents }
        ensures work { work_of self.new ≡ record (work_of self.old) {
          ran = (work_of self.old).ran + ran;
          parts = with_lists (map (λ rows. rows.items) parts.items) (work_of self.old).parts;
          fault = option_or (work_of self.old).fault fault;
        } }
        ensures outputs { outputs_in self.new ≡ outputs_in self.old }
    {
        // Their number fits, as that of what any iterator over a slice has left.
        let _agents = self.agents.rows().iter();
        put_parts(&mut self.outputs, parts);
        self.ran += ran;
        let earlier = self.fault.take();
        self.fault = earlier.or(fault);
    }

    /// How many messages of this type it keeps.
    pub fn count(&self, message: u32) -> usize
        ensures { result ≡ kept_count self.now message }
    {
        match place_of(&self.outputs, message) {
            Some(place) => self.outputs[place].rows.len(),
            None => 0,
        }
    }

    /// Whether its messages for an output may be handed in: where all of its agents ran, and once.
    pub fn may_hand_in(&self, message: u32) -> bool
        ensures { result ≡ may_hand_in (outputs_in self.now) (Some (work_of self.now)) message }
    {
        if self.has_left() {
            return false;
        }
        match place_of(&self.outputs, message) {
            Some(place) => !self.outputs[place].handed,
            None => false,
        }
    }

    /// Hands in its messages of this type, which are an output of it and are not handed in. They are put in order first, where
    /// memory is found, so that they are one ascending run.
    pub fn hand_in(&mut self, alloc: Global, message: u32) -> Vec<Row>
        requires once { HasNoTwice (outputs_in self.old) }
        ensures rows { (rows : List (List ℤ))
            → part_in (outputs_in self.old) (work_of self.old).parts message ≡ Some rows
            → ascending result.items ≡ rows }
        ensures count { vec_len result ≡ kept_count self.old message }
        ensures work { work_of self.new ≡ record (work_of self.old) {
          parts = slice_set (work_of self.old).parts
              (position_or_len (λ output. output == message) (outputs_in self.old)) None;
        } }
        ensures outputs { outputs_in self.new ≡ outputs_in self.old }
    {
        match place_of(&self.outputs, message) {
            Some(place) => self.outputs[place].hand_in(),
            None => Vec::new(alloc),
        }
    }

    /// Whether all of it ran, and everything is handed in.
    pub fn is_over(&self) -> bool
        ensures { HasNoTwice (outputs_in self.now) → result ≡ is_over (outputs_in self.now) (work_of self.now) }
    {
        if self.has_left() {
            return false;
        }
        all_handed(&self.outputs)
    }
}

/// Whether all of these pieces are over.
pub(crate) fn all_over(works: &[Work]) -> bool
    ensures { (outputs : List ℕ) → HasNoTwice outputs → All (λ work. outputs_in work ≡ outputs) works.now
        → result ≡ list_all (is_over outputs) (map work_of works.now) }
{
    for work in works {
        if !work.is_over() {
            return false;
        }
    }
    true
}
