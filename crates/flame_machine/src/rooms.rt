//! Runs of codes, and the lists that are kept from one to the next.

ghost use Rattle.std.specs.Prelude.{◌≡◌, ◌++◌, ◌≤◌, length, ℕ, List, true, IfOk, OnOk, OnErr, replicate, pos};
ghost use Rattle.flame_code.specs.Feeds.{Fed};
ghost use Rattle.flame_code.specs.HelperCodes.{fits as fitting};
ghost use Rattle.flame_code.specs.InputRows.{rows_of};
ghost use Rattle.flame_code.specs.Meanings.{FitsEntry, Means, outcome_of};
ghost use Rattle.flame_code.specs.Routines.{locals_of};
ghost use Rattle.flame_machine.specs.MachineFrames.{Framed};
ghost use Rattle.flame_machine.specs.Running.{end_of};
ghost use Rattle.flame_machine.specs.RunsInto.{RanInto, ending_of, messages_added, births_added};

use crate::additions::Added;
use crate::endings::{Called, Ending, memory_after, whole};
use crate::givens::Given;
use crate::pools::fill;
use crate::running::{SPARE, go};
use flame_code::{Code, Feed, Helpers};
use flame_rows::{NoMemory, Row};
use flame_spec::{Born, Outcome, Sent};
use std::alloc::Global;
use std::marker::Model;

/// The lists that a run works on: cells for its stack and for helpers, its locals, and the numbers of the agent's memory.
#[derive(Drop)]
struct Kept {
    cells: Vec<i32>,
    locals: Vec<i32>,
    numbers: Vec<i32>,
}

/// The lists that runs need, kept from one run to the next: cells for the stack and for helpers, its locals, the agent's
/// memory, and the messages and births that it adds. Whoever runs codes one after another keeps one room for all, and
/// memory for lists is taken only where a run needs longer ones.
#[derive(Drop)]
pub struct Room {
    alloc: Global,
    kept: Kept,
    added: Added,
}

impl Model for Room {
    ghost Value = { Unit {0} };

    ghost view = { λ _. tt };
}

/// Puts as many 0 as the code has locals in place of those of the run before.
fn renew(locals: &mut Vec<i32>, code: &Code) -> Result<(), NoMemory>
    ensures { OnOk result (locals.new.items ≡ replicate (locals_of code.now.instrs) (pos 0)) }
{
    locals.clear();
    fill(locals, code.locals())?;
    Ok(())
}

/// How many cells there are for helpers: none where there are no helpers.
fn spare_for(helpers: &Helpers) -> usize
    ensures { result ≤ 1000 }
{
    if helpers.len() > 0 { SPARE } else { 0 }
}

/// Puts the numbers of the memory in place of those of the run before.
fn copy(numbers: &mut Vec<i32>, memory: &Row) -> Result<(), NoMemory>
    ensures { OnOk result (numbers.new.items ≡ memory.now) }
{
    let values = memory.values();
    if numbers.len() == values.len() {
        numbers.as_mut_slice().copy_from_slice(values);
        return Ok(());
    }
    numbers.clear();
    numbers.extend_from_slice(values)?;
    Ok(())
}

impl Kept {
    /// No lists. It takes no memory.
    fn new(alloc: Global) -> Kept {
        Kept {
            cells: Vec::new(alloc),
            locals: Vec::new(alloc),
            numbers: Vec::new(alloc),
        }
    }

    /// Begins a run of the code with this memory: its locals are 0, there is room for its stack and for helpers, and the
    /// numbers are the memory's. Cells that are enough stay as they are.
    fn begin(&mut self, code: &Code, helpers: &Helpers, memory: &Row) -> Result<(), NoMemory>
        ensures locals { OnOk result (self.new.locals.items ≡ replicate (locals_of code.now.instrs) (pos 0)) }
        ensures room { OnOk result (length code.now.instrs ≤ length self.new.cells.items) }
        ensures numbers { OnOk result (self.new.numbers.items ≡ memory.now) }
    {
        renew(&mut self.locals, code)?;
        fill(&mut self.cells, code.instrs().len() + spare_for(helpers))?;
        copy(&mut self.numbers, memory)?;
        Ok(())
    }
}

/// How the run ended that came to this and left these numbers of its memory. What it added stands behind what these lists
/// have, where it returned.
fn finish(
    alloc: Global,
    called: Called,
    numbers: &[i32],
    added: &mut Added,
    sent: &mut Vec<Sent>,
    born: &mut Vec<Born>,
) -> Result<Ending, NoMemory>
    ensures ends { IfOk result (λ ending. (place : ℕ) (frame : Framed) (feeds : List Fed)
        → ending ≡ ending_of (outcome_of (end_of place frame called numbers.now added.old feeds))) }
    ensures sent { OnOk result ((place : ℕ) (frame : Framed) (feeds : List Fed) → sent.new.items
        ≡ sent.old.items ++ messages_added (outcome_of (end_of place frame called numbers.now added.old feeds))) }
    ensures born { OnOk result ((place : ℕ) (frame : Framed) (feeds : List Fed) → born.new.items
        ≡ born.old.items ++ births_added (outcome_of (end_of place frame called numbers.now added.old feeds))) }
    ensures same_sent { OnErr result (sent.new.items ≡ sent.old.items) }
    ensures same_born { OnErr result (born.new.items ≡ born.old.items) }
{
    match called {
        Called::Returned(value, fuel) => {
            let memory = memory_after(alloc, value, numbers)?;
            added.give(sent, born)?;
            Ok(Ending::Ended(memory, fuel))
        }
        Called::Faulted(fault) => Ok(Ending::Faulted(fault)),
    }
}

/// What the function `run` of this crate gives, on these lists. What the run adds is gathered in `added`, and goes behind
/// what `sent` and `born` have where it returns.
fn run_on<F: Feed>(
    alloc: Global,
    kept: &mut Kept,
    added: &mut Added,
    code: &Code,
    helpers: &Helpers,
    memory: &Row,
    feed: &mut F,
    constants: &Row,
    iteration: i32,
    fuel: u32,
    sent: &mut Vec<Sent>,
    born: &mut Vec<Born>,
) -> Result<Ending, NoMemory>
    requires entry { FitsEntry code.now (record {
      memory = memory.now;
      feeds = F.feeds feed.old;
      constants = constants.now;
      iteration = iteration;
      fuel = fuel;
    }) }
    requires helping { fitting helpers.now code.now ≡ true }
    ensures ran { IfOk result (λ ending. RanInto (Means helpers.now.routines code.now (record {
      memory = memory.now;
      feeds = F.feeds feed.old;
      constants = constants.now;
      iteration = iteration;
      fuel = fuel;
    })) ending sent.old.items sent.new.items born.old.items born.new.items) }
    ensures same_sent { OnErr result (sent.new.items ≡ sent.old.items) }
    ensures same_born { OnErr result (born.new.items ≡ born.old.items) }
    ensures rows { rows_of (F.feeds feed.new) ≡ rows_of (F.feeds feed.old) }
{
    let _count = helpers.len();
    kept.begin(code, helpers, memory)?;
    added.clear();
    let given = Given::of(constants, iteration);
    let called = go(
        kept.locals.as_mut_slice(),
        kept.cells.as_mut_slice(),
        kept.numbers.as_mut_slice(),
        code,
        helpers,
        &given,
        added,
        feed,
        fuel,
    )?;
    let ending = finish(alloc, called, kept.numbers.as_slice(), added, sent, born)?;
    Ok(ending)
}

impl Room {
    /// A room without lists. It takes no memory.
    pub fn new(alloc: Global) -> Room {
        Room {
            alloc,
            kept: Kept::new(alloc),
            added: Added::new(alloc),
        }
    }

    /// What the function `run` of this crate gives, by the lists of this room, where the messages and births that the run
    /// adds go behind those that these lists have: what it gives beside them is the ending. A run that faults adds none, and
    /// where memory is not found the lists are as they were.
    pub fn run_into<F: Feed>(
        &mut self,
        code: &Code,
        helpers: &Helpers,
        memory: &Row,
        feed: &mut F,
        constants: &Row,
        iteration: i32,
        fuel: u32,
        sent: &mut Vec<Sent>,
        born: &mut Vec<Born>,
    ) -> Result<Ending, NoMemory>
        requires entry { FitsEntry code.now (record {
          memory = memory.now;
          feeds = F.feeds feed.old;
          constants = constants.now;
          iteration = iteration;
          fuel = fuel;
        }) }
        requires helping { fitting helpers.now code.now ≡ true }
        ensures ran { IfOk result (λ ending. RanInto (Means helpers.now.routines code.now (record {
          memory = memory.now;
          feeds = F.feeds feed.old;
          constants = constants.now;
          iteration = iteration;
          fuel = fuel;
        })) ending sent.old.items sent.new.items born.old.items born.new.items) }
        ensures same_sent { OnErr result (sent.new.items ≡ sent.old.items) }
        ensures same_born { OnErr result (born.new.items ≡ born.old.items) }
        ensures rows { rows_of (F.feeds feed.new) ≡ rows_of (F.feeds feed.old) }
    {
        let ending = run_on(
            self.alloc,
            &mut self.kept,
            &mut self.added,
            code,
            helpers,
            memory,
            feed,
            constants,
            iteration,
            fuel,
            sent,
            born,
        )?;
        Ok(ending)
    }

    /// What the function `run` of this crate gives, by the lists of this room.
    pub fn run<F: Feed>(
        &mut self,
        code: &Code,
        helpers: &Helpers,
        memory: &Row,
        feed: &mut F,
        constants: &Row,
        iteration: i32,
        fuel: u32,
    ) -> Result<Outcome, NoMemory>
        requires entry { FitsEntry code.now (record {
          memory = memory.now;
          feeds = F.feeds feed.old;
          constants = constants.now;
          iteration = iteration;
          fuel = fuel;
        }) }
        requires helping { fitting helpers.now code.now ≡ true }
        ensures means { IfOk result (λ o. Means helpers.now.routines code.now (record {
          memory = memory.now;
          feeds = F.feeds feed.old;
          constants = constants.now;
          iteration = iteration;
          fuel = fuel;
        }) o) }
        ensures rows { rows_of (F.feeds feed.new) ≡ rows_of (F.feeds feed.old) }
    {
        let mut sent = Vec::new(self.alloc);
        let mut born = Vec::new(self.alloc);
        let ending = self.run_into(
            code, helpers, memory, feed, constants, iteration, fuel, &mut sent, &mut born,
        )?;
        Ok(whole(ending, sent, born))
    }
}

/// What the code means with these helpers, from this memory, these inputs and constants, in this iteration and with this
/// fuel. One step for each instruction; only `Pay`, `Call` and a row that `Next` delivers spend fuel.
///
/// The memory, the constants and the rows of the feed have the widths that the code sees, and the feed has a list of rows
/// for each of its inputs. The rows stay as they were, and how many have come is what the run left. `NoMemory` comes only
/// where memory was not found.
pub fn run<F: Feed>(
    alloc: Global,
    code: &Code,
    helpers: &Helpers,
    memory: &Row,
    feed: &mut F,
    constants: &Row,
    iteration: i32,
    fuel: u32,
) -> Result<Outcome, NoMemory>
    requires entry { FitsEntry code.now (record {
      memory = memory.now;
      feeds = F.feeds feed.old;
      constants = constants.now;
      iteration = iteration;
      fuel = fuel;
    }) }
    requires helping { fitting helpers.now code.now ≡ true }
    ensures means { IfOk result (λ o. Means helpers.now.routines code.now (record {
      memory = memory.now;
      feeds = F.feeds feed.old;
      constants = constants.now;
      iteration = iteration;
      fuel = fuel;
    }) o) }
    ensures rows { rows_of (F.feeds feed.new) ≡ rows_of (F.feeds feed.old) }
{
    let mut room = Room::new(alloc);
    let outcome = room.run(code, helpers, memory, feed, constants, iteration, fuel)?;
    Ok(outcome)
}
