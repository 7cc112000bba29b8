//! Pieces of a function that begins.

ghost use Rattle.std.specs.Prelude.{◌≡◌, ◌+◌, ◌≤◌, ◌++◌, ℕ, List, IfOk, OnOk, length, map, drop, take, [], ◌∷◌};
ghost use Rattle.std.specs.List.{All};
ghost use Rattle.std.specs.Vec.{vec_capacity};
ghost use Rattle.std.specs.Vec.Iter.{into_iter_items};
ghost use Rattle.flame_rows.specs.Order.{row_order};
ghost use Rattle.flame_rows.specs.Sorted.{IsAscending};
ghost use Rattle.flame_rows.specs.Bags.{ascending};
ghost use Rattle.flame_rows.specs.Cuts.{cut, piece_size};
ghost use Rattle.flame_events.specs.EventSteps.{fresh_work};
ghost use Rattle.flame_pieces.specs.KeptWorks.{work_of, outputs_in};
ghost use Rattle.flame_progress.specs.KeptRooms.{AreRoomsFor, AreRoomsEnough};

use flame_pieces::Work;
use flame_rows::{Bag, NoMemory, Row};
use std::alloc::Global;
use std::vec::IntoIter;

/// The pieces of a function that is to begin, and room for its agents.
#[derive(Debug, Drop)]
pub struct PieceRooms {
    /// How many agents a piece has; the last may have fewer.
    pub size: usize,
    /// For each piece a list with room for so many.
    pub rooms: Vec<Vec<Row>>,
    /// The pieces, which have no agents yet.
    pub works: Vec<Work>,
}

/// How many of so many agents stand in a piece: as many as an equal share is, rounded up.
fn piece_size(agents: usize, pieces: u32) -> usize
    requires { 1 ≤ pieces }
    ensures { result ≡ piece_size agents pieces }
{
    match agents.checked_sub(1) {
        Some(others) => others / (pieces as usize) + 1,
        None => 0,
    }
}

/// The rows in content order, for which memory is taken where some is found.
fn in_order(rows: Vec<Row>) -> Vec<Row>
    ensures rows { result.items ≡ ascending rows.items }
    ensures order { IsAscending row_order result.items }
{
    let mut rows = rows;
    let _sorted = rows.sort();
    Bag::gathered(rows).into_rows()
}

/// The next rows, at most so many, in a list that has room for them.
fn next_run(rest: &mut IntoIter<Row>, room: Vec<Row>, most: usize) -> Vec<Row>
    requires empty { room.items ≡ [] }
    requires room { most ≤ vec_capacity room }
    ensures run { result.items ≡ take most (into_iter_items rest.old) }
    ensures rest { into_iter_items rest.new ≡ drop most (into_iter_items rest.old) }
{
    let mut run = room;
    for _row in 0..most {
        match rest.next() {
            Some(row) => run.push_reserved(row),
            None => return run,
        }
    }
    run
}

/// An empty list with room for so many rows.
fn empty_room(alloc: Global, size: usize) -> Result<Vec<Row>, NoMemory>
    ensures empty { IfOk result (λ room. room.items ≡ []) }
    ensures room { IfOk result (λ room. size ≤ vec_capacity room) }
{
    let mut room = Vec::new(alloc);
    room.reserve(size)?;
    Ok(room)
}

/// The piece has these agents, which stand in content order.
fn give(work: &mut Work, agents: Vec<Row>)
    requires { ascending agents.items ≡ agents.items }
    ensures work { work_of work.new ≡ record (work_of work.old) { agents = agents.items } }
    ensures outputs { outputs_in work.new ≡ outputs_in work.old }
{
    work.agents = Bag::gathered(agents);
}

impl PieceRooms {
    /// One piece more, and room for its agents.
    fn add(&mut self, alloc: Global, outputs: &[u32]) -> Result<(), NoMemory>
        ensures size { self.new.size ≡ self.old.size }
        ensures has { OnOk result (AreRoomsEnough self.old → AreRoomsEnough self.new) }
        ensures rooms { OnOk result (length self.new.rooms.items ≡ length self.old.rooms.items + 1) }
        ensures works { OnOk result (map work_of self.new.works.items
            ≡ map work_of self.old.works.items ++ fresh_work outputs.now [] ∷ []) }
        ensures outputs { OnOk result (All (λ work. outputs_in work ≡ outputs.now) self.old.works.items
            → All (λ work. outputs_in work ≡ outputs.now) self.new.works.items) }
    {
        let room = empty_room(alloc, self.size)?;
        self.rooms.push(room)?;
        let work = Work::fresh(alloc, outputs, Bag::empty(alloc))?;
        self.works.push(work)?;
        Ok(())
    }

    /// Room for so many agents, in at most so many pieces, of a function with these outputs.
    pub fn new(
        alloc: Global,
        outputs: &[u32],
        agents: usize,
        pieces: u32,
    ) -> Result<PieceRooms, NoMemory>
        requires { 1 ≤ pieces }
        ensures rooms { IfOk result AreRoomsEnough }
        ensures fits { IfOk result (AreRoomsFor outputs.now agents pieces) }
    {
        let mut opening = PieceRooms {
            size: piece_size(agents, pieces),
            rooms: Vec::new(alloc),
            works: Vec::new(alloc),
        };
        let mut rest = agents;
        for _piece in 0..pieces {
            if rest == 0 {
                return Ok(opening);
            }
            opening.add(alloc, outputs)?;
            rest = rest.saturating_sub(opening.size);
        }
        Ok(opening)
    }

    /// The pieces of these agents, for which there is room: runs in content order. Nothing of it takes memory, but that the
    /// agents are put in order faster where some is found.
    pub fn fill(self, agents: Vec<Row>) -> Vec<Work>
        requires { AreRoomsEnough self }
        ensures works { (outputs : List ℕ) (pieces : ℕ) → AreRoomsFor outputs (length agents.items) pieces self
            → map work_of result.items ≡ map (fresh_work outputs) (cut pieces (ascending agents.items)) }
        ensures outputs { (outputs : List ℕ) (pieces : ℕ) → AreRoomsFor outputs (length agents.items) pieces self
            → All (λ work. outputs_in work ≡ outputs) result.items }
    {
        let PieceRooms { size, rooms, works } = self;
        let mut works = works;
        let mut rooms = rooms.into_iter();
        let mut rest = in_order(agents).into_iter();
        for i in 0..works.len() {
            if let Some(room) = rooms.next() {
                give(&mut works[i], next_run(&mut rest, room, size));
            }
        }
        works
    }
}
