//! The agents of all states.

ghost use Rattle.std.specs.Prelude.{◌≡◌, ◌<◌, ◌≤◌, ◌==◌, not, ℕ, ℤ, List, [], map, length, Some, IfSome, IfOk, OnOk, OnErr, slice_get, slice_set, slice_index_or, IsTrue};
ghost use Rattle.std.specs.List.{All, filter};
ghost use Rattle.flame_rows.specs.Bags.{ascending, merge, merge_all};
ghost use Rattle.flame_world.specs.Fields.{changed, changed_pool, pool_in};
ghost use Rattle.flame_field.specs.KeptGatherings.{bag_of, bags_of};
ghost use Rattle.flame_field.specs.KeptPools.{pool_bag, chosen_at, IsDealt, choosing, HaveRooms, AreApart, pool_bags, pools_of, pool_at, AreDealt};

use crate::gatherings::Gathering;
use flame_rows::{Bag, NoMemory, Row};
use std::alloc::Global;
use std::mem;

/// The agents that rest in a state. Each is asked once what it takes, and then rests with those that chose alike.
#[derive(Debug, Drop)]
pub struct Pool {
    /// Those that have not chosen yet.
    pub fresh: Gathering,
    /// For each place among the functions out of the state, those that chose the function there; behind them those that
    /// chose none.
    pub chosen: Vec<Gathering>,
}

/// How many of these choices are this place.
fn count_choosing(choices: &[u32], place: usize) -> usize
    ensures { result ≡ choosing choices.now place }
{
    choices
        .iter()
        .filter(|choice| **choice as usize == place)
        .count()
}

/// Makes room, in the gathering at each place, for those that choose it.
fn make_rooms(chosen: &mut Vec<Gathering>, choices: &[u32]) -> Result<(), NoMemory>
    ensures bags { bags_of chosen.new ≡ bags_of chosen.old }
    ensures rooms { OnOk result (HaveRooms choices.now chosen.new) }
{
    for place in 0..chosen.len() {
        let count = count_choosing(choices, place);
        chosen[place].rows.reserve(count)?;
    }
    Ok(())
}

/// Puts each of the rows with those of its choice, where there is room for it.
fn deal_out(chosen: &mut Vec<Gathering>, rows: Vec<Row>, choices: &[u32])
    requires count { length choices.now ≡ length rows.items }
    requires within { All (λ choice. choice < length chosen.old.items) choices.now }
    requires rooms { HaveRooms choices.now chosen.old }
    ensures bags { merge_all (bags_of chosen.new) ≡ merge (merge_all (bags_of chosen.old)) rows.items }
    ensures apart { (choose : List ℤ → ℕ) → choices.now ≡ map choose rows.items
        → AreApart choose (bags_of chosen.old) → AreApart choose (bags_of chosen.new) }
{
    for (row, choice) in rows.into_iter().zip(choices) {
        chosen[*choice as usize].rows.push_reserved(row);
    }
}

/// What all of these are, where they are one.
fn sole(choices: &[u32]) -> Option<u32>
    ensures all { IfSome result (λ choice. All (λ other. other ≡ choice) choices.now) }
    ensures some { IfSome result (λ choice. 0 < length choices.now) }
{
    let first = *choices.first()?;
    for choice in choices {
        if *choice != first {
            return None;
        }
    }
    Some(first)
}

impl Pool {
    /// No agents.
    pub fn empty(alloc: Global) -> Pool
        ensures bag { pool_bag result ≡ [] }
        ensures dealt { (choose : List ℤ → ℕ) → IsDealt choose result }
    {
        Pool {
            fresh: Gathering::empty(alloc),
            chosen: Vec::new(alloc),
        }
    }

    /// These agents, none of which chose.
    pub fn of(alloc: Global, agents: Bag) -> Pool
        ensures bag { pool_bag result ≡ ascending agents }
        ensures dealt { (choose : List ℤ → ℕ) → IsDealt choose result }
    {
        Pool {
            fresh: Gathering::of(agents),
            chosen: Vec::new(alloc),
        }
    }

    /// Agents arrive, which have not chosen.
    pub fn add_all(&mut self, rows: Vec<Row>) -> Result<(), NoMemory>
        ensures ok { OnOk result (pool_bag self.new ≡ merge (pool_bag self.old) (ascending rows.items)) }
        ensures err { OnErr result (pool_bag self.new ≡ pool_bag self.old) }
        ensures dealt { (choose : List ℤ → ℕ) → IsDealt choose self.old → IsDealt choose self.new }
    {
        self.fresh.add_all(rows)?;
        Ok(())
    }

    /// Makes a place for each of so many choices.
    fn make_places(&mut self, places: usize) -> Result<(), NoMemory>
        ensures bag { pool_bag self.new ≡ pool_bag self.old }
        ensures fresh { self.new.fresh ≡ self.old.fresh }
        ensures places { OnOk result (places ≤ length self.new.chosen.items) }
        ensures dealt { (choose : List ℤ → ℕ) → IsDealt choose self.old → IsDealt choose self.new }
    {
        let alloc = *self.chosen.allocator();
        for _place in self.chosen.len()..places {
            self.chosen.push(Gathering::empty(alloc))?;
        }
        Ok(())
    }

    /// Whether nobody chose this place.
    fn is_free(&self, place: u32) -> bool
        requires { place < length self.now.chosen.items }
        ensures { IsTrue result → chosen_at self.now place ≡ [] }
    {
        self.chosen[place as usize].is_empty()
    }

    /// All that have not chosen yet chose this place, which nobody did before.
    fn move_all(&mut self, place: u32)
        requires there { place < length self.old.chosen.items }
        requires free { chosen_at self.old place ≡ [] }
        ensures bag { pool_bag self.new ≡ pool_bag self.old }
        ensures fresh { self.new.fresh.rows.items ≡ [] }
        ensures dealt { (choose : List ℤ → ℕ) → All (λ memory. choose memory ≡ place) self.old.fresh.rows.items
            → IsDealt choose self.old → IsDealt choose self.new }
    {
        let empty = Gathering::empty(*self.fresh.rows.allocator());
        let all = mem::replace(&mut self.fresh, empty);
        self.chosen[place as usize] = all;
    }

    /// Those that have not chosen yet are put with those of their choices one by one. After `NoMemory` nobody chose.
    fn part(&mut self, choices: &[u32]) -> Result<(), NoMemory>
        requires count { length choices.now ≡ length self.old.fresh.rows.items }
        requires within { All (λ choice. choice < length self.old.chosen.items) choices.now }
        ensures bag { pool_bag self.new ≡ pool_bag self.old }
        ensures fresh { OnOk result (self.new.fresh.rows.items ≡ []) }
        ensures none { OnErr result (self.new.fresh ≡ self.old.fresh) }
        ensures dealt { (choose : List ℤ → ℕ) → choices.now ≡ map choose self.old.fresh.rows.items
            → IsDealt choose self.old → IsDealt choose self.new }
    {
        make_rooms(&mut self.chosen, choices)?;
        let empty = Vec::new(*self.fresh.rows.allocator());
        let rows = mem::replace(&mut self.fresh.rows, empty);
        deal_out(&mut self.chosen, rows, choices);
        Ok(())
    }

    /// Those that have not chosen yet are put with those of their choices, which are told in the order in which they stand,
    /// each below `places`. Where all choose alike, and nobody did so before, their list is moved and no agent; else room is
    /// made first, by a pass over the choices for each place. After `NoMemory` nobody chose.
    pub fn deal(&mut self, choices: &[u32], places: usize) -> Result<(), NoMemory>
        requires count { length choices.now ≡ length self.old.fresh.rows.items }
        requires within { All (λ choice. choice < places) choices.now }
        ensures bag { pool_bag self.new ≡ pool_bag self.old }
        ensures dealt { (choose : List ℤ → ℕ) → choices.now ≡ map choose self.old.fresh.rows.items
            → IsDealt choose self.old → IsDealt choose self.new }
        ensures all { OnOk result (self.new.fresh.rows.items ≡ []) }
        ensures none { OnErr result (self.new.fresh ≡ self.old.fresh) }
    {
        if choices.is_empty() {
            return Ok(());
        }
        self.make_places(places)?;
        if let Some(choice) = sole(choices) {
            if self.is_free(choice) {
                self.move_all(choice);
                return Ok(());
            }
        }
        self.part(choices)?;
        Ok(())
    }

    /// How many chose the function at this place.
    pub fn count(&self, place: u32) -> usize
        ensures { result ≡ length (chosen_at self.now place) }
    {
        if place as usize >= self.chosen.len() {
            return 0;
        }
        self.chosen[place as usize].len()
    }

    /// Those that chose the function at this place leave, where all chose. They stand in any order.
    pub fn take(&mut self, place: u32) -> Vec<Row>
        requires { self.old.fresh.rows.items ≡ [] }
        ensures takers { (choose : List ℤ → ℕ) → IsDealt choose self.old
            → ascending result.items ≡ filter (λ memory. choose memory == place) (pool_bag self.old) }
        ensures others { (choose : List ℤ → ℕ) → IsDealt choose self.old
            → pool_bag self.new ≡ filter (λ memory. not (choose memory == place)) (pool_bag self.old) }
        ensures count { length result.items ≡ length (chosen_at self.old place) }
        ensures fresh { self.new.fresh ≡ self.old.fresh }
        ensures dealt { (choose : List ℤ → ℕ) → IsDealt choose self.old → IsDealt choose self.new }
    {
        let empty = Vec::new(*self.fresh.rows.allocator());
        if place as usize >= self.chosen.len() {
            return empty;
        }
        mem::replace(&mut self.chosen[place as usize].rows, empty)
    }

    /// All of them join others.
    pub fn join(self, all: &mut Gathering) -> Result<(), NoMemory>
        ensures { OnOk result (bag_of all.new ≡ merge (bag_of all.old) (pool_bag self)) }
    {
        all.add_all(self.fresh.rows)?;
        for chosen in self.chosen {
            all.add_all(chosen.rows)?;
        }
        Ok(())
    }
}

/// The pool of this state.
fn pool_in_type(pools: &[Pool], state: u32) -> &Pool
    requires { state < length pools.now }
    ensures bag { pool_bag result.now ≡ slice_index_or (map pool_bag pools.now) state [] }
    ensures kept { slice_get pools.now state ≡ Some result.now }
{
    &pools[state as usize]
}

/// The pool of this state of this type.
pub fn pool_of(pools: &[Vec<Pool>], agent: u32, state: u32) -> &Pool
    requires { state < length (slice_index_or (map pool_bags pools.now) agent []) }
    ensures bag { pool_bag result.now ≡ pool_in (map pool_bags pools.now) agent state }
    ensures kept { pool_at pools.now agent state ≡ Some result.now }
{
    pool_in_type(&pools[agent as usize], state)
}

/// Puts a pool in the place of that of a state, which is given back.
pub fn exchanged(pools: &mut Vec<Pool>, state: u32, pool: Pool) -> Pool
    requires { state < length pools.old.items }
    ensures back { pool_bag result ≡ slice_index_or (pool_bags pools.old) state [] }
    ensures put { pool_bags pools.new ≡ changed state (λ old. pool_bag pool) (pool_bags pools.old) }
    ensures count { length pools.new.items ≡ length pools.old.items }
    ensures was { slice_get pools.old.items state ≡ Some result }
    ensures now { pools.new.items ≡ slice_set pools.old.items state pool }
{
    mem::replace(&mut pools[state as usize], pool)
}

/// Puts a pool in the place of that of a state of a type, which is given back.
pub fn exchange(pools: &mut Vec<Vec<Pool>>, agent: u32, state: u32, pool: Pool) -> Pool
    requires { state < length (slice_index_or (pools_of pools.old) agent []) }
    ensures back { pool_bag result ≡ pool_in (pools_of pools.old) agent state }
    ensures put { pools_of pools.new ≡ changed_pool agent state (λ old. pool_bag pool) (pools_of pools.old) }
    ensures kept { pool_at pools.old.items agent state ≡ Some result }
    ensures placed { pool_at pools.new.items agent state ≡ Some pool }
    ensures others { (other_agent other_state : ℕ) → (other_agent ≡ agent → other_state ≡ state → ⊥)
        → pool_at pools.new.items other_agent other_state ≡ pool_at pools.old.items other_agent other_state }
    ensures dealt { (choose : ℕ → ℕ → List ℤ → ℕ) → AreDealt choose pools.old → IsDealt (choose agent state) result }
    ensures stay_dealt { (choose : ℕ → ℕ → List ℤ → ℕ) → AreDealt choose pools.old
        → IsDealt (choose agent state) pool → AreDealt choose pools.new }
{
    exchanged(&mut pools[agent as usize], state, pool)
}

/// Agents arrive in a state of a type.
pub(crate) fn arrive(
    alloc: Global,
    pools: &mut Vec<Vec<Pool>>,
    agent: u32,
    state: u32,
    rows: Vec<Row>,
) -> Result<(), NoMemory>
    requires { state < length (slice_index_or (pools_of pools.old) agent []) }
    ensures ok { OnOk result (pools_of pools.new
        ≡ changed_pool agent state (λ pool. merge pool (ascending rows.items)) (pools_of pools.old)) }
    ensures err { OnErr result (pools_of pools.new ≡ pools_of pools.old) }
    ensures dealt { (choose : ℕ → ℕ → List ℤ → ℕ) → AreDealt choose pools.old → AreDealt choose pools.new }
{
    let mut pool = exchange(pools, agent, state, Pool::empty(alloc));
    let arrived = pool.add_all(rows);
    exchange(pools, agent, state, pool);
    arrived
}
