//! Agents that choose, and those that leave to take a function.

ghost use Rattle.std.specs.Prelude.{◌≡◌, ℕ, ℤ, List, [], Some, IfOk, OnErr, OnOk, length, map, slice_get};
ghost use Rattle.flame_rows.specs.Bags.{ascending};
ghost use Rattle.flame_spec.specs.Functions.{Place, functions};
ghost use Rattle.flame_spec.specs.States.{state_place};
ghost use Rattle.flame_world.specs.Fields.{Field, changed_pool};
ghost use Rattle.flame_world.specs.Iterations.{Round as Standing, staying, taking};
ghost use Rattle.flame_field.specs.KeptPools.{pool_bag, pool_bags, pools_of, AreDealt, HaveChosen, IsDealt};
ghost use Rattle.flame_round.specs.Choices.{choice_at, takers_kept};
ghost use Rattle.flame_round.specs.KeptRounds.{GoesBy, HasRoute, round_of};

use crate::rounds::Round;
use crate::routes::out_of;
use flame_field::{Pool, exchange, pool_of};
use flame_pool::choose_rows;
use flame_route::Route;
use flame_rows::{NoMemory, Row, Seq, number};
use std::alloc::Global;

/// What each of these agents takes, which rest in the state that the function leaves by this route: places among the functions
/// out of it.
fn choices(
    alloc: Global,
    round: &Round<'_>,
    function: u32,
    route: &Route,
    agents: &[Row],
) -> Result<Seq<u32>, NoMemory>
    requires { GoesBy round.now.program.now.model function route.now }
    ensures { IfOk result (λ choices. choices
        ≡ map (choice_at round.now.program.now.model round.now.iteration route.now.agent route.now.from) agents.now) }
{
    let functions = out_of(round, function, route);
    // Agents choose by numbers of 32 bits.
    let _count = number(functions.len())?;
    let conditions = round.program.conditions();
    choose_rows(alloc, agents, conditions, functions, round.iteration)
}

/// Those of the pool that have not chosen yet choose. After `NoMemory`, which comes also where 32 bits cannot number the
/// functions out of the state, nobody did.
fn deal(
    alloc: Global,
    round: &Round<'_>,
    function: u32,
    route: &Route,
    pool: &mut Pool,
) -> Result<(), NoMemory>
    requires { GoesBy round.now.program.now.model function route.now }
    ensures bag { pool_bag pool.new ≡ pool_bag pool.old }
    ensures dealt { IsDealt (choice_at round.now.program.now.model round.now.iteration route.now.agent route.now.from) pool.old
        → IsDealt (choice_at round.now.program.now.model round.now.iteration route.now.agent route.now.from) pool.new }
    ensures all { OnOk result (pool.new.fresh.rows.items ≡ []) }
    ensures still { pool.old.fresh.rows.items ≡ [] → pool.new.fresh.rows.items ≡ [] }
{
    let choices = choices(alloc, round, function, route, pool.fresh.rows.as_slice())?;
    let places = out_of(round, function, route).len() + 1;
    pool.deal(choices.items(), places)
}

/// All agents in the state that the function leaves have chosen: each is asked once in each state where it rests, however many
/// functions leave the state. After `NoMemory`, which comes also where 32 bits cannot number the functions out of the state,
/// they rest as they did.
pub fn choose(
    alloc: Global,
    round: &Round<'_>,
    function: u32,
    route: &Route,
    pools: &mut Vec<Vec<Pool>>,
) -> Result<(), NoMemory>
    requires route { GoesBy round.now.program.now.model function route.now }
    requires pools { HasRoute (pools_of pools.old) route.now }
    ensures same { pools_of pools.new ≡ pools_of pools.old }
    ensures dealt { AreDealt (choice_at round.now.program.now.model round.now.iteration) pools.old
        → AreDealt (choice_at round.now.program.now.model round.now.iteration) pools.new }
    ensures chosen { OnOk result (HaveChosen pools.new route.now.agent route.now.from) }
    ensures stay_chosen { (agent state : ℕ) → HaveChosen pools.old agent state → HaveChosen pools.new agent state }
{
    let mut pool = exchange(pools, route.agent, route.from, Pool::empty(alloc));
    let dealt = deal(alloc, round, function, route, &mut pool);
    exchange(pools, route.agent, route.from, pool);
    dealt
}

/// How many agents take the function which goes by this route, where all in the state that it leaves have chosen.
pub fn count_takers(route: &Route, pools: &[Vec<Pool>]) -> usize
    requires { HasRoute (map pool_bags pools.now) route.now }
    ensures { result ≡ takers_kept route.now pools.now }
{
    pool_of(pools, route.agent, route.from).count(route.choice)
}

/// The agents leave that take the function which goes by this route, where all in the state that it leaves have chosen. They
/// stand in any order.
pub fn leave(alloc: Global, route: &Route, pools: &mut Vec<Vec<Pool>>) -> Vec<Row>
    requires pools { HasRoute (pools_of pools.old) route.now }
    requires chosen { HaveChosen pools.old route.now.agent route.now.from }
    ensures count { length result.items ≡ takers_kept route.now pools.old.items }
    ensures takers { (round : Standing) (function : ℕ) (place : Place) (field : Field)
        → GoesBy round.source.model function route.now
        → slice_get (functions round.source.model) function ≡ Some place
        → AreDealt (choice_at round.source.model round.iteration) pools.old
        → field.pools ≡ pools_of pools.old
        → ascending result.items ≡ taking round function place field }
    ensures others { (round : Standing) (function : ℕ) (place : Place)
        → GoesBy round.source.model function route.now
        → slice_get (functions round.source.model) function ≡ Some place
        → AreDealt (choice_at round.source.model round.iteration) pools.old
        → pools_of pools.new ≡ changed_pool place.agent (state_place place.type place.function.current)
        (staying round function place) (pools_of pools.old) }
    ensures dealt { (choose : ℕ → ℕ → List ℤ → ℕ) → AreDealt choose pools.old → AreDealt choose pools.new }
    ensures stay_chosen { (agent state : ℕ) → HaveChosen pools.old agent state → HaveChosen pools.new agent state }
{
    let mut pool = exchange(pools, route.agent, route.from, Pool::empty(alloc));
    let takers = pool.take(route.choice);
    exchange(pools, route.agent, route.from, pool);
    takers
}

/// The takers of a function leave the state where they rest, once all that rest there have chosen. They stand in any order.
/// After `NoMemory`, which comes also where 32 bits cannot number the functions out of the state, all rest as they did.
pub fn leave_chosen(
    alloc: Global,
    round: &Round<'_>,
    function: u32,
    route: &Route,
    pools: &mut Vec<Vec<Pool>>,
) -> Result<Vec<Row>, NoMemory>
    requires route { GoesBy round.now.program.now.model function route.now }
    requires pools { HasRoute (pools_of pools.old) route.now }
    requires dealt { AreDealt (choice_at round.now.program.now.model round.now.iteration) pools.old }
    ensures takers { IfOk result (λ takers. (place : Place) (field : Field)
        → slice_get (functions round.now.program.now.model) function ≡ Some place
        → field.pools ≡ pools_of pools.old
        → ascending takers.items ≡ taking (round_of round.now) function place field) }
    ensures others { OnOk result ((place : Place)
        → slice_get (functions round.now.program.now.model) function ≡ Some place
        → pools_of pools.new ≡ changed_pool place.agent (state_place place.type place.function.current)
        (staying (round_of round.now) function place) (pools_of pools.old)) }
    ensures unchanged { OnErr result (pools_of pools.new ≡ pools_of pools.old) }
    ensures dealt { AreDealt (choice_at round.now.program.now.model round.now.iteration) pools.new }
    ensures chosen { OnOk result (HaveChosen pools.new route.now.agent route.now.from) }
    ensures stay_chosen { (agent state : ℕ) → HaveChosen pools.old agent state → HaveChosen pools.new agent state }
{
    choose(alloc, round, function, route, pools)?;
    let takers = leave(alloc, route, pools);
    Ok(takers)
}
