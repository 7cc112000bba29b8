//! Agents choose what they take, many of them by several workers.

ghost use Rattle.std.specs.Prelude.{◌≡◌, ◌<◌, ◌≤◌, ◌^◌, [], IfOk, OnOk, length, map};
ghost use Rattle.std.specs.List.{All, flat_map};
ghost use Rattle.flame_pool.specs.Choosing.{first_place};
ghost use Rattle.flame_field.specs.KeptPools.{pool_bag, pools_of, AreDealt, HaveChosen, IsDealt};
ghost use Rattle.flame_round.specs.Choices.{choice_at};
ghost use Rattle.flame_round.specs.KeptRounds.{GoesBy, HasRoute};
ghost use Rattle.flame_layerrun.specs.LayerChoices.{AreRunChoices};

use flame_cond::Cond;
use flame_field::{Pool, exchange, pool_of};
use flame_pool::choose_rows;
use flame_round::{Round, choose, out_of};
use flame_route::Route;
use flame_rows::{NoMemory, Row, Seq, all_of, number};
use std::alloc::Global;
use std::thread;
use std::thread::Threads;

/// How many agents a run of choices has at least, but for the last, where several workers ask: these choices take two to ten
/// times as long as it takes to start a thread.
const RUN: usize = 16_384;

/// What the agents of each run of these choose, all so long but the last, which may be shorter: each run by a worker of its
/// own. Where no thread can be started, the caller does its work.
fn choose_runs<R: Threads + Sync>(
    rt: &R,
    alloc: Global,
    conditions: &Seq<Option<Cond>>,
    functions: &[u32],
    iteration: i32,
    agents: &[Row],
    size: usize,
) -> Result<Vec<Result<Seq<u32>, NoMemory>>, NoMemory>
    requires size { 0 < size }
    requires known { All (λ function. function < length conditions.now) functions.now }
    requires few { length functions.now < 2 ^ 32 }
    ensures { IfOk result (λ runs.
        AreRunChoices (first_place conditions.now functions.now iteration) size agents.now runs.items) }
{
    let runs = thread::map_chunks(
        rt,
        alloc,
        agents,
        size,
        &|_start: usize, run: &[Row]| -> Result<Seq<u32>, NoMemory>
            requires known { All (λ function. function < length conditions.now) functions.now }
            requires few { length functions.now < 2 ^ 32 }
            ensures { IfOk result (λ choices.
                choices ≡ map (first_place conditions.entry.now functions.entry.now iteration) run.now) }
        { choose_rows(alloc, run, conditions, functions, iteration) },
    )?;
    Ok(runs)
}

/// These choices, one run after another.
fn joined(alloc: Global, runs: Vec<Seq<u32>>) -> Result<Vec<u32>, NoMemory>
    ensures { IfOk result (λ choices. choices.items ≡ flat_map (λ run. run) runs.items) }
{
    let mut choices = Vec::new(alloc);
    for run in runs {
        let mut more = run.into_items();
        choices.append(&mut more)?;
    }
    Ok(choices)
}

/// How many agents a run has, so that there are no more runs than workers.
fn run_size(agents: &[Row], workers: u32) -> usize
    requires { 1 ≤ workers }
    ensures { 0 < result }
{
    (agents.len() / (workers as usize) + 1).max(RUN)
}

/// What each of these agents takes, which rest in the state that the function leaves by this route: places among the functions
/// out of it. At most so many workers ask them.
fn choices<R: Threads + Sync>(
    rt: &R,
    alloc: Global,
    workers: u32,
    round: &Round<'_>,
    function: u32,
    route: &Route,
    agents: &[Row],
) -> Result<Seq<u32>, NoMemory>
    requires some { 1 ≤ workers }
    requires route { GoesBy round.now.program.now.model function route.now }
    ensures { IfOk result (λ choices. choices
        ≡ map (choice_at round.now.program.now.model round.now.iteration route.now.agent route.now.from) agents.now) }
{
    let functions = out_of(round, function, route);
    // Agents choose by numbers of 32 bits.
    let _count = number(functions.len())?;
    let conditions = round.program.conditions();
    let size = run_size(agents, workers);
    let results = choose_runs(
        rt,
        alloc,
        conditions,
        functions,
        round.iteration,
        agents,
        size,
    )?;
    let runs = all_of(alloc, results)?;
    let joined = joined(alloc, runs)?;
    Ok(Seq::of(joined))
}

/// Those of the pool that have not chosen yet choose. After `NoMemory`, which comes also where 32 bits cannot number the
/// functions out of the state, nobody did.
fn deal<R: Threads + Sync>(
    rt: &R,
    alloc: Global,
    workers: u32,
    round: &Round<'_>,
    function: u32,
    route: &Route,
    pool: &mut Pool,
) -> Result<(), NoMemory>
    requires some { 1 ≤ workers }
    requires route { GoesBy round.now.program.now.model function route.now }
    ensures bag { pool_bag pool.new ≡ pool_bag pool.old }
    ensures dealt { IsDealt (choice_at round.now.program.now.model round.now.iteration route.now.agent route.now.from) pool.old
        → IsDealt (choice_at round.now.program.now.model round.now.iteration route.now.agent route.now.from) pool.new }
    ensures all { OnOk result (pool.new.fresh.rows.items ≡ []) }
{
    let choices = choices(
        rt,
        alloc,
        workers,
        round,
        function,
        route,
        pool.fresh.rows.as_slice(),
    )?;
    let places = out_of(round, function, route).len() + 1;
    pool.deal(choices.items(), places)
}

/// All agents in the state that the function leaves have chosen, at most so many workers asked them.
fn choose_apart<R: Threads + Sync>(
    rt: &R,
    alloc: Global,
    workers: u32,
    round: &Round<'_>,
    function: u32,
    route: &Route,
    pools: &mut Vec<Vec<Pool>>,
) -> Result<(), NoMemory>
    requires some { 1 ≤ workers }
    requires route { GoesBy round.now.program.now.model function route.now }
    requires pools { HasRoute (pools_of pools.old) route.now }
    ensures same { pools_of pools.new ≡ pools_of pools.old }
    ensures dealt { AreDealt (choice_at round.now.program.now.model round.now.iteration) pools.old
        → AreDealt (choice_at round.now.program.now.model round.now.iteration) pools.new }
    ensures chosen { OnOk result (HaveChosen pools.new route.now.agent route.now.from) }
{
    let mut pool = exchange(pools, route.agent, route.from, Pool::empty(alloc));
    let dealt = deal(rt, alloc, workers, round, function, route, &mut pool);
    exchange(pools, route.agent, route.from, pool);
    dealt
}

/// All agents in the state that the function leaves have chosen: each is asked once in each state where it rests, however many
/// functions leave the state; where many rest there, at most so many workers ask them, of which the caller is one. After
/// `NoMemory`, which comes also where 32 bits cannot number the functions out of the state, they rest as they did.
pub(crate) fn choose_all<R: Threads + Sync>(
    rt: &R,
    alloc: Global,
    workers: u32,
    round: &Round<'_>,
    function: u32,
    route: &Route,
    pools: &mut Vec<Vec<Pool>>,
) -> Result<(), NoMemory>
    requires some { 1 ≤ workers }
    requires route { GoesBy round.now.program.now.model function route.now }
    requires pools { HasRoute (pools_of pools.old) route.now }
    ensures same { pools_of pools.new ≡ pools_of pools.old }
    ensures dealt { AreDealt (choice_at round.now.program.now.model round.now.iteration) pools.old
        → AreDealt (choice_at round.now.program.now.model round.now.iteration) pools.new }
    ensures chosen { OnOk result (HaveChosen pools.new route.now.agent route.now.from) }
{
    let resting = pool_of(pools.as_slice(), route.agent, route.from)
        .fresh
        .len();
    if workers > 1 && resting >= 2 * RUN {
        choose_apart(rt, alloc, workers, round, function, route, pools)?;
        return Ok(());
    }
    choose(alloc, round, function, route, pools)?;
    Ok(())
}
