//! Which function each agent of a pool takes.

ghost use Rattle.std.specs.Prelude.{◌≡◌, ◌<◌, ◌^◌, length, All, IfOk};
ghost use Rattle.flame_pool.specs.Choosing.{lets_through, first_place, choices_of};

use flame_cond::Cond;
use flame_rows::{Bag, NoMemory, Row, Seq};
use rayon::prelude::*;
use std::alloc::Global;
use std::thread::Threads;

/// Whether the condition lets an agent with this memory through. A missing one does.
fn lets_through(condition: &Option<Cond>, memory: &Row, iteration: i32) -> bool
    ensures { result ≡ lets_through condition.now memory.now iteration }
{
    match condition {
        None => true,
        Some(condition) => condition.holds(memory, iteration),
    }
}

/// The place in `functions` of the first whose condition holds; their number where none does.
fn first_place(memory: &Row, conditions: &[Option<Cond>], functions: &[u32], iteration: i32) -> u32
    requires known { All (λ function. function < length conditions.now) functions.now }
    requires few { length functions.now < 2 ^ 32 }
    ensures { result ≡ first_place conditions.now functions.now iteration memory.now }
{
    let mut place: u32 = 0;
    for function in functions {
        if lets_through(&conditions[*function as usize], memory, iteration) {
            return place;
        }
        place += 1;
    }
    place
}

/// What each agent of the pool takes in the iteration (FLAME User Manual): the place in `functions` of the first whose
/// condition holds, or their number where none does; a missing condition always holds. `functions` has numbers of
/// conditions. By as many threads as there are processors.
pub fn choose<R: Threads + Sync>(
    rt: &R,
    alloc: Global,
    pool: &Bag,
    conditions: &Seq<Option<Cond>>,
    functions: &[u32],
    iteration: i32,
) -> Result<Seq<u32>, NoMemory>
    requires known { All (λ function. function < length conditions.now) functions.now }
    requires few { length functions.now < 2 ^ 32 }
    ensures { IfOk result (λ choices. choices ≡ choices_of conditions.now functions.now iteration pool.now) }
{
    let conditions = conditions.items();
    let choices: Vec<u32> = pool
        .rows()
        .par_iter()
        .map(
            |memory: &Row| -> u32
                requires known { All (λ function. function < length conditions.now) functions.now }
                requires few { length functions.now < 2 ^ 32 }
                ensures { result ≡ first_place conditions.entry.now functions.entry.now iteration memory.now }
            { first_place(memory, conditions, functions, iteration) },
        )
        .collect(rt, alloc)?;
    Ok(Seq::of(choices))
}

/// The same on one thread.
pub fn choose_here(
    alloc: Global,
    pool: &Bag,
    conditions: &Seq<Option<Cond>>,
    functions: &[u32],
    iteration: i32,
) -> Result<Seq<u32>, NoMemory>
    requires known { All (λ function. function < length conditions.now) functions.now }
    requires few { length functions.now < 2 ^ 32 }
    ensures { IfOk result (λ choices. choices ≡ choices_of conditions.now functions.now iteration pool.now) }
{
    choose_rows(alloc, pool.rows(), conditions, functions, iteration)
}

/// The same of agents in any order.
pub fn choose_rows(
    alloc: Global,
    pool: &[Row],
    conditions: &Seq<Option<Cond>>,
    functions: &[u32],
    iteration: i32,
) -> Result<Seq<u32>, NoMemory>
    requires known { All (λ function. function < length conditions.now) functions.now }
    requires few { length functions.now < 2 ^ 32 }
    ensures { IfOk result (λ choices. choices ≡ choices_of conditions.now functions.now iteration pool.now) }
{
    let conditions = conditions.items();
    let mut choices = Vec::new(alloc);
    for memory in pool {
        choices.push(first_place(memory, conditions, functions, iteration))?;
    }
    Ok(Seq::of(choices))
}
