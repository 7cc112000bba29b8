//! Cases of choices: the sections `model`, and `given`, with the number of an agent type, a state and an iteration, each
//! behind its word, as `agent 0`; and `pool`, which has a row a line. The answer has the functions out of the state, by
//! their numbers from 0 in document order, and what each agent of the pool chooses, in content order. Then for each place
//! the rows of those who chose it, behind `place 0`, and at the end the rows of all pools together, behind `all`.

ghost use Rattle.std.specs.Prelude.{◌≡◌, ◌<◌, ◌^◌, length, All, IsTrue, IfOk};

use crate::deciding::row_in;
use crate::readable::is_readable;
use crate::viewing::print_row;
use flame_case_files::Case;
use flame_case_models::{Found, model_in};
use flame_cond::Cond;
use flame_pool::{choose, choose_here, take, turn_over};
use flame_rows::{Bag, NoMemory, Seq};
use flame_spec::{AgentType, Condition, Model};
use std::alloc::{AllocError, Global};
use std::thread::Threads;

/// What is given: where the agents rest, and when.
#[derive(Clone, Copy)]
struct Resting<'a> {
    agent: usize,
    state: &'a str,
    iteration: i32,
}

fn given(case: &Case) -> Resting<'_> {
    Resting {
        agent: case.given("agent ").parse::<usize>().unwrap_or(0),
        state: case.given("state "),
        iteration: case.given("iteration ").parse::<i32>().unwrap_or(0),
    }
}

/// The numbers of the functions out of the state.
fn functions_out(
    alloc: Global,
    model: &Model,
    given: &Resting<'_>,
) -> Result<Vec<u32>, AllocError> {
    let mut numbers = Vec::new(alloc);
    let mut number: u32 = 0;
    for (place, agent) in model.agents.items().iter().enumerate() {
        for function in agent.functions.items() {
            if place == given.agent && function.current.as_str() == given.state {
                numbers.push(number)?;
            }
            number = number.saturating_add(1);
        }
    }
    Ok(numbers)
}

/// The condition of a function, where it can be read.
fn condition_of(
    alloc: Global,
    condition: &Option<Condition>,
    agent: &AgentType,
    model: &Model,
) -> Result<Option<Option<Cond>>, NoMemory> {
    match condition {
        None => Ok(Some(None)),
        Some(condition) if is_readable(condition, agent, &model.units) => {
            Ok(Some(Some(Cond::of(alloc, condition, agent, &model.units)?)))
        }
        Some(_) => Ok(None),
    }
}

/// The conditions of all functions in document order, where they can be read.
fn conditions_of(alloc: Global, model: &Model) -> Result<Option<Seq<Option<Cond>>>, NoMemory> {
    let mut conditions = Vec::new(alloc);
    for agent in model.agents.items() {
        for function in agent.functions.items() {
            match condition_of(alloc, &function.condition, agent, model)? {
                Some(condition) => conditions.push(condition)?,
                None => return Ok(None),
            }
        }
    }
    Ok(Some(Seq::of(conditions)))
}

/// Whether there is a condition for each of the functions, of which there are fewer than 2^32.
fn are_known(functions: &[u32], conditions: &Seq<Option<Cond>>) -> bool
    ensures { IsTrue result
        → (All (λ function. function < length conditions.now) functions.now) × (length functions.now < 2 ^ 32) }
{
    functions.len() < 4294967296
        && functions
            .iter()
            .all(|function| (*function as usize) < conditions.len())
}

/// The pool of a section.
fn pool_in(alloc: Global, text: &str) -> Result<Bag, NoMemory> {
    let mut rows = Vec::new(alloc);
    for line in text.split('\n') {
        if !line.is_empty() {
            rows.push(row_in(alloc, line)?)?;
        }
    }
    Bag::of_rows(rows)
}

fn print_numbers(out: &mut String, title: &str, numbers: &[u32]) -> Result<(), AllocError> {
    write!(out, "{title}")?;
    for number in numbers {
        write!(out, " {number}")?;
    }
    writeln!(out)
}

fn print_bag(out: &mut String, bag: &Bag) -> Result<(), AllocError> {
    for row in bag.rows() {
        print_row(out, row)?;
    }
    Ok(())
}

/// Those who chose each place up to the last, and all together again.
fn print_parts(
    alloc: Global,
    out: &mut String,
    pool: &Bag,
    choices: &Seq<u32>,
    places: u32,
) -> Result<(), NoMemory>
    requires { length choices.now ≡ length pool.now }
{
    let mut pools = Vec::new(alloc);
    for place in 0..places {
        let (takers, _) = take(pool.copy()?, choices, place)?;
        writeln!(out, "place {place}")?;
        print_bag(out, &takers)?;
        pools.push(takers)?;
    }
    let (resting, _) = take(pool.copy()?, choices, places)?;
    writeln!(out, "all")?;
    print_bag(out, &turn_over(Seq::of(pools), resting)?)?;
    Ok(())
}

/// What each agent chooses.
fn print_choices(
    rt: &(impl Threads + Sync),
    alloc: Global,
    out: &mut String,
    pool: &Bag,
    conditions: &Seq<Option<Cond>>,
    functions: &[u32],
    iteration: i32,
) -> Result<(), NoMemory>
    requires known { All (λ function. function < length conditions.now) functions.now }
    requires few { length functions.now < 2 ^ 32 }
{
    let choices = choose_here(alloc, pool, conditions, functions, iteration)?;
    let others = choose(rt, alloc, pool, conditions, functions, iteration)?;
    print_numbers(out, "choices", choices.items())?;
    if choices != others {
        print_numbers(out, "by threads", others.items())?;
    }
    print_parts(alloc, out, pool, &choices, functions.len() as u32)
}

fn print_all(
    rt: &(impl Threads + Sync),
    alloc: Global,
    out: &mut String,
    model: &Model,
    case: &Case,
) -> Result<(), NoMemory> {
    let given = given(case);
    let functions = functions_out(alloc, model, &given)?;
    print_numbers(out, "functions", functions.as_slice())?;
    let Some(conditions) = conditions_of(alloc, model)? else {
        writeln!(out, "cannot be read")?;
        return Ok(());
    };
    if !are_known(functions.as_slice(), &conditions) {
        writeln!(out, "too large")?;
        return Ok(());
    }
    let pool = pool_in(alloc, case.text("pool"))?;
    print_choices(
        rt,
        alloc,
        out,
        &pool,
        &conditions,
        functions.as_slice(),
        given.iteration,
    )
}

/// The answer to a case of the kind `choice`: what each agent chooses, and the pools that come of it.
pub fn answer_choices(
    rt: &(impl Threads + Sync),
    alloc: Global,
    case: &Case,
) -> Result<String, AllocError> {
    let model = match model_in(alloc, case)? {
        Found::Told(told) => return Ok(told),
        Found::Model(model) => model,
    };
    let mut out = String::new(alloc);
    if print_all(rt, alloc, &mut out, &model, case).is_err() {
        return Err(AllocError);
    }
    Ok(out)
}
