//! Cases of iterations: the section `model` is a model in JSON, each section `text` a function file, in the order of the
//! model; `given` has lines `constants [1000]`, `iteration 7`, `fuel 5` and, for each agent, `agent 0 [1, 2]`, its type and
//! its memory. The answer is the end of the iteration, or its fault.

ghost use Rattle.std.specs.Prelude.{◌≡◌, IfOk};
ghost use Rattle.flame_world.specs.Iterations.{iteration as meant};
ghost use Rattle.flame_world.specs.WorldFits.{FitsModel};

use crate::accepting::answer_over;
use crate::fitting::fits;
use crate::terms::terms_in;
use crate::worlds::{print_turn, world_in};
use flame_case_files::Case;
use flame_program::Program;
use flame_rows::NoMemory;
use flame_runner::{ClosureRunner, PlainRunner, Runner, iterate};
use flame_world::{Turn, World};
use std::alloc::{AllocError, Global};
use std::sync::Wait;
use std::thread::Threads;

/// What the given iteration of the world comes to.
fn iterated(
    rt: &(impl Threads + Wait + Sync),
    alloc: Global,
    case: &Case,
    program: &Program,
    world: World,
) -> Result<String, NoMemory>
    requires { FitsModel program.now.model world }
{
    let terms = terms_in(case);
    let turn = PlainRunner.iterate(rt, alloc, program, world, terms.iteration, terms.fuel)?;
    let mut out = String::new(alloc);
    print_turn(&mut out, &turn)?;
    Ok(out)
}

/// The same by a closure that is a runner.
fn iterated_by_closure(
    rt: &(impl Threads + Wait + Sync),
    alloc: Global,
    case: &Case,
    program: &Program,
    world: World,
) -> Result<String, NoMemory>
    requires { FitsModel program.now.model world }
{
    let call = |alloc: Global, program: &Program, world: World, iteration: i32, fuel: u32| -> Result<
        Turn,
        NoMemory,
    >
        requires { FitsModel program.now.model world }
        ensures { IfOk result (λ turn. turn ≡ meant program.now world iteration fuel) }
    { iterate(alloc, program, world, iteration, fuel) };
    let terms = terms_in(case);
    let mut runner = ClosureRunner { call };
    let turn = runner.iterate(rt, alloc, program, world, terms.iteration, terms.fuel)?;
    let mut out = String::new(alloc);
    print_turn(&mut out, &turn)?;
    Ok(out)
}

/// What both runners answer, which is one text.
fn both(one: String, other: &str) -> Result<String, NoMemory> {
    let mut out = one;
    if out.as_str() != other {
        out.push_str("by a closure:\n")?;
        out.push_str(other)?;
    }
    Ok(out)
}

/// The same by one of both runners, of the world that the case gives, where it fits.
fn one_way(
    rt: &(impl Threads + Wait + Sync),
    alloc: Global,
    case: &Case,
    program: &Program,
    by_closure: bool,
) -> Result<String, NoMemory> {
    let model = &program.source().model;
    let world = world_in(alloc, case, model)?;
    if !fits(model, &world)? {
        return Ok(String::from_str(alloc, "the world does not fit\n")?);
    }
    if by_closure {
        return iterated_by_closure(rt, alloc, case, program, world);
    }
    iterated(rt, alloc, case, program, world)
}

/// The same by both.
fn fitted(
    rt: &(impl Threads + Wait + Sync),
    alloc: Global,
    case: &Case,
    program: &Program,
) -> Result<String, NoMemory> {
    let one = one_way(rt, alloc, case, program, false)?;
    let other = one_way(rt, alloc, case, program, true)?;
    both(one, other.as_str())
}

/// The answer to a case of the kind `iteration`.
pub fn answer_iteration(
    rt: &(impl Threads + Wait + Sync),
    alloc: Global,
    case: &Case,
) -> Result<String, AllocError> {
    answer_over(
        alloc,
        case,
        |program: &Program| -> Result<String, NoMemory> { fitted(rt, alloc, case, program) },
    )
}
