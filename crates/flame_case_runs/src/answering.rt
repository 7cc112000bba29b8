//! Cases of cores, of flows and of orders: each begins with the world that the case gives, where it fits the model of an
//! accepted source.

ghost use Rattle.std.specs.Prelude.{◌≤◌};

use crate::accepting::answer_over;
use crate::cores::core_told;
use crate::fitting::fits;
use crate::flows::flow_told;
use crate::orders::orders_told;
use crate::terms::{Terms, terms_in};
use crate::worlds::world_in;
use flame_case_files::Case;
use flame_program::Program;
use flame_rows::NoMemory;
use flame_world::World;
use std::alloc::{AllocError, Global};

/// What is called.
#[derive(Clone, Copy)]
enum Called {
    Core,
    Flow,
    Orders,
}

/// What is answered to the case by what is called, in this world, where it fits.
fn told(
    alloc: Global,
    case: &Case,
    program: &Program,
    world: World,
    terms: Terms,
    called: Called,
) -> Result<String, NoMemory>
    requires some { 1 ≤ terms.pieces }
{
    if !fits(&program.source().model, &world)? {
        return Ok(String::from_str(alloc, "the world does not fit\n")?);
    }
    match called {
        Called::Core => core_told(alloc, case, program, world, terms),
        Called::Flow => flow_told(alloc, case, program, world, terms),
        Called::Orders => orders_told(alloc, case, program, &world, terms),
    }
}

/// The same in the world that the case gives.
fn fitted(
    alloc: Global,
    case: &Case,
    program: &Program,
    called: Called,
) -> Result<String, NoMemory> {
    let terms = terms_in(case);
    if terms.pieces == 0 {
        return Ok(String::from_str(alloc, "no pieces\n")?);
    }
    let world = world_in(alloc, case, &program.source().model)?;
    told(alloc, case, program, world, terms, called)
}

/// The same over the program of the source that the case gives.
fn answer(alloc: Global, case: &Case, called: Called) -> Result<String, AllocError> {
    answer_over(
        alloc,
        case,
        |program: &Program| -> Result<String, NoMemory> { fitted(alloc, case, program, called) },
    )
}

/// The answer to a case of the kind `core`.
pub fn answer_core(alloc: Global, case: &Case) -> Result<String, AllocError> {
    answer(alloc, case, Called::Core)
}

/// The answer to a case of the kind `flow`.
pub fn answer_flow(alloc: Global, case: &Case) -> Result<String, AllocError> {
    answer(alloc, case, Called::Flow)
}

/// The answer to a case of the kind `orders`.
pub fn answer_orders(alloc: Global, case: &Case) -> Result<String, AllocError> {
    answer(alloc, case, Called::Orders)
}
