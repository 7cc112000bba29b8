//! Cases of orders of events: as those of cores, with a line `orders 1000` in `given` and without events. Orders are walked
//! depth first: all of them, or so many. Each begins anew, and ends where the core is complete or no event is legal. The
//! answer is how many were walked, and what all come to; or the first that comes to something else than the iteration does.

ghost use Rattle.std.specs.Prelude.{◌≤◌};
ghost use Rattle.flame_world.specs.WorldFits.{FitsModel};

use crate::cores::print_finish;
use crate::events::print_event;
use crate::paths::Path;
use crate::terms::{Terms, world_copied};
use crate::worlds::print_turn;
use flame_case_files::Case;
use flame_core::Core;
use flame_program::Program;
use flame_rows::NoMemory;
use flame_runner::iterate;
use flame_world::World;
use std::alloc::{AllocError, Global};

/// An order that was walked: its events, a line each, and what they come to.
#[derive(Drop)]
struct Walked {
    events: String,
    end: String,
}

/// The events that come to this core by the path, a line each.
fn events_of(alloc: Global, core: &mut Core<'_>, path: &mut Path) -> Result<String, NoMemory> {
    let mut out = String::new(alloc);
    for event in &path.follow(alloc, core)? {
        print_event(&mut out, *event)?;
    }
    Ok(out)
}

/// What the core comes to.
fn end_of(alloc: Global, core: Core<'_>) -> Result<String, NoMemory> {
    let mut out = String::new(alloc);
    print_finish(&mut out, core)?;
    Ok(out)
}

/// The order of this path, for this core.
fn walk_through(alloc: Global, mut core: Core<'_>, path: &mut Path) -> Result<Walked, NoMemory> {
    Ok(Walked {
        events: events_of(alloc, &mut core, path)?,
        end: end_of(alloc, core)?,
    })
}

/// The order of this path.
fn walk(
    alloc: Global,
    program: &Program,
    world: &World,
    terms: Terms,
    path: &mut Path,
) -> Result<Walked, NoMemory>
    requires fits { FitsModel program.now.model world.now }
    requires some { 1 ≤ terms.pieces }
{
    let core = Core::new(
        alloc,
        program,
        world_copied(alloc, world)?,
        terms.iteration,
        terms.fuel,
        terms.pieces,
    )?;
    walk_through(alloc, core, path)
}

/// What the iteration comes to.
fn iterated(
    alloc: Global,
    program: &Program,
    world: &World,
    terms: Terms,
) -> Result<String, NoMemory>
    requires fits { FitsModel program.now.model world.now }
{
    let world = world_copied(alloc, world)?;
    let turn = iterate(alloc, program, world, terms.iteration, terms.fuel)?;
    let mut out = String::new(alloc);
    print_turn(&mut out, &turn)?;
    Ok(out)
}

/// That so many orders came to this, and what is said of others.
fn alike(alloc: Global, orders: u32, others: &str, end: &str) -> Result<String, AllocError> {
    let mut out = String::new(alloc);
    writeln!(out, "orders {orders}{others}")?;
    writeln!(out, "all alike")?;
    out.push_str(end)?;
    Ok(out)
}

/// That of so many orders the last came to something else than the iteration.
fn differing(
    alloc: Global,
    orders: u32,
    walked: &Walked,
    wanted: &str,
) -> Result<String, AllocError> {
    let mut out = String::new(alloc);
    writeln!(out, "orders {orders}")?;
    out.push_str("the last differs\n")?;
    out.push_str(walked.events.as_str())?;
    out.push_str("it comes to\n")?;
    out.push_str(walked.end.as_str())?;
    out.push_str("the iteration comes to\n")?;
    out.push_str(wanted)?;
    Ok(out)
}

/// What the orders come to, this many at most, beside what the iteration comes to.
fn compared(
    alloc: Global,
    program: &Program,
    world: &World,
    terms: Terms,
    most: u32,
    wanted: &str,
) -> Result<String, NoMemory>
    requires fits { FitsModel program.now.model world.now }
    requires some { 1 ≤ terms.pieces }
{
    let mut path = Path::new(alloc);
    for before in 0..most {
        let order = walk(alloc, program, world, terms, &mut path)?;
        if order.end.as_str() != wanted {
            return Ok(differing(alloc, before + 1, &order, wanted)?);
        }
        if !path.turn()? {
            return Ok(alike(alloc, before + 1, "", wanted)?);
        }
    }
    Ok(alike(alloc, most, ", more are left", wanted)?)
}

/// The same, with as many orders as the case gives.
pub(crate) fn orders_told(
    alloc: Global,
    case: &Case,
    program: &Program,
    world: &World,
    terms: Terms,
) -> Result<String, NoMemory>
    requires fits { FitsModel program.now.model world.now }
    requires some { 1 ≤ terms.pieces }
{
    let most = case.given("orders ").parse::<u32>().unwrap_or(1000);
    let wanted = iterated(alloc, program, world, terms)?;
    compared(alloc, program, world, terms, most, wanted.as_str())
}
