//! With what the iteration of a case begins.

ghost use Rattle.std.specs.Prelude.{◌≡◌, IfOk};

use flame_case_files::Case;
use flame_rows::{Copied, NoMemory};
use flame_world::World;
use std::alloc::Global;

/// The number of an iteration, the fuel of each call of a function, and into how many pieces the agents of a function are
/// cut at most.
#[derive(Clone, Copy)]
pub(crate) struct Terms {
    pub iteration: i32,
    pub fuel: u32,
    pub pieces: u32,
}

/// What the lines `iteration 7`, `fuel 5` and `pieces 2` of the section `given` say: 1, 1000000 and 1 without them.
pub(crate) fn terms_in(case: &Case) -> Terms {
    Terms {
        iteration: case.given("iteration ").parse::<i32>().unwrap_or(1),
        fuel: case.given("fuel ").parse::<u32>().unwrap_or(1000000),
        pieces: case.given("pieces ").parse::<u32>().unwrap_or(1),
    }
}

/// The same world again.
pub(crate) fn world_copied(alloc: Global, world: &World) -> Result<World, NoMemory>
    ensures { IfOk result (λ copy. copy ≡ world.now) }
{
    Ok(World {
        constants: world.constants.copy()?,
        agents: world.agents.copy(alloc)?,
    })
}
