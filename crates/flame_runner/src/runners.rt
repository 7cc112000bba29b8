//! What runs iterations.

ghost use Rattle.std.specs.Prelude.{◌≡◌, IfOk};
ghost use Rattle.std.specs.Thread.{IsSync};
ghost use Rattle.flame_world.specs.Iterations.{iteration as meant};
ghost use Rattle.flame_world.specs.WorldFits.{FitsModel};

use flame_program::Program;
use flame_rows::NoMemory;
use flame_world::{Turn, World};
use std::alloc::Global;
use std::sync::Wait;
use std::thread::Threads;

/// What runs iterations of programs, in whatever way: each gives exactly what the source of the program means.
pub trait Runner {
    /// The runner may be run.
    ghost ready: { Self → Type 0 };

    /// The iteration of this number of a world, with this fuel for each call of a function (FLAME User Manual): the world and
    /// the boards at its end, or its fault, which is that of the first function in model order of which an agent faults, at
    /// the least of its agents that do. The world has a value for each constant of the model, and for each agent type
    /// agents as wide as it declares; so has the world at the end (`flame_world::laws::worlds_keep_their_widths`). The
    /// runtime may be shared by threads.
    fn iterate<R: Threads + Wait + Sync>(
        &mut self,
        rt: &R,
        alloc: Global,
        program: &Program,
        world: World,
        iteration: i32,
        fuel: u32,
    ) -> Result<Turn, NoMemory>
        requires sync { IsSync R.row }
        requires ready { ready self.old }
        requires fits { FitsModel program.now.model world }
        ensures turn { IfOk result (λ turn. turn ≡ meant program.now world iteration fuel) }
        ensures ready { ready self.new };
}
