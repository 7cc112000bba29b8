//! Runners that are closures.

ghost use Rattle.std.specs.Prelude.{◌≡◌, IfOk};
ghost use Rattle.flame_world.specs.Iterations.{iteration as meant};
ghost use Rattle.flame_world.specs.WorldFits.{FitsModel};

use crate::runners::Runner;
use flame_program::Program;
use flame_rows::NoMemory;
use flame_world::{Turn, World};
use std::alloc::Global;
use std::sync::Wait;
use std::thread::Threads;

/// A runner that is a closure: it gives the turn of an iteration of a world that fits the model. So whoever calls runners by
/// their trait takes also one whose type the trait cannot name, as one that is generic in what its threads wait at.
#[derive(Drop)]
pub struct ClosureRunner<F: Fn(Global, &Program, World, i32, u32) -> Result<Turn, NoMemory>> {
    /// Gives the turn of the iteration of this number of this world, with this fuel for each call of a function.
    pub call: F,
}

impl<F: Fn(Global, &Program, World, i32, u32) -> Result<Turn, NoMemory>> Runner
    for ClosureRunner<F> {
    ghost ready = { λ runner. (alloc : _) (program : _) (world : _) (iteration : _) (fuel : _)
        → FitsModel program.now.model world
        → F.pre runner.call alloc program world iteration fuel
        × ((result : _) → F.post runner.call alloc program world iteration fuel result
        → IfOk result (λ turn. turn ≡ meant program.now world iteration fuel)) };

    fn iterate<R: Threads + Wait + Sync>(
        &mut self,
        _rt: &R,
        alloc: Global,
        program: &Program,
        world: World,
        iteration: i32,
        fuel: u32,
    ) -> Result<Turn, NoMemory> {
        (self.call)(alloc, program, world, iteration, fuel)
    }
}
