//! The runner by layers.

ghost use Rattle.std.specs.Prelude.{◌≡◌, ◌≤◌, IfOk};
ghost use Rattle.flame_world.specs.Iterations.{iteration as meant};
ghost use Rattle.flame_world.specs.WorldFits.{FitsModel};

use crate::iterations::iterate;
use crate::layers::Crew;
use flame_outside::Gate;
use flame_program::Program;
use flame_rows::NoMemory;
use flame_world::{Turn, World};
use std::alloc::Global;
use std::sync::Wait;
use std::thread::Threads;

/// Runs iterations by layers, with so many workers, of which the caller is one: the functions of a layer run side by side,
/// their agents in pieces that the workers share, and the layers one after another.
#[derive(Drop)]
pub struct Layers<'g, G: Gate> {
    gate: &'g G,
    workers: u32,
    ghost some: { 1 ≤ workers },
}

impl<'g, G: Gate> Layers<'g, G> {
    /// A runner with so many workers, one at least. They call the gate just before they run a piece.
    pub fn new(gate: &'g G, workers: u32) -> Layers<'g, G>
        requires { 1 ≤ workers }
    {
        Layers { gate, workers }
    }

    /// The iteration of this number of a world, with this fuel for each call of a function (FLAME User Manual): the world and
    /// the boards at its end, or its fault, which is that of the first function in model order of which an agent faults, at
    /// the least of its agents that do, whatever the number of workers and the gate. The world has a value for each constant
    /// of the model, and for each agent type agents as wide as it declares. Where threads cannot be started, the caller does
    /// their work.
    pub fn iterate<R: Threads + Wait + Sync>(
        &self,
        rt: &R,
        alloc: Global,
        program: &Program,
        world: World,
        iteration: i32,
        fuel: u32,
    ) -> Result<Turn, NoMemory>
        requires { FitsModel program.now.model world }
        ensures { IfOk result (λ turn. turn ≡ meant program.now world iteration fuel) }
    {
        let crew = Crew {
            gate: self.gate,
            workers: self.workers,
        };
        iterate(rt, alloc, &crew, program, world, iteration, fuel)
    }
}
