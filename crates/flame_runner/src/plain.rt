//! The runner on one thread.

use crate::iterations::iterate;
use crate::runners::Runner;
use flame_program::Program;
use flame_rows::NoMemory;
use flame_world::{Turn, World};
use std::alloc::Global;
use std::sync::Wait;
use std::thread::Threads;

/// Runs the functions of a model one after another in model order, on the caller's thread.
#[derive(Debug, Drop)]
pub struct PlainRunner;

impl Runner for PlainRunner {
    ghost ready = { λ runner. Unit {0} };

    fn iterate<R: Threads + Wait + Sync>(
        &mut self,
        _rt: &R,
        alloc: Global,
        program: &Program,
        world: World,
        iteration: i32,
        fuel: u32,
    ) -> Result<Turn, NoMemory> {
        iterate(alloc, program, world, iteration, fuel)
    }
}
