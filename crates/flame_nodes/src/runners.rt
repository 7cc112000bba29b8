//! The runner by nodes.

ghost use Rattle.std.specs.Prelude.{◌≡◌, ◌≤◌, IfOk};
ghost use Rattle.flame_world.specs.Iterations.{iteration as meant};
ghost use Rattle.flame_world.specs.WorldFits.{FitsModel};

use crate::iterations::iterate;
use crate::steps::Crew;
use flame_outside::Gate;
use flame_program::Program;
use flame_rows::{NoMemory, Text};
use flame_world::{Turn, World};
use std::alloc::Global;
use std::sync::Wait;
use std::thread::Threads;

/// Runs iterations by nodes: the functions run one after another in model order; the agents that take a function are parted among
/// so many nodes, each of which runs its part in a thread of its own, but the last, which is the caller, and sends back what they
/// leave.
#[derive(Drop)]
pub struct Nodes<'g, G: Gate> {
    gate: &'g G,
    nodes: u32,
    by: Option<Text>,
    ghost some: { 1 ≤ nodes },
}

impl<'g, G: Gate> Nodes<'g, G> {
    ghost use Rattle.flame_nodes.specs.SeenNodes.{count_of, gate_of, name_of};

    /// A runner with so many nodes, one at least, of which the caller is one. They call the gate just before they run a piece. A
    /// piece whose thread cannot be started is run by the caller without a call, one whose share does not arrive without a further
    /// one.
    /// Where the name of a variable is given, agents of a type that has a single variable of this name are parted by the ranges
    /// of its column, and those of every other type by rounds, as all are where none is given (`Parting`).
    pub fn new(gate: &'g G, nodes: u32, by: Option<Text>) -> Nodes<'g, G>
        requires { 1 ≤ nodes }
        ensures gate { gate_of result ≡ gate.now }
        ensures nodes { count_of result ≡ nodes }
        ensures by { name_of result ≡ by }
    {
        Nodes { gate, nodes, by }
    }

    /// The iteration of this number of a world, with this fuel for each call of a function (FLAME User Manual): the world and
    /// the boards at its end, or its fault, which is that of the first function in model order of which an agent faults, at
    /// the least of its agents that do, whatever the number of nodes, the variable by which agents are parted and the gate, and
    /// in whatever order shares arrive, if they do. The world has a value for each constant of the model, and for each agent
    /// type agents as wide as it declares. Where threads cannot be started, the caller does their work.
    pub fn iterate<R: Threads + Wait + Sync>(
        &self,
        rt: &R,
        alloc: Global,
        program: &Program,
        world: World,
        iteration: i32,
        fuel: u32,
    ) -> Result<Turn, NoMemory>
        requires { FitsModel program.now.model world }
        ensures { IfOk result (λ turn. turn ≡ meant program.now world iteration fuel) }
    {
        let crew = Crew {
            gate: self.gate,
            nodes: self.nodes,
            by: &self.by,
        };
        iterate(rt, alloc, &crew, program, world, iteration, fuel)
    }
}
