//! Cores: an iteration that goes on by events.

mod changes;
mod ends;
mod reading;

use crate::ranks::Ranks;
use flame_field::Want;
use flame_program::Program;
use flame_progress::{Counts, Progress};
use flame_world::World;
use std::marker::Model;

/// The state of an iteration, which events bring on, in whatever legal order they come (FLAME User Manual; the events are
/// the project's own). It is seen as what the iteration goes by and how far it is, to which events led that were each legal
/// when they came.
#[derive(Drop)]
pub struct Core<'a> {
    program: &'a Program,
    world: World,
    iteration: i32,
    fuel: u32,
    pieces: u32,
    progress: Progress,
    counts: Counts,
    ranks: Ranks,
    wants: Vec<Vec<Want>>,
}

impl<'a> Model for Core<'a> {
    ghost use Rattle.std.specs.Coded.{codes};
    ghost use Rattle.flame_spec.specs.contracts.outcomes.Source as e;
    ghost use Rattle.flame_core.specs.SeenCores.{Seen};

    ghost Value = { Seen };

    ghost coded = { Prim.hlevel (codes, e.the_row.coded) };

    ghost use Rattle.flame_progress.specs.KeptCores.{core_of};
    ghost use Rattle.flame_core.specs.KeptReady.{IsKeptCore};

    ghost view = { λ c. record {
      source = c.program.now;
      world = c.world;
      iteration = c.iteration;
      fuel = c.fuel;
      pieces = c.pieces;
      core = core_of c.progress;
    } };

    ghost invariant = { λ c. IsKeptCore
        (record {
          source = c.program.now;
          world = c.world;
          iteration = c.iteration;
          fuel = c.fuel;
          pieces = c.pieces;
          core = core_of c.progress;
        })
        c.progress c.counts c.ranks };
}
