//! With what cores begin, and the questions `starts from`, which ask whether a core began so: with what the case gives, where
//! words behind them change a part of it. `starts from agent 0 [9] [8]` has these agents alone of this type.

use crate::changes::{Change, change_in};
use crate::terms::{Terms, world_copied};
use flame_core::Core;
use flame_program::Program;
use flame_rows::{Bag, NoMemory, Seq};
use flame_world::World;
use std::alloc::Global;

/// With what a core begins.
#[derive(Drop)]
pub(crate) struct Beginning<'a> {
    pub(crate) program: &'a Program,
    pub(crate) world: World,
    pub(crate) terms: Terms,
}

/// The world with these agents of this type; none where it has no such type.
fn with_agents(world: World, kind: u32, rows: Bag) -> Option<World> {
    let World { constants, agents } = world;
    let mut bags = agents.into_items();
    match bags.get_mut(kind as usize) {
        Some(own) => *own = rows,
        None => return None,
    }
    Some(World {
        constants,
        agents: Seq::of(bags),
    })
}

impl<'a> Beginning<'a> {
    /// The same again.
    fn copied(&self, alloc: Global) -> Result<Beginning<'a>, NoMemory> {
        Ok(Beginning {
            program: self.program,
            world: world_copied(alloc, &self.world)?,
            terms: self.terms,
        })
    }

    /// The same but for this change; none where it has no such part.
    fn changed(self, change: Change) -> Option<Beginning<'a>> {
        let Beginning {
            program,
            mut world,
            mut terms,
        } = self;
        match change {
            Change::Nothing => {}
            Change::Fuel(fuel) => terms.fuel = fuel,
            Change::Iteration(iteration) => terms.iteration = iteration,
            Change::Pieces(pieces) => terms.pieces = pieces,
            Change::Constants(constants) => world.constants = constants,
            Change::OfType(kind, rows) => world = with_agents(world, kind, rows)?,
            Change::Agents(_) => return None,
            Change::Board(_, _) => return None,
        }
        Some(Beginning {
            program,
            world,
            terms,
        })
    }

    /// Whether the core began so.
    pub(crate) fn is_of(&self, core: &Core<'_>) -> bool {
        let terms = self.terms;
        core.starts_from(
            self.program,
            &self.world,
            terms.iteration,
            terms.fuel,
            terms.pieces,
        )
    }

    /// The same but for what these words change; none where they change no part.
    pub(crate) fn asked(
        &self,
        alloc: Global,
        words: &str,
    ) -> Result<Option<Beginning<'a>>, NoMemory> {
        match change_in(alloc, words)? {
            Some(change) => Ok(self.copied(alloc)?.changed(change)),
            None => Ok(None),
        }
    }
}
