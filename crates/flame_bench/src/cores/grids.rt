//! Models whose functions stand in types and layers.

use flame_events::Event;
use std::alloc::{AllocError, Global};

/// The agent types of a deep model.
const TYPES: u32 = 10;

/// A model: so many agent types, of which each goes through a function a layer, and so many agents of each type. With boards
/// the function of the first type writes one in each layer, which all functions of the next layer read.
#[derive(Clone, Copy)]
pub(crate) struct Grid {
    pub(crate) types: u32,
    pub(crate) layers: u32,
    pub(crate) agents: u32,
    pub(crate) boards: bool,
}

impl Grid {
    /// `functions` functions, of a type each.
    pub(crate) fn wide(functions: u32, agents: u32) -> Grid {
        Grid {
            types: functions,
            layers: 1,
            agents,
            boards: false,
        }
    }

    /// `functions` functions, of ten types, with boards.
    pub(crate) fn deep(functions: u32, agents: u32) -> Grid {
        Grid {
            types: TYPES,
            layers: functions / TYPES,
            agents,
            boards: true,
        }
    }

    /// The number of the function of this type in this layer.
    fn number(self, kind: u32, layer: u32) -> u32 {
        kind.saturating_mul(self.layers).saturating_add(layer)
    }

    /// How many functions there are.
    pub(crate) fn functions(self) -> u64 {
        (self.types as u64).saturating_mul(self.layers as u64)
    }

    /// Adds that the agents of a layer run, in turn.
    fn add_agents(self, events: &mut Vec<Event>, layer: u32) -> Result<(), AllocError> {
        for piece in 0..self.agents {
            for kind in 0..self.types {
                events.push(Event::Agent(self.number(kind, layer), piece))?;
            }
        }
        Ok(())
    }

    /// Adds that the messages of a layer are handed in.
    fn add_messages(self, events: &mut Vec<Event>, layer: u32) -> Result<(), AllocError> {
        for piece in 0..self.agents {
            events.push(Event::HandIn(layer, piece, layer))?;
        }
        Ok(())
    }

    /// Adds the events of a layer: all its functions are open together.
    fn add_layer(self, events: &mut Vec<Event>, layer: u32) -> Result<(), AllocError> {
        for kind in 0..self.types {
            events.push(Event::Open(self.number(kind, layer)))?;
        }
        self.add_agents(events, layer)?;
        if self.boards {
            self.add_messages(events, layer)?;
        }
        for kind in 0..self.types {
            events.push(Event::Shut(self.number(kind, layer)))?;
        }
        if self.boards {
            events.push(Event::Freeze(layer))?;
        }
        Ok(())
    }

    /// The events of an iteration, layer by layer.
    pub(crate) fn events(self, alloc: Global) -> Result<Vec<Event>, AllocError> {
        let mut events = Vec::new(alloc);
        for layer in 0..self.layers {
            self.add_layer(&mut events, layer)?;
        }
        Ok(events)
    }
}
