//! Iterations with their histories.

use flame_events::Event;
use flame_rows::Seq;
use flame_world::Turn;

/// What an iteration came to, and the events of a core that came to it, in the order in which they did.
#[derive(Drop)]
pub struct Recorded {
    /// What it came to.
    pub turn: Turn,
    /// The events, in their order.
    pub events: Seq<Event>,
}
