//! What a run starts from.

use flame_world::World;

/// What a run starts from.
#[derive(Debug, Drop)]
pub struct Start {
    /// The number of the iteration that the population is of, from 0.
    pub itno: i32,
    /// Its agents and constants.
    pub world: World,
}
