//! What workers begin with, and what they give back.

use crate::tasks::Task;
use flame_board::Lane;
use flame_rows::Seq;
use flame_world::Rest;

/// What one worker begins with.
#[derive(Drop)]
pub struct Job {
    /// The tasks that it runs, one after another.
    pub tasks: Seq<Task>,
    /// Its lane to the board of each message of the layer, in their order.
    pub lanes: Seq<Lane>,
}

/// What the agents of a task left besides messages.
#[derive(Debug, Drop)]
pub struct Left {
    /// The place of their function among those of the layer.
    pub place: usize,
    /// What they left.
    pub rest: Rest,
}

/// What one worker gives back.
#[derive(Drop)]
pub struct Done {
    /// What the agents of each task left.
    pub lefts: Seq<Left>,
    /// Its lanes, by which all their messages were handed in.
    pub lanes: Seq<Lane>,
}
