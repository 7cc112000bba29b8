//! Calls of lanes.

ghost use Rattle.std.specs.Prelude.{◌≡◌, ◌<◌, IfOk};
ghost use Rattle.flame_board.specs.LaneParts.{room_for};
ghost use Rattle.flame_board.specs.SeenLanes.{IsEndOf, IsNewLane};

use crate::lanes::{End, Lane};
use crate::layers::Due;
use crate::logs::{Log, Relay, Roles};
use crossbeam_channel::bounded_with;
use flame_rows::NoMemory;
use flame_world::Part;
use std::alloc::Global;

/// The room of a channel for so many parts.
fn room(parts: usize) -> usize
    ensures room { result ≡ room_for parts }
    ensures some { 0 < result }
{
    if parts == 0 { 1 } else { parts }
}

impl Lane {
    /// The lane of this number, by which these parts are due, and the board's end of it.
    pub(crate) fn open(alloc: Global, number: u32, dues: Vec<Due>) -> Result<(End, Lane), NoMemory>
        ensures end { IfOk result (λ made. IsEndOf made.0 made.1) }
        ensures lane { IfOk result (λ made. IsNewLane dues.items number made.1) }
    {
        let (sender, receiver, mut pass) = bounded_with::<Part, Log, Relay, Global>(
            alloc,
            room(dues.len()),
        )?;
        let boards = sender.another::<Roles>(&mut pass);
        let lane = Lane {
            number,
            dues,
            sender,
            pass,
            boards,
            stayed: Vec::new(alloc),
        };
        Ok((End { receiver }, lane))
    }
}
