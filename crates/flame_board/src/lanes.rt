//! Lanes: what a worker hands in to one board.

ghost use Rattle.std.specs.Prelude.{◌≡◌, true, [], length};
ghost use Rattle.crossbeam_channel.specs.Claims.{view, IsSeatAt};
ghost use Rattle.crossbeam_channel.specs.Ends.{sends_on};
ghost use Rattle.flame_board.specs.LaneParts.{gaps};

mod calls;

use crate::layers::Due;
use crate::logs::{Log, Relay};
use crossbeam_channel::{Pass, RuledReceiver, RuledSender};
use flame_world::Part;

/// The lane of a worker to one board: what the worker's pieces send of the board's message goes by it, piece by piece.
#[derive(Drop)]
pub struct Lane {
    pub(crate) number: u32,
    pub(crate) dues: Vec<Due>,
    pub(crate) sender: RuledSender<Part, Log, Relay>,
    pub(crate) pass: Pass<Part, Log>,
    // The board's pass. A pass is not `Sync`, so it rests here until the board takes the lane.
    pub(crate) boards: Pass<Part, Log>,
    // An entry for each part that was handed in: the part itself, where a send handed it back.
    pub(crate) stayed: Vec<Option<Part>>,
    ghost seat: { IsSeatAt (sends_on sender) pass },
    ghost sends: { (view pass).sends ≡ true },
    ghost boards_seat: { IsSeatAt (sends_on sender) boards },
    ghost takes: { (view boards).takes ≡ true },
    ghost fresh: { length (view boards).taken ≡ 0 },
    ghost went: { gaps stayed.items ≡ length (view pass).sent },
}

/// The board's end of a lane's channel.
#[derive(Drop)]
pub(crate) struct End {
    pub(crate) receiver: RuledReceiver<Part, Log, Relay>,
}
