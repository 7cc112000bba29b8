//! Which parts are due by which lane.

ghost use Rattle.std.specs.Prelude.{◌≡◌, ◌<◌, IfOk};
ghost use Rattle.flame_spec.specs.Below.{is_in};
ghost use Rattle.flame_board.specs.LayerPieces.{lane_dues};

use crate::layers::{Due, Layer};
use flame_rows::NoMemory;
use std::alloc::Global;

/// Whether the message is one of these.
fn is_among(messages: &[u32], message: u32) -> bool
    ensures { result ≡ is_in message messages.now }
{
    for one in messages {
        if *one == message {
            return true;
        }
    }
    false
}

/// The parts of the message that are due by this lane, in order. No piece of another lane is looked at.
pub(crate) fn dues_of(
    alloc: Global,
    layer: &Layer,
    message: u32,
    lane: u32,
) -> Result<Vec<Due>, NoMemory>
    requires { lane < layer.now.lanes }
    ensures { IfOk result (λ dues. dues.items ≡ lane_dues layer.now message lane) }
{
    let keys = layer.pieces.items();
    let mut dues = Vec::new(alloc);
    let mut place = lane as usize;
    while place < keys.len() {
        let key = &keys[place];
        if is_among(key.outputs.items(), message) {
            dues.push(Due {
                function: key.function,
                number: key.number,
                message,
            })?;
        }
        place += layer.lanes as usize;
    }
    Ok(dues)
}
