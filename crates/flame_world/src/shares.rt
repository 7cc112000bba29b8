//! What a piece of a function's work leaves.

ghost use Rattle.flame_world.specs.Meaning.{IsMeaning};

mod calls;

use crate::pieces::{Part, Piece, Rest};
use crate::settings::Setting;
use flame_rows::Seq;

/// A piece of a function's work, with its setting and with what the function's meaning leaves of it.
#[derive(Drop)]
pub struct Share<'a> {
    setting: Setting<'a>,
    piece: Piece,
    rest: Rest,
    parts: Seq<Part>,
    ghost meant: { IsMeaning setting piece rest parts },
}
