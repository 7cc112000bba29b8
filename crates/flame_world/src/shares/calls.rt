//! Calls of shares.

ghost use Rattle.std.specs.Prelude.{◌≡◌};
ghost use Rattle.flame_world.specs.Meaning.{IsMeaning};
ghost use Rattle.flame_world.specs.Shares.{setting_of, piece_of, rest_of, parts_of};

use crate::pieces::{Part, Piece, Rest};
use crate::settings::Setting;
use crate::shares::Share;
use flame_rows::Seq;

impl<'a> Share<'a> {
    /// The share of this piece under this setting.
    pub fn new(setting: Setting<'a>, piece: Piece, rest: Rest, parts: Seq<Part>) -> Share<'a>
        requires { IsMeaning setting piece rest parts }
        ensures setting { setting_of result ≡ setting.entry }
        ensures piece { piece_of result ≡ piece }
        ensures rest { rest_of result ≡ rest }
        ensures parts { parts_of result ≡ parts }
    {
        Share {
            setting,
            piece,
            rest,
            parts,
        }
    }

    /// Its setting.
    pub fn setting(&self) -> &Setting<'a>
        ensures { result.now ≡ setting_of self.now }
    {
        &self.setting
    }

    /// Its piece.
    pub fn piece(&self) -> &Piece
        ensures { result.now ≡ piece_of self.now }
    {
        &self.piece
    }

    /// What its agents leave: the meaning of the function over the piece under the setting.
    pub fn split(self) -> (Rest, Seq<Part>)
        ensures rest { result.0 ≡ rest_of self.entry }
        ensures parts { result.1 ≡ parts_of self.entry }
        ensures meant { IsMeaning (setting_of self.entry) (piece_of self.entry) result.0 result.1 }
    {
        (self.rest, self.parts)
    }
}
