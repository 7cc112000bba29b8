//! What the passes of a lane's channel know, and how it changes. A pass of the lane sends, a pass of the board takes.

use crossbeam_channel::protocol::{Join, Lesson, Outcome, Protocol, Split};
use flame_world::Part;
use std::collections::LinkedList;

/// What a pass may do, and the parts that were sent and that were taken, as far as it knows them. No value of it is made.
pub(crate) struct Log {
    pub sends: bool,
    pub takes: bool,
    pub sent: LinkedList<Part>,
    pub taken: LinkedList<Part>,
}

/// The rule of the channel.
pub(crate) struct Relay;

impl Protocol<Part, Log> for Relay {
    ghost use Rattle.std.specs.Prelude.{true, []};
    ghost use Rattle.flame_board.specs.LaneRules.{log, IsRelayed};

    ghost holds = { IsRelayed };

    ghost first = { log true true [] [] };
}

/// One pass for both is cut into that of the lane and that of the board, and these are put together again.
pub(crate) struct Roles;

impl Split<Log> for Roles {
    ghost use Rattle.std.specs.Prelude.{true, false, []};
    ghost use Rattle.flame_board.specs.LaneRules.{log};

    ghost left = { λ v. log true false v.sent [] };

    ghost right = { λ v. log false true [] v.taken };
}

impl Join<Log> for Roles {
    ghost use Rattle.std.specs.Prelude.{true, false, []};
    ghost use Rattle.flame_board.specs.LaneRules.{log};

    ghost both = { λ v w. log true true v.sent w.taken };

    ghost spent = { log false false [] [] };
}

/// A part was sent.
pub(crate) struct Sends;

impl Outcome<Part, Log> for Sends {
    ghost use Rattle.std.specs.Prelude.{◌≡◌, ◌∷◌, ◌++◌, []};
    ghost use Rattle.flame_board.specs.LaneRules.{log};

    ghost then = { λ v part w. w ≡ log v.sends v.takes (v.sent ++ part ∷ []) v.taken };
}

impl Lesson<Part, Log> for Sends {
    ghost fact = { λ v items. Unit {0} };
}

/// A part was taken; where there is none, the pass that may do both knows that all was taken.
pub(crate) struct Takes;

impl Outcome<Part, Log> for Takes {
    ghost use Rattle.std.specs.Prelude.{◌≡◌, ◌∷◌, ◌++◌, []};
    ghost use Rattle.flame_board.specs.LaneRules.{log};

    ghost then = { λ v part w. w ≡ log v.sends v.takes v.sent (v.taken ++ part ∷ []) };
}

impl Lesson<Part, Log> for Takes {
    ghost use Rattle.std.specs.Prelude.{◌≡◌, ◌++◌};

    ghost fact = { λ v items. v.sent ≡ v.taken ++ items };
}
