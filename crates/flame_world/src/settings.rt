//! What the agents of a piece have before them.

ghost use Rattle.std.specs.Prelude.{IsTrue, ◌↔◌, ◌≡◌, map};
ghost use Rattle.flame_index.specs.FrozenBoards.{shared_messages};
ghost use Rattle.flame_world.specs.Settings.{SameSetting};

use flame_index::Frozen;
use flame_rows::{Row, Same, Seq};
use flame_spec::Source;
use std::sync::Arc;

/// What the agents of a piece have before them.
#[derive(Clone, Copy)]
pub struct Setting<'a> {
    /// The model and its function files.
    pub source: &'a Source,
    /// The constants, in the order of the model.
    pub constants: &'a Row,
    /// The board of each input of the function, in their order.
    pub boards: &'a Seq<Arc<Frozen>>,
    /// The number of the iteration.
    pub iteration: i32,
    /// The fuel of each call of the function.
    pub fuel: u32,
}

/// Whether both boards have the same messages.
fn same_board(one: &Arc<Frozen>, two: &Arc<Frozen>) -> bool
    ensures { IsTrue result ↔ (shared_messages one.now ≡ shared_messages two.now) }
{
    one.bag().same(two.bag())
}

/// Whether both are the same boards in the same order.
fn same_boards(ones: &[Arc<Frozen>], twos: &[Arc<Frozen>]) -> bool
    ensures { IsTrue result ↔ (map shared_messages ones.now ≡ map shared_messages twos.now) }
{
    if ones.len() != twos.len() {
        return false;
    }
    for i in 0..ones.len() {
        if !same_board(&ones[i], &twos[i]) {
            return false;
        }
    }
    true
}

impl Setting<'_> {
    /// Whether the two have equal sources, constants, boards, iterations and fuels.
    pub fn same(&self, other: &Setting<'_>) -> bool
        ensures { IsTrue result ↔ SameSetting self.now other.now }
    {
        self.iteration == other.iteration
            && self.fuel == other.fuel
            && self.constants.same(other.constants)
            && same_boards(self.boards.items(), other.boards.items())
            && self.source.same(other.source)
    }
}
