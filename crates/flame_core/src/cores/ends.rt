//! What a core comes to.

ghost use Rattle.std.specs.Prelude.{◌≡◌, IfOk, true};
ghost use Rattle.flame_world.specs.Iterations.{iteration as meant};
ghost use Rattle.flame_events.specs.CoreEnds.{is_complete};

use crate::cores::Core;
use crate::ending::ended;
use flame_events::laws::every_order;
use flame_rows::NoMemory;
use flame_world::{Turn, World};

impl<'a> Core<'a> {
    /// The turn of the iteration, whatever the order in which its events came. The core is complete.
    pub fn finish(self) -> Result<Turn, NoMemory>
        requires { is_complete self.source.model self.core ≡ true }
        ensures { IfOk result (λ turn. turn
            ≡ meant self.entry.source self.entry.world self.entry.iteration self.entry.fuel) }
    {
        every_order();
        let Core {
            program,
            world,
            progress,
            ..
        } = self;
        let World { constants, .. } = world;
        let _source = program.source();
        let alloc = *progress.field.born.allocator();
        ended(alloc, program, constants, progress)
    }
}
