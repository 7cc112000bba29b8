//! Names that were given.

ghost use Rattle.std.specs.Prelude.{◌≡◌, OnOk};
ghost use Rattle.flame_nest.specs.KindTables.{with_name};

use flame_name_sets::Names;
use flame_rows::{NoMemory, Text};

/// Adds the name, where it is new.
pub fn note_name<'a>(there: &mut Names<'a>, name: &'a Text) -> Result<(), NoMemory>
    ensures { OnOk result (there.new ≡ with_name there.old name.now) }
{
    let _added = there.add(name.as_str())?;
    Ok(())
}
