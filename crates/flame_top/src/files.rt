//! Files that are put.

ghost use Rattle.std.specs.Prelude.{◌≡◌, IfErr, OnOk};
ghost use Rattle.flame_outside.specs.Files.{with_file, OthersStay};
ghost use Rattle.flame_outside.specs.Frames.{OnlyPuts};
ghost use Rattle.flame_top.specs.Printing.{StopsPut};

use crate::ending::Ending;
use flame_outside::{Depot, PutFail};
use flame_rows::Text;
use std::alloc::Global;

/// Puts these bytes as the file of that name.
pub(crate) fn put_file<D: Depot>(
    alloc: Global,
    name: &str,
    bytes: &[u8],
    depot: &mut D,
) -> Result<(), Ending>
    ensures ok { OnOk result ((D.seen depot.new).files ≡ with_file name.now bytes.now (D.seen depot.old).files) }
    ensures stops { IfErr result (StopsPut name.now (D.seen depot.old) (D.seen depot.new)) }
    ensures others { OthersStay name.now (D.seen depot.old).files (D.seen depot.new).files }
    ensures puts { OnlyPuts (D.seen depot.old) (D.seen depot.new) }
{
    let file = Text::of(alloc, name)?;
    match depot.put(name, bytes) {
        Ok(()) => Ok(()),
        Err(PutFail::Failed) => Err(Ending::FileFault(file)),
        Err(PutFail::NoMemory) => Err(Ending::NoMemory),
    }
}
