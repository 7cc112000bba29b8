//! How the carrying out of an order ends.

ghost use Rattle.std.specs.Prelude.{◌≡◌};

use flame_rows::{Blob, NoMemory, Text};

/// How the carrying out of an order ends. A line has its line feed.
#[derive(Debug, Drop)]
pub enum Ending {
    /// It was carried out.
    Done,
    /// The words have a fault of usage. The line tells it.
    RefusedWords(Blob),
    /// An input is refused. The line tells why.
    Refused(Blob),
    /// An iteration faulted. The line tells it.
    Faulted(Blob),
    /// The input of that name could not be read.
    ReadFault(Text),
    /// The file of that name could not be written.
    FileFault(Text),
    /// The output could not be written.
    OutputFault,
    /// Memory was not found.
    NoMemory,
}

/// How it ended, and how many files were put.
#[derive(Debug, Drop)]
pub struct Carried {
    /// How it ended.
    pub ending: Ending,
    /// How many files were put.
    pub files: u32,
}

impl Carried {
    /// An ending before any file was put.
    pub(crate) fn before_files(ending: Ending) -> Carried
        ensures ending { result.ending ≡ ending }
        ensures files { result.files ≡ 0 }
    {
        Carried { ending, files: 0 }
    }
}

impl From<NoMemory> for Ending {
    ghost use Rattle.flame_top.specs.declared.ending.Ending.TheVariants.{NoMemory as OutOfMemory};

    ghost from_gives = { λ _ ending. ending ≡ OutOfMemory };

    fn from(_cause: NoMemory) -> Ending {
        Ending::NoMemory
    }
}
