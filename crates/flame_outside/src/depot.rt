//! Named files.

ghost use Rattle.std.specs.Prelude.{◌≡◌, ◌≤◌, IfOk, IfSome, OnOk, take, length, option_map};
ghost use Rattle.std.specs.FinMap as map;
ghost use Rattle.flame_outside.specs.Devices.{SeenDepot};
ghost use Rattle.flame_outside.specs.Files.{with_file, OthersStay};
ghost use Rattle.flame_outside.specs.Frames.{OnlyReads, OnlyPuts};
ghost use Rattle.flame_outside.specs.Failures.{ReadFailed, PutFailed};
ghost use Rattle.flame_outside.specs.Told.{bytes_of};
ghost use Rattle.flame_outside.specs.declared.depot.ReadFail.TheVariants as read_fail;
ghost use Rattle.flame_outside.specs.declared.depot.PutFail.TheVariants as put_fail;

use flame_rows::{Blob, NoMemory};
use thiserror::Error;

/// What a read found.
#[derive(Debug, Drop)]
pub enum Got {
    /// No file has that name.
    Missing,
    /// The file, or its first bytes.
    Bytes(Blob),
}

/// Why a read failed.
#[derive(Debug, Drop, Error)]
pub enum ReadFail {
    /// The file could not be read. The count of failed reads rose.
    #[error("the read failed")]
    Failed,
    /// Memory was not found. Nothing changed.
    #[error("no memory")]
    NoMemory,
}

impl From<NoMemory> for ReadFail {
    ghost from_gives = { λ _ fail. fail ≡ read_fail.NoMemory };

    fn from(_cause: NoMemory) -> ReadFail {
        ReadFail::NoMemory
    }
}

/// Why a put failed.
#[derive(Debug, Drop, Error)]
pub enum PutFail {
    /// The file could not be written whole. The count of failed puts rose, and that file is in doubt.
    #[error("the put failed")]
    Failed,
    /// Memory was not found. Nothing changed.
    #[error("no memory")]
    NoMemory,
}

impl From<NoMemory> for PutFail {
    ghost from_gives = { λ _ fail. fail ≡ put_fail.NoMemory };

    fn from(_cause: NoMemory) -> PutFail {
        PutFail::NoMemory
    }
}

/// Files by name.
pub trait Depot {
    /// What is seen of it: its files, where it tells them, how many reads and how many puts have failed, and whether
    /// none will fail. No count falls.
    ghost seen: { Self → SeenDepot };

    /// The file of that name, or its first `most` bytes where it is longer.
    fn read(&mut self, name: &str, most: usize) -> Result<Got, ReadFail>
        ensures found { IfOk result (λ got. IfSome (seen self.old).files (λ told.
            bytes_of got ≡ option_map (take most) (map.get told name.now))) }
        ensures most { IfOk result (λ got. IfSome (bytes_of got) (λ bytes. length bytes ≤ most)) }
        ensures failed { result ≡ Err ReadFail.Failed → ReadFailed (seen self.old) (seen self.new) }

        // Want of memory changes nothing.
        ensures memory { result ≡ Err ReadFail.NoMemory → seen self.new ≡ seen self.old }

        // Whatever it answers.
        ensures reads { OnlyReads (seen self.old) (seen self.new) };

    /// Makes these bytes the file of that name. After a put that failed that name alone is in doubt: it may have no
    /// file, the file that it had, or any bytes.
    fn put(&mut self, name: &str, bytes: &[u8]) -> Result<(), PutFail>
        ensures ok { OnOk result ((seen self.new).files ≡ with_file name.now bytes.now (seen self.old).files) }
        ensures failed { result ≡ Err PutFail.Failed → PutFailed (seen self.old) (seen self.new) }

        // Want of memory changes nothing.
        ensures memory { result ≡ Err PutFail.NoMemory → seen self.new ≡ seen self.old }

        // Whatever it answers.
        ensures others { OthersStay name.now (seen self.old).files (seen self.new).files }
        ensures puts { OnlyPuts (seen self.old) (seen self.new) };
}
