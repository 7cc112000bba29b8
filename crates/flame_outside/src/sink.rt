//! Printed bytes.

ghost use Rattle.std.specs.Prelude.{◌≡◌, OnOk};
ghost use Rattle.flame_outside.specs.Devices.{SeenSink};
ghost use Rattle.flame_outside.specs.Printed.{Prints, PrintsFront};
ghost use Rattle.flame_outside.specs.Frames.{Grows};
ghost use Rattle.flame_outside.specs.Failures.{WriteFailed};
ghost use Rattle.flame_outside.specs.declared.sink.WriteFail.TheVariants as write_fail;

use flame_rows::NoMemory;
use thiserror::Error;

/// Why a write failed.
#[derive(Debug, Drop, Error)]
pub enum WriteFail {
    /// Not all bytes were taken. The count of failures rose.
    #[error("the write failed")]
    Failed,
    /// Memory was not found. No byte was taken.
    #[error("no memory")]
    NoMemory,
}

impl From<NoMemory> for WriteFail {
    ghost from_gives = { λ _ fail. fail ≡ write_fail.NoMemory };

    fn from(_cause: NoMemory) -> WriteFail {
        WriteFail::NoMemory
    }
}

/// A place for bytes, one after another.
pub trait Sink {
    /// What is seen of it: the bytes so far, where it tells them, how many writes have failed, and whether none will
    /// fail. The count never falls.
    ghost seen: { Self → SeenSink };

    /// Appends all bytes. A write that failed has appended a front of them.
    fn write(&mut self, bytes: &[u8]) -> Result<(), WriteFail>
        ensures ok { OnOk result (Prints bytes.now (seen self.old) (seen self.new)) }
        ensures failed { result ≡ Err WriteFail.Failed → WriteFailed (seen self.old) (seen self.new) }
        ensures front { result ≡ Err WriteFail.Failed → PrintsFront bytes.now (seen self.old) (seen self.new) }

        // Want of memory changes nothing.
        ensures memory { result ≡ Err WriteFail.NoMemory → seen self.new ≡ seen self.old }

        // Whatever it answers.
        ensures grows { Grows (seen self.old) (seen self.new) };
}
