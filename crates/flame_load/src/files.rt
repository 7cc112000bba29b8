//! Files of bounded size, and the JSON values that they hold.

ghost use Rattle.std.specs.Prelude.{◌≡◌, ◌≤◌, ◌<◌, ◌^◌, length, Some, IfOk, IfErr};
ghost use Rattle.serde_json.specs.View.{view};
ghost use Rattle.flame_outside.specs.Files.{Files};
ghost use Rattle.flame_outside.specs.Frames.{OnlyReads};
ghost use Rattle.flame_outside.specs.Failures.{ReadFailed};
ghost use Rattle.flame_load.specs.FileReads.{file_in, value_in, if_json};
ghost use Rattle.flame_load.specs.FileAnswers.{Finds, IsFailed, TellsFile};
ghost use Rattle.flame_load.specs.JsonReads.{json_of};

use crate::faults::{FileFault, LoadFail, LoadFault};
use flame_outside::{Depot, Got, ReadFail};
use flame_rows::{Blob, NoMemory, Text};
use serde_json::Value;
use std::alloc::Global;

/// The most bytes of a model file or a function file.
pub(crate) const SOURCE_LIMIT: usize = 4_194_304;

/// Why a file gives nothing.
#[derive(Debug, Drop)]
pub(crate) enum FileFail {
    /// It is not as it is wanted.
    Fault(FileFault),
    /// It could not be read. The count of failed reads rose.
    Failed,
    /// Memory was not found.
    NoMemory,
}

/// The bytes of the file of that name, at most so many.
pub(crate) fn file_in<D: Depot>(depot: &mut D, name: &str, most: usize) -> Result<Blob, FileFail>
    requires { most < 2 ^ 32 }
    ensures finds { (told : Files) → (D.seen depot.old).files ≡ Some told
        → Finds (λ bytes. bytes) result (file_in told most name.now) }
    ensures short { IfOk result (λ bytes. length bytes ≤ most) }
    ensures failed { IfErr result (λ fail. IsFailed fail
        → ReadFailed (D.seen depot.old) (D.seen depot.new)) }
    ensures reads { OnlyReads (D.seen depot.old) (D.seen depot.new) }
{
    match depot.read(name, most + 1) {
        Ok(Got::Missing) => Err(FileFail::Fault(FileFault::Missing)),
        Ok(Got::Bytes(bytes)) => {
            if bytes.bytes().len() <= most {
                Ok(bytes)
            } else {
                Err(FileFail::Fault(FileFault::TooLarge))
            }
        }
        Err(ReadFail::Failed) => Err(FileFail::Failed),
        Err(ReadFail::NoMemory) => Err(FileFail::NoMemory),
    }
}

/// The JSON value that the bytes are.
#[tactic(auto, using(crate::proofs::JsonText::json_of_some, crate::proofs::JsonText::json_of_none))]
pub(crate) fn json_in(alloc: Global, bytes: &[u8]) -> Result<Value, FileFail>
    ensures finds { Finds view result (if_json (json_of bytes.now)) }
    ensures calm { IfErr result (λ fail. ¬ IsFailed fail) }
{
    match Value::from_slice(alloc, bytes) {
        Ok(value) => Ok(value),
        Err(error) => {
            if error.is_memory() {
                return Err(FileFail::NoMemory);
            }
            Err(FileFail::Fault(FileFault::NotJson))
        }
    }
}

/// The JSON value in the file of that name, of at most so many bytes.
pub(crate) fn value_in<D: Depot>(
    alloc: Global,
    depot: &mut D,
    name: &str,
    most: usize,
) -> Result<Value, FileFail>
    requires { most < 2 ^ 32 }
    ensures finds { (told : Files) → (D.seen depot.old).files ≡ Some told
        → Finds view result (value_in told most name.now) }
    ensures failed { IfErr result (λ fail. IsFailed fail
        → ReadFailed (D.seen depot.old) (D.seen depot.new)) }
    ensures reads { OnlyReads (D.seen depot.old) (D.seen depot.new) }
{
    let bytes = file_in(depot, name, most)?;
    json_in(alloc, bytes.bytes())
}

/// Why loading ends where the file of that name gives nothing.
fn why(alloc: Global, name: &str, fail: FileFail) -> Result<LoadFail, NoMemory>
    ensures { IfOk result (TellsFile name.now fail) }
{
    match fail {
        FileFail::Fault(FileFault::Missing) => {
            Ok(LoadFail::Refused(LoadFault::Missing(Text::of(alloc, name)?)))
        }
        FileFail::Fault(FileFault::TooLarge) => {
            Ok(LoadFail::Refused(LoadFault::TooLarge(Text::of(alloc, name)?)))
        }
        FileFail::Fault(FileFault::NotJson) => {
            Ok(LoadFail::Refused(LoadFault::NotJson(Text::of(alloc, name)?)))
        }
        FileFail::Failed => Ok(LoadFail::ReadFault(Text::of(alloc, name)?)),
        FileFail::NoMemory => Err(NoMemory),
    }
}

/// Why loading ends where the file of that name gives nothing, or want of memory.
pub(crate) fn load_fail(alloc: Global, name: &str, fail: FileFail) -> LoadFail
    ensures { TellsFile name.now fail result }
{
    match why(alloc, name, fail) {
        Ok(why) => why,
        Err(NoMemory) => LoadFail::NoMemory,
    }
}
