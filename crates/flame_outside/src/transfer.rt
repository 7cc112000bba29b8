//! Whole reads and writes over any reader and writer. A call that a signal interrupted is made again.

ghost use Rattle.std.specs.Prelude.{◌≡◌, ◌+◌, ◌<◌, ◌≤◌, length, take, vec_len, IfOk, IfSome, OnOk, OnErr};
ghost use Rattle.std.specs.Io.{appended_bytes, StartsWith};
ghost use Rattle.std.specs.Io.KnownBytes.{Appends, Consumes, IsAtEnd, Keeps};

use crate::depot::ReadFail;
use crate::sink::WriteFail;
use std::alloc::Global;
use std::io;
use std::io::{ErrorKind, Read, Write};

/// How many bytes one read asks for at most.
const PIECE: usize = 8192;

/// Writes all bytes, by as many writes as that takes. A write that takes nothing is a failure. So is want of memory
/// once bytes were taken, since NoMemory says that none was.
pub fn write_whole<W: Write>(writer: &mut W, bytes: &[u8]) -> Result<(), WriteFail>
    ensures ok { OnOk result (Appends (W.contents writer.old) (W.contents writer.new) bytes.now) }
    ensures memory { result ≡ Err WriteFail.NoMemory → Keeps (W.contents writer.old) (W.contents writer.new) }
{
    let mut done = 0;
    'writes: for _ in 0..u64::MAX {
        if done >= bytes.len() {
            return Ok(());
        }
        match writer.write(&bytes[done..]) {
            Ok(0) => return Err(WriteFail::Failed),
            Ok(taken) => done += taken,
            Err(error) => match error.kind() {
                ErrorKind::Interrupted => {}
                ErrorKind::OutOfMemory if done == 0 => return Err(WriteFail::NoMemory),
                _ => return Err(WriteFail::Failed),
            },
        }
    }
    Err(WriteFail::Failed)
}

/// Makes one read of at most that many bytes, and puts them at the end. Room is made first, so that none is lost.
fn read_more<R: Read>(reader: &mut R, bytes: &mut Vec<u8>, most: usize) -> io::Result<usize>
    ensures stays { StartsWith bytes.new.items bytes.old.items }
    ensures most { IfOk result (λ taken. taken ≤ most) }
    ensures len { IfOk result (λ taken. vec_len bytes.new ≡ vec_len bytes.old + taken) }
    ensures taken { OnOk result (Consumes (R.remaining reader.old) (R.remaining reader.new)
        (appended_bytes bytes.old.items bytes.new.items)) }
    ensures end { IfOk result (λ taken. taken ≡ 0 → 0 < most → IsAtEnd (R.remaining reader.new)) }
    ensures err { OnErr result (bytes.new.items ≡ bytes.old.items) }
    ensures err_keeps { OnErr result (Keeps (R.remaining reader.old) (R.remaining reader.new)) }
{
    let mut piece = [0u8; PIECE];
    let want = most.min(PIECE);
    bytes.reserve(want)?;
    let taken = reader.read(&mut piece[..want])?;
    bytes.extend_from_slice(&piece[..taken]).unwrap();
    Ok(taken)
}

/// Reads the first `most` bytes, or all where there are fewer, and takes no more from the reader.
pub fn read_front<R: Read>(alloc: Global, reader: &mut R, most: usize) -> Result<Vec<u8>, ReadFail>
    ensures most { IfOk result (λ bytes. length bytes.items ≤ most) }
    ensures front { IfOk result (λ bytes. IfSome (R.remaining reader.old) (λ all. bytes.items ≡ take most all)) }
    ensures taken { IfOk result (λ bytes. Consumes (R.remaining reader.old) (R.remaining reader.new) bytes.items) }
{
    let mut bytes = Vec::new(alloc);
    'reads: for _ in 0..u64::MAX {
        let left = most - bytes.len();
        if left == 0 {
            return Ok(bytes);
        }
        match read_more(reader, &mut bytes, left) {
            Ok(0) => return Ok(bytes),
            Ok(_) => {}
            Err(error) => match error.kind() {
                ErrorKind::Interrupted => {}
                ErrorKind::OutOfMemory => return Err(ReadFail::NoMemory),
                _ => return Err(ReadFail::Failed),
            },
        }
    }
    Err(ReadFail::Failed)
}
