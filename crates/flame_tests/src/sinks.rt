//! Bytes in memory, of which chosen writes fail.

ghost use Rattle.std.specs.Prelude.{IsTrue};

use flame_outside::{MemSink, Sink, WriteFail};
use flame_rows::NoMemory;
use std::test::Fail;

/// Writes. Tells whether that failed; none where memory was not found.
pub(crate) fn write_failed<S: Sink>(sink: &mut S, bytes: &[u8]) -> Option<bool> {
    match sink.write(bytes) {
        Ok(()) => Some(false),
        Err(WriteFail::Failed) => Some(true),
        Err(WriteFail::NoMemory) => None,
    }
}

#[test]
fn a_write_that_fails_leaves_a_front(rt: HostRuntime) -> Result<(), Fail> {
    let alloc = rt.alloc();
    let mut sink = MemSink::new(alloc, vec![in alloc; 0]?);
    assert!(rt; write_failed(&mut sink, b"567") == Some(true));
    assert!(rt; write_failed(&mut sink, b"8") == Some(false));
    assert!(rt; sink.bytes() == b"58".as_slice());
    Ok(())
}

/// Writes to a sink that never fails, seen through its bound.
fn say<S: Sink>(sink: &mut S, bytes: &[u8]) -> Result<(), NoMemory>
    requires { IsTrue (S.seen sink.old).calm }
    ensures calm { IsTrue (S.seen sink.new).calm }
{
    match sink.write(bytes) {
        Ok(()) => Ok(()),
        Err(WriteFail::Failed) => unreachable!(),
        Err(WriteFail::NoMemory) => Err(NoMemory),
    }
}

#[test]
fn a_sink_of_an_empty_list_never_fails(rt: HostRuntime) {
    let alloc = rt.alloc();
    let mut sink = MemSink::new(alloc, Vec::new(alloc));
    assert!(rt; say(&mut sink, b"1").is_ok());
    assert!(rt; say(&mut sink, b"2").is_ok());
}
