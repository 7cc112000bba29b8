//! Whole reads and writes over streams that fail in the middle.

ghost use Rattle.std.specs.Prelude.{◌≤◌, IfOk};

use flame_outside::{ReadFail, WriteFail, read_front, write_whole};
use std::alloc::Global;
use std::io;
use std::io::{ErrorKind, Read, Write};

/// What a call of a stream made up for a test does.
#[derive(Clone, Copy)]
enum Call {
    Take(usize),
    Fail(ErrorKind),
}

/// A stream that does as it is told, call after call, and takes or gives nothing after that.
#[derive(Drop)]
struct Scripted<'a> {
    calls: &'a [Call],
}

impl Scripted<'_> {
    fn next(&mut self, room: usize) -> io::Result<usize>
        ensures { IfOk result (λ count. count ≤ room) }
    {
        let Some((call, rest)) = self.calls.split_first() else {
            return Ok(0);
        };
        self.calls = rest;
        match call {
            Call::Take(count) => Ok((*count).min(room)),
            Call::Fail(kind) => Err(io::Error::from(*kind)),
        }
    }
}

impl Write for Scripted<'_> {
    fn write(&mut self, buf: &[u8]) -> io::Result<usize> {
        self.next(buf.len())
    }

    fn flush(&mut self) -> io::Result<()> {
        Ok(())
    }
}

impl Read for Scripted<'_> {
    fn read(&mut self, buf: &mut [u8]) -> io::Result<usize> {
        self.next(buf.len())
    }
}

/// Whether a write of five bytes failed; none where memory was not found.
fn write_failed(calls: &[Call]) -> Option<bool> {
    match write_whole(&mut Scripted { calls }, b"12345") {
        Ok(()) => Some(false),
        Err(WriteFail::Failed) => Some(true),
        Err(WriteFail::NoMemory) => None,
    }
}

/// How many bytes a read of at most four finds; none where memory was not found.
fn read(alloc: Global, calls: &[Call]) -> Option<usize> {
    match read_front(alloc, &mut Scripted { calls }, 4) {
        Ok(bytes) => Some(bytes.len()),
        Err(ReadFail::Failed) => Some(usize::MAX),
        Err(ReadFail::NoMemory) => None,
    }
}

#[test]
fn transfers_go_on_after_interrupted_calls(rt: HostRuntime) {
    let interrupted = Call::Fail(ErrorKind::Interrupted);
    let calls = [interrupted, Call::Take(1), interrupted, Call::Take(4)];
    assert!(rt; write_failed(&calls) == Some(false));
    assert!(rt; read(rt.alloc(), &calls) == Some(4));
}

#[test]
fn transfers_end_where_nothing_more_is_taken(rt: HostRuntime) {
    let calls = [Call::Take(2)];
    assert!(rt; write_failed(&calls) == Some(true));
    assert!(rt; read(rt.alloc(), &calls) == Some(2));
}

#[test]
fn memory_may_be_wanting_before_the_first_byte(rt: HostRuntime) {
    let calls = [Call::Fail(ErrorKind::OutOfMemory)];
    assert!(rt; write_failed(&calls) == None);
    assert!(rt; read(rt.alloc(), &calls) == None);
}

#[test]
fn memory_may_be_wanting_later(rt: HostRuntime) {
    let calls = [Call::Take(1), Call::Fail(ErrorKind::OutOfMemory)];
    assert!(rt; write_failed(&calls) == Some(true));
    assert!(rt; read(rt.alloc(), &calls) == None);
}
