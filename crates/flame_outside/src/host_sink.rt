//! The real streams.

ghost use Rattle.std.specs.Prelude.{◌≡◌, OnOk};
ghost use Rattle.flame_outside.specs.Host.{raised};

use crate::sink::{Sink, WriteFail};
use crate::transfer::write_whole;
use std::io;
use std::marker::Model;

/// Which stream a sink writes to.
#[derive(Clone, Copy, Debug)]
enum Stream {
    Output,
    Error,
}

/// Standard output or standard error. It tells no bytes. Want of memory before a byte was taken is NoMemory. Every
/// other failure raises the count, which stops at 18446744073709551615. Standard error takes text alone: bytes that are
/// no UTF-8 are a failure, and so is each failure of a write there, since std does not tell how much was taken.
#[derive(Drop)]
pub struct HostSink<'a, T: Print + Eprint> {
    rt: &'a T,
    stream: Stream,
    faults: u64,
}

impl<'a, T: Print + Eprint> Model for HostSink<'a, T> {
    ghost use Rattle.std.specs.Prelude.{ℕ};

    ghost Value = { ℕ };

    ghost view = { λ a. a.faults };
}

impl<'a, T: Print + Eprint> HostSink<'a, T> {
    /// Standard output, with no failure so far.
    pub fn out(rt: &'a T) -> HostSink<'a, T>
        ensures { result ≡ 0 }
    {
        HostSink {
            rt,
            stream: Stream::Output,
            faults: 0,
        }
    }

    /// Standard error, with no failure so far.
    pub fn err(rt: &'a T) -> HostSink<'a, T>
        ensures { result ≡ 0 }
    {
        HostSink {
            rt,
            stream: Stream::Error,
            faults: 0,
        }
    }
}

/// Writes text to standard error.
fn print_text<T: Eprint>(rt: &T, bytes: &[u8]) -> Result<(), WriteFail> {
    let Ok(text) = str::from_utf8(bytes) else {
        return Err(WriteFail::Failed);
    };
    match rt.eprint(text) {
        Ok(()) => Ok(()),
        Err(_) => Err(WriteFail::Failed),
    }
}

impl<'a, T: Print + Eprint> Sink for HostSink<'a, T> {
    ghost use Rattle.flame_outside.specs.Host.{seen_stream};

    ghost seen = { seen_stream };

    fn write(&mut self, bytes: &[u8]) -> Result<(), WriteFail>
        ensures ok { OnOk result (self.new ≡ self.old) }
        ensures failed { result ≡ Err WriteFail.Failed → self.new ≡ raised self.old }
        ensures memory { result ≡ Err WriteFail.NoMemory → self.new ≡ self.old }
    {
        let answer = match self.stream {
            Stream::Output => write_whole(&mut io::writer(self.rt), bytes),
            Stream::Error => print_text(self.rt, bytes),
        };
        if matches!(answer, Err(WriteFail::Failed)) {
            self.faults = self.faults.saturating_add(1);
        }
        answer
    }
}
