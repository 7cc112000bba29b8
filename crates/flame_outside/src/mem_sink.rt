//! A sink in memory.

ghost use Rattle.std.specs.Prelude.{◌≡◌, IsTrue, IsFalse, OnOk};
ghost use Rattle.flame_outside.specs.Calls.{fails_next};
ghost use Rattle.flame_outside.specs.Memory.{new_sink, after_write, after_failed_write};

use crate::calls::NumberedCalls;
use crate::sink::{Sink, WriteFail};
use std::alloc::Global;
use std::marker::Model;

/// Bytes in memory, of which chosen writes fail. Writes are counted from 0, and those whose numbers are listed fail.
/// The counting stops at 18446744073709551615, and no write fails there. A write that finds no memory changes nothing,
/// and is not counted.
#[derive(Drop)]
pub struct MemSink {
    written: Vec<u8>,
    calls: NumberedCalls,
    faults: u64,
}

impl Model for MemSink {
    ghost use Rattle.std.specs.Prelude.{◌≤◌};
    ghost use Rattle.flame_outside.specs.Memory.{SinkInMemory};
    ghost use Rattle.flame_outside.specs.MemoryCodes.{sink_code};

    ghost Value = { SinkInMemory };

    ghost coded = { sink_code };

    ghost view = { λ a. record { written = a.written.items; calls = a.calls; faults = a.faults } };

    ghost invariant = { λ a. a.faults ≤ a.calls.counted };
}

impl MemSink {
    /// No bytes. The writes with the listed numbers will fail; none fails where the list is empty.
    pub fn new(alloc: Global, fails: Vec<u64>) -> MemSink
        ensures { result ≡ new_sink fails.items }
    {
        MemSink {
            written: Vec::new(alloc),
            calls: NumberedCalls::new(fails),
            faults: 0,
        }
    }

    /// The bytes so far.
    pub fn bytes(&self) -> &[u8]
        ensures { result.now ≡ self.now.written }
    {
        self.written.as_slice()
    }
}

impl Sink for MemSink {
    ghost use Rattle.flame_outside.specs.Memory.{seen_sink};

    ghost seen = { seen_sink };

    fn write(&mut self, bytes: &[u8]) -> Result<(), WriteFail>
        ensures ok { OnOk result (self.new ≡ after_write self.old bytes.now) }
        ensures failed { result ≡ Err WriteFail.Failed → self.new ≡ after_failed_write self.old bytes.now }
        ensures memory { result ≡ Err WriteFail.NoMemory → self.new ≡ self.old }

        // It fails exactly where its number is listed, unless it finds no memory.
        ensures listed { result ≡ Err WriteFail.Failed → IsTrue (fails_next self.old.calls) }
        ensures not_listed { OnOk result (IsFalse (fails_next self.old.calls)) }
    {
        let fails = self.calls.fails_next();
        let taken = if fails { bytes.len() / 2 } else { bytes.len() };
        if self.written.extend_from_slice(&bytes[..taken]).is_err() {
            return Err(WriteFail::NoMemory);
        }
        self.calls.count();
        if fails {
            self.faults += 1;
            return Err(WriteFail::Failed);
        }
        Ok(())
    }
}
