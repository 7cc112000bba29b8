//! The real files.

ghost use Rattle.std.specs.Prelude.{◌≡◌, ◌≤◌, length, IfOk, IfSome, OnOk};
ghost use Rattle.flame_outside.specs.Told.{bytes_of};
ghost use Rattle.flame_outside.specs.Host.{with_failed_read, with_failed_put};

use crate::depot::{Depot, Got, PutFail, ReadFail};
use crate::transfer::{read_front, write_whole};
use flame_rows::Blob;
use std::fs::File;
use std::io::ErrorKind;
use std::marker::Model;
use std::rt::Files;

/// The files of the system, by their names as given, relative to the folder that the program runs in. It tells no
/// files. A name that is not found is missing, and want of memory before a file is touched is NoMemory. Every other
/// failure raises the count of its kind of call, which stops at 18446744073709551615.
#[derive(Drop)]
pub struct HostDepot<'a, T: Files + AllocGlobal> {
    rt: &'a T,
    read_faults: u64,
    put_faults: u64,
}

impl<'a, T: Files + AllocGlobal> Model for HostDepot<'a, T> {
    ghost use Rattle.flame_outside.specs.Host.{HostFaults};

    ghost Value = { HostFaults };

    ghost view = { λ a. record { reads = a.read_faults; puts = a.put_faults } };
}

impl<'a, T: Files + AllocGlobal> HostDepot<'a, T> {
    /// The files of this runtime, with no failure so far.
    pub fn new(rt: &'a T) -> HostDepot<'a, T>
        ensures { result ≡ record { reads = 0; puts = 0 } }
    {
        HostDepot {
            rt,
            read_faults: 0,
            put_faults: 0,
        }
    }
}

/// The first bytes of the file of that name.
fn read_file<T: Files + AllocGlobal>(rt: &T, name: &str, most: usize) -> Result<Got, ReadFail>
    ensures { IfOk result (λ got. IfSome (bytes_of got) (λ bytes. length bytes ≤ most)) }
{
    match File::open(rt, name) {
        Ok(file) => {
            let mut file = file;
            let bytes = read_front(rt.alloc(), &mut file, most)?;
            Ok(Got::Bytes(Blob::of(bytes)))
        }
        Err(error) => match error.kind() {
            ErrorKind::NotFound => Ok(Got::Missing),
            ErrorKind::OutOfMemory => Err(ReadFail::NoMemory),
            _ => Err(ReadFail::Failed),
        },
    }
}

/// Makes or empties the file of that name, writes all bytes and closes it. Once the file is touched, want of memory is
/// a failure too, since NoMemory says that nothing changed.
fn write_file<T: Files + AllocGlobal>(rt: &T, name: &str, bytes: &[u8]) -> Result<(), PutFail> {
    match File::create(rt, name) {
        Ok(file) => {
            let mut file = file;
            match write_whole(&mut file, bytes) {
                Ok(()) => Ok(()),
                Err(_) => Err(PutFail::Failed),
            }
        }
        Err(error) => match error.kind() {
            ErrorKind::OutOfMemory => Err(PutFail::NoMemory),
            _ => Err(PutFail::Failed),
        },
    }
}

impl<'a, T: Files + AllocGlobal> Depot for HostDepot<'a, T> {
    ghost use Rattle.flame_outside.specs.Host.{seen_files};

    ghost seen = { seen_files };

    fn read(&mut self, name: &str, most: usize) -> Result<Got, ReadFail>
        ensures most { IfOk result (λ got. IfSome (bytes_of got) (λ bytes. length bytes ≤ most)) }
        ensures ok { OnOk result (self.new ≡ self.old) }
        ensures failed { result ≡ Err ReadFail.Failed → self.new ≡ with_failed_read self.old }
        ensures memory { result ≡ Err ReadFail.NoMemory → self.new ≡ self.old }
    {
        let answer = read_file(self.rt, name, most);
        if matches!(answer, Err(ReadFail::Failed)) {
            self.read_faults = self.read_faults.saturating_add(1);
        }
        answer
    }

    fn put(&mut self, name: &str, bytes: &[u8]) -> Result<(), PutFail>
        ensures ok { OnOk result (self.new ≡ self.old) }
        ensures failed { result ≡ Err PutFail.Failed → self.new ≡ with_failed_put self.old }
        ensures memory { result ≡ Err PutFail.NoMemory → self.new ≡ self.old }
    {
        let answer = write_file(self.rt, name, bytes);
        if matches!(answer, Err(PutFail::Failed)) {
            self.put_faults = self.put_faults.saturating_add(1);
        }
        answer
    }
}
