//! Files in memory.

ghost use Rattle.std.specs.Prelude.{◌≡◌, ◌↔◌, IsTrue, IsFalse, IfOk, OnOk, OnErr, take, option_map};
ghost use Rattle.std.specs.FinMap as map;
ghost use Rattle.flame_outside.specs.Told.{bytes_of};
ghost use Rattle.flame_outside.specs.Calls.{fails_next};
ghost use Rattle.flame_outside.specs.Memory.{new_depot, depot_with_file, after_call, after_failed_read, after_put, after_failed_put, total_of};

use crate::calls::NumberedCalls;
use crate::depot::{Depot, Got, PutFail, ReadFail};
use crate::named_files::NamedFiles;
use flame_rows::NoMemory;
use std::alloc::Global;
use std::marker::Model;

/// Files in memory, of which chosen reads and puts fail. Reads and puts are counted together from 0, and those whose
/// numbers are listed fail. The counting stops at 18446744073709551615, and no call fails there. A call that finds no
/// memory changes nothing, and is not counted.
#[derive(Drop)]
pub struct MemDepot {
    files: NamedFiles,
    calls: NumberedCalls,
    read_faults: u64,
    put_faults: u64,
}

impl Model for MemDepot {
    ghost use Rattle.std.specs.Prelude.{◌+◌, ◌≤◌};
    ghost use Rattle.flame_outside.specs.Memory.{DepotInMemory};
    ghost use Rattle.flame_outside.specs.MemoryCodes.{depot_code};

    ghost Value = { DepotInMemory };

    ghost coded = { depot_code };

    ghost view = { λ a. record {
      files = a.files;
      calls = a.calls;
      read_faults = a.read_faults;
      put_faults = a.put_faults;
    } };

    ghost invariant = { λ a. a.read_faults + a.put_faults ≤ a.calls.counted };
}

impl MemDepot {
    /// No files. The calls with the listed numbers will fail; none fails where the list is empty.
    pub fn new(alloc: Global, fails: Vec<u64>) -> MemDepot
        ensures { result ≡ new_depot fails.items }
    {
        MemDepot {
            files: NamedFiles::new(alloc),
            calls: NumberedCalls::new(fails),
            read_faults: 0,
            put_faults: 0,
        }
    }

    /// Makes these bytes the file of that name. It is not counted as a call.
    pub fn set(&mut self, name: &str, bytes: &[u8]) -> Result<(), NoMemory>
        ensures ok { OnOk result (self.new ≡ depot_with_file self.old name.now bytes.now) }
        ensures err { OnErr result (self.new ≡ self.old) }
    {
        self.files.set(name, bytes)
    }

    /// The file of that name, None exactly where there is none. It is not counted as a call.
    pub fn get(&self, name: &str) -> Option<&[u8]>
        ensures { option_map (λ bytes. bytes.now) result ≡ map.get self.now.files name.now }
    {
        self.files.get(name)
    }

    /// The bytes of all files together.
    pub fn total(&self) -> u128
        ensures { result ≡ total_of self.now.files }
    {
        self.files.total()
    }
}

impl Depot for MemDepot {
    ghost use Rattle.flame_outside.specs.Memory.{seen_depot};

    ghost seen = { seen_depot };

    fn read(&mut self, name: &str, most: usize) -> Result<Got, ReadFail>
        ensures found { IfOk result (λ got. bytes_of got ≡ option_map (take most) (map.get self.old.files name.now)) }
        ensures ok { OnOk result (self.new ≡ after_call self.old) }
        ensures failed { result ≡ Err ReadFail.Failed → self.new ≡ after_failed_read self.old }
        ensures memory { result ≡ Err ReadFail.NoMemory → self.new ≡ self.old }

        // It fails exactly where its number is listed.
        ensures listed { (result ≡ Err ReadFail.Failed) ↔ IsTrue (fails_next self.old.calls) }
    {
        if self.calls.fails_next() {
            self.calls.count();
            self.read_faults += 1;
            return Err(ReadFail::Failed);
        }
        let got = self.files.read(name, most)?;
        self.calls.count();
        Ok(got)
    }

    fn put(&mut self, name: &str, bytes: &[u8]) -> Result<(), PutFail>
        ensures ok { OnOk result (self.new ≡ after_put self.old name.now bytes.now) }
        ensures failed { result ≡ Err PutFail.Failed → self.new ≡ after_failed_put self.old name.now bytes.now }
        ensures memory { result ≡ Err PutFail.NoMemory → self.new ≡ self.old }

        // It fails exactly where its number is listed, unless it finds no memory.
        ensures listed { result ≡ Err PutFail.Failed → IsTrue (fails_next self.old.calls) }
        ensures not_listed { OnOk result (IsFalse (fails_next self.old.calls)) }
    {
        if self.calls.fails_next() {
            self.files.set(name, &bytes[..bytes.len() / 2])?;
            self.calls.count();
            self.put_faults += 1;
            return Err(PutFail::Failed);
        }
        self.files.set(name, bytes)?;
        self.calls.count();
        Ok(())
    }
}
