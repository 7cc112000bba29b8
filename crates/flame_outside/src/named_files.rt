//! Files in memory by name.

ghost use Rattle.std.specs.Prelude.{◌≡◌, IfOk, OnOk, OnErr, take, option_map};
ghost use Rattle.std.specs.FinMap as map;
ghost use Rattle.flame_outside.specs.Told.{bytes_of};
ghost use Rattle.flame_outside.specs.Memory.{total_of};

use crate::depot::Got;
use flame_rows::{Blob, NoMemory};
use std::alloc::Global;
use std::collections::BTreeMap;
use std::marker::Model;

/// Files by name, seen as the finite map from the bytes of a name to the bytes of its file.
#[derive(Drop)]
pub struct NamedFiles {
    entries: BTreeMap<String, Vec<u8>>,
    alloc: Global,
}

impl Model for NamedFiles {
    ghost use Rattle.flame_outside.specs.Files.{Files};
    ghost use Rattle.flame_outside.specs.MemoryCodes.{files_code};
    ghost use Rattle.flame_outside.specs.Stored.{stored};

    ghost Value = { Files };

    ghost coded = { files_code };

    ghost view = { λ a. stored a.entries.entries };
}

impl NamedFiles {
    /// No files.
    pub fn new(alloc: Global) -> NamedFiles
        ensures { result ≡ map.empty }
    {
        NamedFiles {
            entries: BTreeMap::new(alloc),
            alloc,
        }
    }

    /// Makes a copy of the bytes the file of that name.
    pub fn set(&mut self, name: &str, bytes: &[u8]) -> Result<(), NoMemory>
        ensures ok { OnOk result (self.new ≡ map.insert self.old name.now bytes.now) }
        ensures err { OnErr result (self.new ≡ self.old) }
    {
        let key = String::from_str(self.alloc, name)?;
        let value = Vec::from_slice(self.alloc, bytes)?;
        self.entries.insert(key, value)?;
        Ok(())
    }

    /// The file of that name.
    pub fn get(&self, name: &str) -> Option<&[u8]>
        ensures { option_map (λ bytes. bytes.now) result ≡ map.get self.now name.now }
    {
        match self.entries.get(name) {
            Some(bytes) => Some(bytes.as_slice()),
            None => None,
        }
    }

    /// The file of that name, or its first bytes.
    pub fn read(&self, name: &str, most: usize) -> Result<Got, NoMemory>
        ensures { IfOk result (λ got. bytes_of got ≡ option_map (take most) (map.get self.now name.now)) }
    {
        let Some(bytes) = self.get(name) else {
            return Ok(Got::Missing);
        };
        let front = &bytes[..bytes.len().min(most)];
        Ok(Got::Bytes(Blob::of(Vec::from_slice(self.alloc, front)?)))
    }

    /// The bytes of all files together.
    pub fn total(&self) -> u128
        ensures { result ≡ total_of self.now }
    {
        let mut total = 0u128;
        for bytes in self.entries.values() {
            total += bytes.len() as u128;
        }
        total
    }
}
