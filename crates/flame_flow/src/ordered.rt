//! Numbers in order.

ghost use Rattle.std.specs.Prelude.{◌≡◌, [], ◌<◌, length, OnOk, OnErr, slice_get, drop};
ghost use Rattle.flame_flow.specs.BegunPieces.{with_number};

use flame_rows::NoMemory;
use std::alloc::Global;
use std::collections::BTreeSet;
use std::marker::Model;

/// Numbers in order, each once.
#[derive(Drop)]
pub(crate) struct Ordered {
    numbers: BTreeSet<u32>,
}

impl Model for Ordered {
    ghost use Rattle.std.specs.Prelude.{ℕ, List};

    ghost Value = { List ℕ };

    ghost view = { λ o. o.numbers.keys };
}

impl Ordered {
    /// None.
    pub(crate) fn new(alloc: Global) -> Ordered
        ensures { result ≡ [] }
    {
        Ordered {
            numbers: BTreeSet::new(alloc),
        }
    }

    /// The least of them, if there is one.
    pub(crate) fn first(&self) -> Option<u32>
        ensures { result ≡ slice_get self.now 0 }
    {
        self.numbers.first().copied()
    }

    /// The least of them leaves.
    pub(crate) fn remove_first(&mut self)
        requires { 0 < length self.old }
        ensures { self.new ≡ drop 1 self.old }
    {
        let _least = self.numbers.pop_first();
    }

    /// The number is one of them from now on. Nothing changes where memory is not found.
    pub(crate) fn insert(&mut self, number: u32) -> Result<(), NoMemory>
        ensures ok { OnOk result (self.new ≡ with_number number self.old) }
        ensures err { OnErr result (self.new ≡ self.old) }
    {
        self.numbers.insert(number)?;
        Ok(())
    }
}
