//! Copies.

ghost use Rattle.std.specs.Prelude.{◌≡◌, IfOk};

use crate::bags::Bag;
use crate::boxes::Boxed;
use crate::fails::NoMemory;
use crate::rows::Row;
use crate::seqs::Seq;
use crate::texts::Text;
use std::alloc::Global;

/// Values of which a copy can be made, all that they hold with them.
pub trait Copied {
    /// A copy.
    fn copy(&self, alloc: Global) -> Result<Self, NoMemory>
        ensures { IfOk result (λ copied. copied ≡ self.now) };
}

impl Copied for u32 {
    fn copy(&self, _alloc: Global) -> Result<u32, NoMemory> {
        Ok(*self)
    }
}

impl Copied for i32 {
    fn copy(&self, _alloc: Global) -> Result<i32, NoMemory> {
        Ok(*self)
    }
}

impl Copied for bool {
    fn copy(&self, _alloc: Global) -> Result<bool, NoMemory> {
        Ok(*self)
    }
}

impl Copied for Row {
    fn copy(&self, alloc: Global) -> Result<Row, NoMemory> {
        Row::of_slice(alloc, self.values())
    }
}

impl Copied for Bag {
    fn copy(&self, _alloc: Global) -> Result<Bag, NoMemory> {
        self.copy()
    }
}

impl Copied for Text {
    fn copy(&self, alloc: Global) -> Result<Text, NoMemory> {
        Text::of(alloc, self.as_str())
    }
}

impl<T: Copied + Drop> Copied for Boxed<T> {
    fn copy(&self, alloc: Global) -> Result<Boxed<T>, NoMemory> {
        Boxed::of(alloc, self.get().copy(alloc)?)
    }
}

impl<T: Copied + Drop> Copied for Option<T> {
    fn copy(&self, alloc: Global) -> Result<Option<T>, NoMemory> {
        match self {
            None => Ok(None),
            Some(value) => Ok(Some(value.copy(alloc)?)),
        }
    }
}

impl<T: Copied + Drop> Copied for Seq<T> {
    fn copy(&self, alloc: Global) -> Result<Seq<T>, NoMemory> {
        let mut copies = Vec::new(alloc);
        for item in self.items() {
            copies.push(item.copy(alloc)?)?;
        }
        Ok(Seq::of(copies))
    }
}
