//! The names of a model, looked up in hashed tables.

ghost use Rattle.std.specs.Prelude.{◌≡◌, ℕ, List, Option, None, IfOk, option_map};
ghost use Rattle.std.specs.HashMap.{get_by_text};
ghost use Rattle.flame_popfile.specs.PopulationParts.{called};

use flame_lookup::{Table, put};
use flame_rows::{NoMemory, Text};
use flame_spec::Variable;
use std::alloc::Global;
use std::collections::HashMap;

/// For each name the length of what has it; None for what is no array.
pub(crate) type Lengths = Table<Option<u32>>;

/// What names stand for.
pub(crate) trait Named {
    ghost name: { Self → List ℕ };

    ghost length: { Self → Option ℕ };

    /// Its name.
    fn name(&self) -> &str
        ensures { result.now ≡ name self.now };

    /// Its length, where it is an array.
    fn length(&self) -> Option<u32>
        ensures { result ≡ length self.now };
}

/// A constant, which is no array.
impl Named for Text {
    ghost name = { λ text. text };

    ghost length = { λ text. None };

    fn name(&self) -> &str {
        self.as_str()
    }

    fn length(&self) -> Option<u32> {
        None
    }
}

impl Named for Variable {
    ghost name = { λ variable. variable.name };

    ghost length = { λ variable. variable.length };

    fn name(&self) -> &str {
        self.name.as_str()
    }

    fn length(&self) -> Option<u32> {
        self.length
    }
}

/// For each name the length of the first item that has it.
pub(crate) fn lengths_of<T: Named>(alloc: Global, items: &[T]) -> Result<Lengths, NoMemory>
    ensures { IfOk result (λ table. (name : List ℕ)
        → get_by_text table name ≡ option_map T.length (called T.name items.now name)) }
{
    let mut table = HashMap::new(alloc);
    let mut left = items.len();
    while left > 0 {
        left -= 1;
        let item = &items[left];
        let name = String::from_str(alloc, item.name())?;
        put(&mut table, name, item.length())?;
    }
    Ok(table)
}
