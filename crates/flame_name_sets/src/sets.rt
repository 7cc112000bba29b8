//! Sets of names.

ghost use Rattle.std.specs.Prelude.{◌≡◌, ◌++◌, [], ◌∷◌, IfOk, not, map, if◌then◌else◌};
ghost use Rattle.std.specs.List.{position_or_len};
ghost use Rattle.std.specs.Str.{bytes_eq};
ghost use Rattle.flame_spec.specs.KnownNames.{is_among};

use flame_rows::NoMemory;
use indexmap::IndexSet;
use std::alloc::Global;
use std::marker::Model;

/// Names, each once, in the order in which they came, seen as their list.
#[derive(Drop)]
pub struct Names<'a> {
    names: IndexSet<&'a str>,
}

impl<'a> Model for Names<'a> {
    ghost use Rattle.std.specs.Prelude.{List, ℕ, map};

    ghost Value = { List (List ℕ) };

    ghost view = { λ table. map (λ name. name.now) table.names.keys };
}

impl<'a> Names<'a> {
    /// No names.
    pub fn new(alloc: Global) -> Names<'a>
        ensures { result ≡ [] }
    {
        Names {
            names: IndexSet::new(alloc),
        }
    }

    /// Whether the name is there.
    pub fn has(&self, name: &str) -> bool
        ensures { result ≡ is_among name.now self.now }
    {
        self.names.contains(name)
    }

    /// Adds the name where it is new, and tells whether it is.
    pub fn add(&mut self, name: &'a str) -> Result<bool, NoMemory>
        ensures added { IfOk result (λ added. added ≡ not (is_among name.now self.old)) }
        ensures after { IfOk result (λ added.
            self.new ≡ (if added then self.old ++ name.now ∷ [] else self.old)) }
    {
        let (_, added) = self.names.insert_full(name)?;
        Ok(added)
    }

    /// The names in their order.
    pub fn items(&self) -> &[&'a str]
        ensures { map (λ name. name.now) result.now ≡ self.now }
    {
        self.names.as_slice()
    }

    /// The place of the name in this order; of a name that is not there, how many there are.
    pub fn place(&self, name: &str) -> usize
        ensures { result ≡ position_or_len (λ other. bytes_eq other name.now) self.now }
    {
        match self.names.get_index_of(name) {
            Some(place) => place,
            None => self.names.len(),
        }
    }
}
