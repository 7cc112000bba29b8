//! The locals that a place sees, found by name.

ghost use Rattle.std.specs.Prelude.{◌≡◌, ◌<◌, ◌^◌, [], ◌∷◌, length, drop, OnOk, OnErr};
ghost use Rattle.flame_body.specs.WordSlots.{local_number};

use flame_rows::NoMemory;
use std::alloc::Global;
use std::collections::HashMap;
use std::marker::Model;

/// A local, and the number of the local of the same name that it hides, if it hides one.
#[derive(Clone, Copy)]
pub(crate) struct Mark<'a> {
    pub(crate) name: &'a str,
    pub(crate) hides: Option<u32>,
}

/// The locals that are visible or hidden, seen as the list of their names, the newest first.
#[derive(Drop)]
pub(crate) struct Locals<'a> {
    marks: Vec<Mark<'a>>,
    newest: HashMap<&'a str, u32>,
}

impl<'a> Model for Locals<'a> {
    ghost use Rattle.std.specs.Prelude.{List, ℕ, ◌<◌, ◌^◌, length, reverse};
    ghost use Rattle.flame_numbering.specs.LocalTables.{names_kept, HidesRight, Finds};

    ghost Value = { List (List ℕ) };

    ghost view = { λ l. names_kept l.marks.items };

    ghost invariant = { λ l. HidesRight (reverse l.marks.items) × (Finds l.newest (names_kept l.marks.items))
        × (length l.marks.items < 2 ^ 32) };
}

impl<'a> Locals<'a> {
    /// No locals.
    pub(crate) fn new(alloc: Global) -> Locals<'a>
        ensures { result ≡ [] }
    {
        Locals {
            marks: Vec::new(alloc),
            newest: HashMap::new(alloc),
        }
    }

    /// How many there are.
    pub(crate) fn len(&self) -> u32
        ensures { result ≡ length self.now }
    {
        self.marks.len() as u32
    }

    /// The number of the newest local of this name.
    pub(crate) fn number(&self, word: &str) -> Option<u32>
        ensures { result ≡ local_number self.now word.now }
    {
        self.newest.get(word).copied()
    }

    /// Declares a local.
    pub(crate) fn push(&mut self, name: &'a str) -> Result<(), NoMemory>
        ensures more { OnOk result (self.new ≡ name.now ∷ self.old) }
        ensures few { OnOk result (length self.new < 2 ^ 32) }
        ensures kept { OnErr result (self.new ≡ self.old) }
    {
        let number = self.marks.len();
        if number >= 4_294_967_295 {
            return Err(NoMemory);
        }
        let hides = self.newest.get(name).copied();
        self.marks.push(Mark { name, hides })?;
        match self.newest.insert(name, number as u32) {
            Ok(_) => Ok(()),
            Err(_) => {
                self.marks.pop();
                Err(NoMemory)
            }
        }
    }

    /// Ends the newest local, where there is one.
    pub(crate) fn pop(&mut self)
        ensures { self.new ≡ drop 1 self.old }
    {
        if let Some(mark) = self.marks.pop() {
            match mark.hides {
                Some(number) => {
                    if let Some(newest) = self.newest.get_mut(mark.name) {
                        *newest = number;
                    }
                }
                None => {
                    self.newest.remove(mark.name);
                }
            }
        }
    }

    /// Ends so many locals, the newest first.
    pub(crate) fn cut(&mut self, number: u32)
        ensures { self.new ≡ drop number self.old }
    {
        for i in 0..number {
            self.pop();
        }
    }
}
