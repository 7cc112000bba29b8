//! What is gathered of several bags.

ghost use Rattle.std.specs.Prelude.{◌≡◌, [], IfOk, OnOk, OnErr};
ghost use Rattle.std.specs.List.{flat_map};
ghost use Rattle.flame_rows.specs.Bags.{merge, merge_all};

use crate::bags::Bag;
use crate::fails::NoMemory;
use crate::rows::Row;
use std::alloc::Global;
use std::marker::Model;

/// Bags that come together, kept as ascending runs, and seen as one bag of all their rows.
#[derive(Debug, Drop)]
pub struct Runs {
    bags: Vec<Bag>,
}

impl Model for Runs {
    ghost use Rattle.std.specs.Prelude.{List, ℤ};
    ghost use Rattle.flame_rows.specs.Bags.{merge_all};

    ghost Value = { List (List ℤ) };

    ghost view = { λ a. merge_all a.bags.items };
}

/// The rows of these bags, one bag after another.
fn joined(alloc: Global, bags: Vec<Bag>) -> Result<Vec<Row>, NoMemory>
    ensures { IfOk result (λ rows. rows.items ≡ flat_map (λ bag. bag) bags.items) }
{
    let mut rows = Vec::new(alloc);
    for bag in bags {
        let mut more = bag.into_rows();
        rows.append(&mut more)?;
    }
    Ok(rows)
}

impl Runs {
    /// No rows.
    pub fn new(alloc: Global) -> Runs
        ensures { result ≡ [] }
    {
        Runs {
            bags: Vec::new(alloc),
        }
    }

    /// Adds the rows of a bag, in constant time: none of them is looked at. On `NoMemory` nothing is added.
    pub fn add(&mut self, bag: Bag) -> Result<(), NoMemory>
        ensures ok { OnOk result (self.new ≡ merge self.old bag) }
        ensures err { OnErr result (self.new ≡ self.old) }
    {
        self.bags.push(bag)?;
        Ok(())
    }

    /// The bags that were added, in order.
    pub fn runs(&self) -> &[Bag]
        ensures { merge_all result.now ≡ self.now }
    {
        self.bags.as_slice()
    }

    /// All rows as one bag. No row is copied.
    pub fn into_bag(self) -> Result<Bag, NoMemory>
        ensures { IfOk result (λ bag. bag ≡ self) }
    {
        let alloc = *self.bags.allocator();
        Bag::of_rows(joined(alloc, self.bags)?)
    }
}
