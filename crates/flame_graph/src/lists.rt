//! Lists of successors.

ghost use Rattle.std.specs.Prelude.{◌≡◌, [], IfOk, OnOk, replicate};
ghost use Rattle.flame_graph.specs.Marks.{marked};

use flame_rows::NoMemory;
use std::alloc::Global;
use std::marker::Model;

/// The nodes that a node stands before, by their numbers, seen as the list of these. Nodes are numbered from 0.
#[derive(Debug, Drop)]
pub struct Successors {
    numbers: Vec<u32>,
}

impl Model for Successors {
    ghost use Rattle.std.specs.Prelude.{List, ℕ};

    ghost Value = { List ℕ };

    ghost view = { λ a. a.numbers.items };
}

impl Successors {
    /// No nodes.
    pub fn new(alloc: Global) -> Successors
        ensures { result ≡ [] }
    {
        Successors {
            numbers: Vec::new(alloc),
        }
    }

    /// The numbers in order.
    pub fn numbers(&self) -> &[u32]
        ensures { result.now ≡ self.now }
    {
        self.numbers.as_slice()
    }

    /// Adds the node at the end, unless it is the last one already.
    ///
    /// # Errors
    ///
    /// `NoMemory` where memory was not found.
    pub fn mark(&mut self, node: u32) -> Result<(), NoMemory>
        ensures { OnOk result (self.new ≡ marked node self.old) }
    {
        if self.numbers.last().copied() != Some(node) {
            self.numbers.push(node)?;
        }
        Ok(())
    }
}

/// `count` empty lists.
///
/// # Errors
///
/// `NoMemory` where memory was not found.
pub fn empty_lists(alloc: Global, count: usize) -> Result<Vec<Successors>, NoMemory>
    ensures { IfOk result (λ lists. lists.items ≡ replicate count []) }
{
    let mut lists: Vec<Successors> = Vec::new(alloc);
    for _turn in 0..count {
        lists.push(Successors::new(alloc))?;
    }
    Ok(lists)
}
