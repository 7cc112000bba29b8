//! Nodes that are ready, the first one first.

ghost use Rattle.std.specs.Prelude.{◌≡◌, ℕ, [], ◌≤◌, ◌==◌, ◌&&◌, ◌||◌, not, true, OnOk, MatchOption};
ghost use Rattle.flame_spec.specs.Below.{is_in};
ghost use Rattle.flame_graph.specs.Ready.{IsFirstOf};

use flame_rows::NoMemory;
use std::alloc::Global;
use std::collections::BTreeSet;
use std::marker::Model;

/// Nodes by their numbers, seen as their list in ascending order.
#[derive(Drop)]
pub struct Ready {
    nodes: BTreeSet<u32>,
}

impl Model for Ready {
    ghost use Rattle.std.specs.Prelude.{List, ℕ};

    ghost Value = { List ℕ };

    ghost view = { λ a. a.nodes.keys };
}

impl Ready {
    /// No nodes.
    pub fn new(alloc: Global) -> Ready
        ensures { result ≡ [] }
    {
        Ready {
            nodes: BTreeSet::new(alloc),
        }
    }

    /// Adds the node.
    pub fn add(&mut self, node: u32) -> Result<(), NoMemory>
        ensures { OnOk result ((g : ℕ) → is_in g self.new ≡ (is_in g self.old || (node == g))) }
    {
        self.nodes.insert(node)?;
        Ok(())
    }

    /// Takes the first node out, if there is one.
    pub fn take(&mut self) -> Option<u32>
        ensures { MatchOption result (self.old ≡ []) (λ f. IsFirstOf self.old f self.new) }
    {
        self.nodes.pop_first()
    }
}
