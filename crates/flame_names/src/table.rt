//! Tables of names.

ghost use Rattle.std.specs.Prelude.{◌≡◌, ◌++◌, [], ◌∷◌, IfOk, not, if◌then◌else◌, string_bytes};
ghost use Rattle.std.specs.List.{list_any};
ghost use Rattle.flame_spec.specs.KnownNames.{is_among};
ghost use Rattle.flame_names.specs.NameLooks.{transition_of, is_same_transition};

use flame_rows::NoMemory;
use flame_spec::Function;
use indexmap::IndexSet;
use std::alloc::Global;
use std::marker::Model;

/// Names in capitals, in the order in which they came, seen as their list.
#[derive(Drop)]
pub struct Capitals {
    names: IndexSet<String>,
}

impl Model for Capitals {
    ghost use Rattle.std.specs.Prelude.{List, ℕ, map, string_bytes};

    ghost Value = { List (List ℕ) };

    ghost view = { λ table. map (λ name. string_bytes name) table.names.keys };
}

impl Capitals {
    /// No names.
    pub fn new(alloc: Global) -> Capitals
        ensures { result ≡ [] }
    {
        Capitals {
            names: IndexSet::new(alloc),
        }
    }

    /// Whether the name is there.
    pub fn has(&self, name: &str) -> bool
        ensures { result ≡ is_among name.now self.now }
    {
        self.names.contains(name)
    }

    /// Adds the name where it is new, and tells whether it is.
    pub fn add(&mut self, name: String) -> Result<bool, NoMemory>
        ensures added { IfOk result (λ added. added ≡ not (is_among (string_bytes name) self.old)) }
        ensures after { IfOk result (λ added.
            self.new ≡ (if added then self.old ++ string_bytes name ∷ [] else self.old)) }
    {
        let (_, added) = self.names.insert_full(name)?;
        Ok(added)
    }
}

/// What tells a function from the others of its type.
#[derive(Clone, Copy, PartialEq, Eq, Hash)]
pub struct Transition<'a> {
    name: &'a str,
    current: &'a str,
    next: &'a str,
}

/// Functions of a type, in the order in which they came, seen as the list of their names and states.
#[derive(Drop)]
pub struct Transitions<'a> {
    transitions: IndexSet<Transition<'a>>,
}

impl<'a> Model for Transitions<'a> {
    ghost use Rattle.std.specs.Prelude.{List, ℕ, map};

    ghost Value = { List (List ℕ × List ℕ × List ℕ) };

    ghost view = { λ table. map (λ t. (t.name.now, t.current.now, t.next.now)) table.transitions.keys };
}

impl<'a> Transitions<'a> {
    /// No functions.
    pub fn new(alloc: Global) -> Transitions<'a>
        ensures { result ≡ [] }
    {
        Transitions {
            transitions: IndexSet::new(alloc),
        }
    }

    /// Adds the function where it is new, and tells whether it is.
    pub fn add(&mut self, function: &'a Function) -> Result<bool, NoMemory>
        ensures added { IfOk result (λ added.
            added ≡ not (list_any (is_same_transition (transition_of function.now)) self.old)) }
        ensures after { IfOk result (λ added.
            self.new ≡ (if added then self.old ++ transition_of function.now ∷ [] else self.old)) }
    {
        let transition = Transition {
            name: function.name.as_str(),
            current: function.current.as_str(),
            next: function.next.as_str(),
        };
        let (_, added) = self.transitions.insert_full(transition)?;
        Ok(added)
    }
}
