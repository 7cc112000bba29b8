//! The agent types of a model by their names.

ghost use Rattle.std.specs.Prelude.{◌≡◌, IfSome, length};
ghost use Rattle.flame_tokens.specs.AgentTrees.{IsNamed};

use flame_name_sets::Names;
use flame_spec::AgentType;
use std::alloc::Global;
use std::marker::Model;

/// Agent types by their names, seen as their list.
#[derive(Drop)]
pub(crate) struct Types<'a> {
    types: &'a [AgentType],
    names: Names<'a>,
}

impl<'a> Model for Types<'a> {
    ghost use Rattle.std.specs.Prelude.{List};
    ghost use Rattle.std.specs.Coded.{codes};
    ghost use Rattle.flame_spec.specs.contracts.models.AgentType as a;
    ghost use Rattle.flame_spec.specs.declared.models.AgentType.{AgentType};

    ghost Value = { List AgentType };

    ghost coded = { Prim.hlevel (codes, a.the_row.coded) };

    ghost view = { λ t. t.types.now };
}

impl<'a> Types<'a> {
    /// The table of these types.
    pub(crate) fn of(alloc: Global, types: &'a [AgentType]) -> Option<Types<'a>>
        ensures { IfSome result (λ table. table ≡ types.now) }
    {
        let mut names = Names::new(alloc);
        for kind in types {
            names.add(kind.name.as_str()).ok()?;
        }
        Some(Types { types, names })
    }

    /// How many types there are.
    pub(crate) fn count(&self) -> usize
        ensures { result ≡ length self.now }
    {
        self.types.len()
    }

    /// The type of this number, where it has the name.
    fn at(&self, number: usize, name: &str) -> Option<&'a AgentType>
        ensures { IfSome result (λ kind. IsNamed self.now number name.now kind.now) }
    {
        if number >= self.types.len() {
            return None;
        }
        let kind = &self.types[number];
        if kind.name.as_str() == name {
            Some(kind)
        } else {
            None
        }
    }

    /// The type of this name with its number, which is looked for at a place first.
    pub(crate) fn find(&self, name: &str, place: usize) -> Option<(usize, &'a AgentType)>
        ensures { IfSome result (λ found. IsNamed self.now found.0 name.now found.1.now) }
    {
        if let Some(kind) = self.at(place, name) {
            return Some((place, kind));
        }
        let number = self.names.place(name);
        let kind = self.at(number, name)?;
        Some((number, kind))
    }
}
