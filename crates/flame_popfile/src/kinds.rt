//! The agent types of a model by their names.

ghost use Rattle.std.specs.Prelude.{◌≡◌, ℕ, List, IfOk, length, option_map};
ghost use Rattle.std.specs.HashMap.{get_by_text};
ghost use Rattle.std.specs.Option.{option_copied};
ghost use Rattle.flame_spec.specs.Columns.{width};
ghost use Rattle.flame_popfile.specs.PopulationParts.{called};
ghost use Rattle.flame_popfile.specs.PopulationFaults.{type_named};

use crate::tables::{Lengths, lengths_of};
use flame_lookup::{Table, put, width};
use flame_rows::NoMemory;
use flame_spec::AgentType;
use std::alloc::Global;
use std::collections::HashMap;
use std::marker::Model;

/// An agent type with its number and the lengths of its variables, seen as the number and the type.
#[derive(Drop)]
pub(crate) struct Kind<'a> {
    number: usize,
    agent: &'a AgentType,
    wide: u32,
    lengths: Lengths,
}

impl<'a> Model for Kind<'a> {
    ghost use Rattle.std.specs.Prelude.{◌≡◌, ℕ, List, option_map};
    ghost use Rattle.std.specs.Coded.{codes};
    ghost use Rattle.std.specs.HashMap.{get_by_text};
    ghost use Rattle.flame_spec.specs.contracts.models.AgentType as a;
    ghost use Rattle.flame_spec.specs.declared.models.AgentType.{AgentType};
    ghost use Rattle.flame_spec.specs.declared.models.Variable.{Variable};
    ghost use Rattle.flame_spec.specs.Columns.{width};
    ghost use Rattle.flame_popfile.specs.PopulationParts.{called};

    ghost Value = { ℕ × AgentType };

    ghost coded = { Prim.hlevel (codes, a.the_row.coded) };

    ghost view = { λ k. (k.number, k.agent.now) };

    ghost invariant = { λ k. record {
      wide : k.wide ≡ width k.agent.now.memory;
      lengths : (name : List ℕ)
          → get_by_text k.lengths name
          ≡ option_map (λ (variable : Variable). variable.length)
          (called (λ (variable : Variable). variable.name) k.agent.now.memory name);
    } };
}

impl<'a> Kind<'a> {
    /// The type of this number.
    fn of(alloc: Global, number: usize, agent: &'a AgentType) -> Result<Kind<'a>, NoMemory>
        ensures { IfOk result (λ kind. kind ≡ (number, agent.now)) }
    {
        let wide = width(agent.memory.items())?;
        let lengths = lengths_of(alloc, agent.memory.items())?;
        Ok(Kind {
            number,
            agent,
            wide,
            lengths,
        })
    }

    /// The number of the type.
    pub(crate) fn number(&self) -> usize
        ensures { result ≡ self.now.0 }
    {
        self.number
    }

    /// The type.
    pub(crate) fn agent(&self) -> &'a AgentType
        ensures { result.now ≡ self.now.1 }
    {
        self.agent
    }

    /// The width of its memory.
    pub(crate) fn wide(&self) -> u32
        ensures { result ≡ width self.now.1.memory }
    {
        self.wide
    }

    /// For each name the length of the variable that has it.
    pub(crate) fn lengths(&self) -> &Lengths
        ensures { (name : List ℕ)
            → get_by_text result.now name
            ≡ option_map (λ variable. variable.length) (called (λ variable. variable.name) self.now.1.memory name) }
    {
        &self.lengths
    }
}

/// Agent types by their names, seen as their list.
#[derive(Drop)]
pub(crate) struct Kinds<'a> {
    types: &'a [AgentType],
    named: Table<Kind<'a>>,
}

impl<'a> Model for Kinds<'a> {
    ghost use Rattle.std.specs.Prelude.{◌≡◌, ℕ, List};
    ghost use Rattle.std.specs.Coded.{codes};
    ghost use Rattle.std.specs.HashMap.{get_by_text};
    ghost use Rattle.flame_spec.specs.contracts.models.AgentType as a;
    ghost use Rattle.flame_spec.specs.declared.models.AgentType.{AgentType};
    ghost use Rattle.flame_popfile.specs.PopulationFaults.{type_named};

    ghost Value = { List AgentType };

    ghost coded = { Prim.hlevel (codes, a.the_row.coded) };

    ghost view = { λ t. t.types.now };

    ghost invariant = { λ t. (name : List ℕ) → get_by_text t.named name ≡ type_named t.types.now name };
}

impl<'a> Kinds<'a> {
    /// The table of these types.
    pub(crate) fn of(alloc: Global, types: &'a [AgentType]) -> Result<Kinds<'a>, NoMemory>
        ensures { IfOk result (λ kinds. kinds ≡ types.now) }
    {
        let named = by_name(alloc, types)?;
        Ok(Kinds { types, named })
    }

    /// How many types there are.
    pub(crate) fn count(&self) -> usize
        ensures { result ≡ length self.now }
    {
        self.types.len()
    }

    /// The type of this name.
    pub(crate) fn named(&self, name: &str) -> Option<&Kind<'a>>
        ensures { option_copied result ≡ type_named self.now name.now }
    {
        self.named.get(name)
    }
}

/// For each name the first type that has it.
fn by_name<'a>(alloc: Global, types: &'a [AgentType]) -> Result<Table<Kind<'a>>, NoMemory>
    ensures { IfOk result (λ table. (name : List ℕ) → get_by_text table name ≡ type_named types.now name) }
{
    let mut table = HashMap::new(alloc);
    let mut left = types.len();
    while left > 0 {
        left -= 1;
        let agent = &types[left];
        let kind = Kind::of(alloc, left, agent)?;
        let name = String::from_str(alloc, agent.name.as_str())?;
        put(&mut table, name, kind)?;
    }
    Ok(table)
}
