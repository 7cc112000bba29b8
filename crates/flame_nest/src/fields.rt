//! The flat fields of a data type.

ghost use Rattle.std.specs.Prelude.{◌≡◌, ◌&&◌, ◌++◌, nat_lt, length, codes, map, IfOk, OnOk};
ghost use Rattle.flame_spec.specs.Columns.{width};
ghost use Rattle.flame_nest.specs.NestFaults.{has_long};
ghost use Rattle.flame_nest.specs.KindTables.{reach, flat_inside};

use flame_rows::{Copied, NoMemory, Text};
use flame_spec::Variable;
use std::alloc::Global;
use std::marker::Model;

/// Flat variables, counted, seen as their list.
#[derive(Drop)]
pub struct Fields {
    variables: Vec<Variable>,
    columns: u64,
    longest: u64,
}

impl Model for Fields {
    ghost use Rattle.std.specs.Prelude.{◌≡◌, List};
    ghost use Rattle.flame_spec.specs.declared.models.Variable.{Variable};
    ghost use Rattle.flame_spec.specs.Columns.{width};
    ghost use Rattle.flame_nest.specs.KindTables.{reach};

    ghost Value = { List Variable };

    ghost view = { λ a. a.variables.items };

    ghost invariant = { λ a. (a.columns ≡ width a.variables.items) × (a.longest ≡ reach a.variables.items) };
}

/// One more than the bytes of the longest name; 0 where there is none.
fn reach_of(variables: &[Variable]) -> u64
    ensures { result ≡ reach variables.now }
{
    let mut most: u64 = 0;
    for variable in variables {
        let name = variable.name.as_str();
        most = most.max(name.len() as u64 + 1);
    }
    most
}

/// The field inside a variable of this name: the name, `_` and the field's name.
fn flat_inside(alloc: Global, name: &str, field: &Variable) -> Result<Variable, NoMemory>
    ensures { IfOk result (λ variable. variable ≡ flat_inside name.now field.now) }
{
    let mut inside = String::from_str(alloc, name)?;
    inside.push_str("_")?;
    inside.push_str(field.name.as_str())?;
    Ok(Variable {
        name: Text::from(inside),
        length: field.length.copy(alloc)?,
    })
}

impl Fields {
    /// Flat variables that are so wide together.
    pub fn of(variables: Vec<Variable>, columns: u64) -> Fields
        requires { columns ≡ width variables.items }
        ensures { result ≡ variables.items }
    {
        let longest = reach_of(variables.as_slice());
        Fields {
            variables,
            columns,
            longest,
        }
    }

    /// How wide they are together.
    pub fn width(&self) -> u64
        ensures { result ≡ width self.now }
    {
        self.columns
    }

    /// Whether one of them, inside a variable of this name, has a name of more than 100 bytes.
    pub fn are_long_in(&self, name: &str) -> bool
        ensures { result ≡ has_long (map (flat_inside name.now) self.now) }
    {
        0 < self.longest && 100 < name.len() as u128 + self.longest as u128
    }

    /// Adds them, inside a variable of this name.
    pub fn put_inside(
        &self,
        alloc: Global,
        name: &str,
        flat: &mut Vec<Variable>,
    ) -> Result<(), NoMemory>
        ensures { OnOk result (flat.new.items ≡ flat.old.items ++ map (flat_inside name.now) self.now) }
    {
        for field in &self.variables {
            flat.push(flat_inside(alloc, name, field)?)?;
        }
        Ok(())
    }
}
