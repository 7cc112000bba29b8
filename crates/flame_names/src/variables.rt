//! Variables of rows.

ghost use Rattle.std.specs.Prelude.{◌≡◌, ◌++◌, [], ◌∷◌, OnOk, IfErr, codes, false, nat_lt, option_map, ◌&&◌};
ghost use Rattle.flame_spec.specs.declared.faults.NameKind.TheVariants.{Duplicate, TooWide};
ghost use Rattle.flame_spec.specs.Columns.{width, is_array, variable_named};
ghost use Rattle.flame_spec.specs.KnownNames.{is_among, variable_names};
ghost use Rattle.flame_spec.specs.Leaves.{single_faults};
ghost use Rattle.flame_spec.specs.Paths.{at_key};
ghost use Rattle.flame_spec.specs.Refusals.{fault_where};
ghost use Rattle.flame_names.specs.PlacePaths.{text_of};
ghost use Rattle.flame_spec.specs.FirstFaults.{FailsFirst};

use crate::faults::{prefixed_fault, refuse};
use crate::path::Place;
use flame_rows::{Fail, NoMemory};
use flame_spec::{NameFault, NameKind, Variable};
use indexmap::IndexMap;
use std::alloc::Global;
use std::marker::Model;

/// Variables of a row, in the order in which they came, seen as their list.
#[derive(Drop)]
pub struct Variables<'a> {
    /// The lengths by the names.
    lengths: IndexMap<&'a str, Option<u32>>,
    /// The width of the row, which stands still at 2^64 - 1.
    width: u64,
}

impl<'a> Model for Variables<'a> {
    ghost use Rattle.std.specs.Prelude.{List, ◌≡◌};
    ghost use Rattle.flame_spec.specs.declared.models.Variable.{Variable as Declared};
    ghost use Rattle.flame_spec.specs.Columns.{width as sum};
    ghost use Rattle.flame_names.specs.VariableTables.{variables_in_table, counted};

    ghost Value = { List Declared };

    ghost view = { λ table. variables_in_table table.lengths.entries };

    ghost invariant = { λ table. table.width ≡ counted (sum (variables_in_table table.lengths.entries)) };
}

impl<'a> Variables<'a> {
    /// No variables.
    pub fn new(alloc: Global) -> Variables<'a>
        ensures { result ≡ [] }
    {
        Variables {
            lengths: IndexMap::new(alloc),
            width: 0,
        }
    }

    /// Whether the variable of this name is an array; `None` where there is no such variable.
    fn is_array(&self, name: &str) -> Option<bool>
        ensures { result ≡ option_map (λ found. is_array found.1) (variable_named self.now name.now) }
    {
        let length = self.lengths.get(name)?;
        Some(length.is_some())
    }

    /// Whether there is a variable of this name.
    fn has(&self, name: &str) -> bool
        ensures { result ≡ is_among name.now (variable_names self.now) }
    {
        self.lengths.contains_key(name)
    }

    /// Whether the row is wider than 4,096 numbers.
    fn is_wide(&self) -> bool
        ensures { result ≡ nat_lt 4096 (width self.now) }
    {
        self.width > 4096
    }

    /// Adds a variable of a new name.
    fn add(&mut self, variable: &'a Variable) -> Result<(), NoMemory>
        requires { is_among variable.now.name (variable_names self.old) ≡ false }
        ensures { OnOk result (self.new ≡ self.old ++ variable.now ∷ []) }
    {
        self.lengths
            .insert(variable.name.as_str(), variable.length)?;
        self.width = self.width.saturating_add(u64::from(variable.width()));
        Ok(())
    }
}

/// Adds the variable at this place, and refuses its name where it is there.
pub fn add_variable<'a>(
    alloc: Global,
    place: &Place<'_>,
    variable: &'a Variable,
    earlier: &mut Variables<'a>,
) -> Result<(), Fail<NameFault>>
    ensures none { OnOk result (fault_where
        (is_among variable.now.name (variable_names earlier.old))
        Duplicate
        (at_key (text_of place.now) (codes "name"))
        variable.now.name ≡ []) }
    ensures added { OnOk result (is_among variable.now.name (variable_names earlier.old) ≡ false) }
    ensures variables { OnOk result (earlier.new ≡ earlier.old ++ variable.now ∷ []) }
    ensures first { IfErr result (FailsFirst (fault_where
        (is_among variable.now.name (variable_names earlier.old))
        Duplicate
        (at_key (text_of place.now) (codes "name"))
        variable.now.name)) }
{
    let name = variable.name.as_str();
    let is_known = earlier.has(name);
    refuse(
        alloc,
        is_known,
        NameKind::Duplicate,
        &Place::Key(place, "name"),
        name,
    )?;
    earlier.add(variable)?;
    Ok(())
}

/// Refuses the variable at this place where it is an array, and the row of these, of which it is the last, is too wide.
pub fn refuse_wide(
    alloc: Global,
    place: &Place<'_>,
    variable: &Variable,
    variables: &Variables<'_>,
) -> Result<(), Fail<NameFault>>
    ensures none { OnOk result (fault_where
        (is_array variable.now && nat_lt 4096 (width variables.now))
        TooWide
        (at_key (text_of place.now) (codes "length"))
        variable.now.name ≡ []) }
    ensures first { IfErr result (FailsFirst (fault_where
        (is_array variable.now && nat_lt 4096 (width variables.now))
        TooWide
        (at_key (text_of place.now) (codes "length"))
        variable.now.name)) }
{
    let is_too_wide = variable.length.is_some() && variables.is_wide();
    refuse(
        alloc,
        is_too_wide,
        NameKind::TooWide,
        &Place::Key(place, "length"),
        variable.name.as_str(),
    )
}

/// Refuses what a name at this place stands for where it is none of these variables, or an array; it is written behind
/// a prefix.
pub fn single(
    alloc: Global,
    variables: &Variables<'_>,
    place: &Place<'_>,
    prefix: &str,
    name: &str,
) -> Result<(), Fail<NameFault>>
    ensures none { OnOk result
        (single_faults variables.now name.now (text_of place.now) (prefix.now ++ name.now) ≡ []) }
    ensures first { IfErr result
        (FailsFirst (single_faults variables.now name.now (text_of place.now) (prefix.now ++ name.now))) }
{
    let kind = match variables.is_array(name) {
        None => NameKind::UnknownVariable,
        Some(true) => NameKind::NotSingle,
        Some(false) => return Ok(()),
    };
    Err(prefixed_fault(alloc, kind, place, prefix, name))
}
