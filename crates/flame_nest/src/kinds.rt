//! The data types that are known.

ghost use Rattle.std.specs.Prelude.{◌≡◌, ◌++◌, [], ◌∷◌, ◌+◌, ◌≤◌, true, false, min, IfSome, IfOk, OnOk};
ghost use Rattle.std.specs.Option.{option_copied};
ghost use Rattle.std.specs.Bool.{OnTrue};
ghost use Rattle.flame_spec.specs.Columns.{width};
ghost use Rattle.flame_spec.specs.KnownNames.{is_among};
ghost use Rattle.flame_nest.specs.FlatModels.{single, flat_variables};
ghost use Rattle.flame_nest.specs.NestFaults.{type_names, has_long, is_wide};
ghost use Rattle.flame_nest.specs.KindTables.{table_of, are_new};
ghost use Rattle.flame_name_sets.specs.NameTables.{look};

use crate::fields::Fields;
use flame_rows::{Copied, NoMemory, Text};
use flame_spec::{DataType, Variable, WideVariable};
use indexmap::IndexMap;
use std::alloc::Global;
use std::marker::Model;

/// A data type with its flat fields.
#[derive(Drop)]
struct Kind<'a> {
    declared: &'a DataType,
    fields: Fields,
}

/// Data types by their names, in the order in which they came, each with its flat fields, seen as their list.
#[derive(Drop)]
pub struct Kinds<'a> {
    kinds: IndexMap<&'a str, Kind<'a>>,
}

impl<'a> Model for Kinds<'a> {
    ghost use Rattle.std.specs.Prelude.{List, map};
    ghost use Rattle.flame_spec.specs.declared.wide.DataType.{DataType};
    ghost use Rattle.flame_nest.specs.KindTables.{IsKinds};

    ghost Value = { List DataType };

    ghost view = { λ table. map (λ entry. entry.1.declared.now) table.kinds.entries };

    ghost invariant = { λ table. IsKinds
        (map (λ entry. entry.1.declared.now) table.kinds.entries)
        (map (λ entry. (entry.0.now, entry.1.fields)) table.kinds.entries) };
}

/// How many columns there are with some more, counted to 4,097.
fn capped(columns: u64, more: u64) -> u64
    requires { columns ≤ 4097 }
    ensures { result ≡ min (columns + more) 4097 }
{
    (columns + more.min(4097)).min(4097)
}

/// How many columns a variable of `int` has.
fn single_width(variable: &WideVariable) -> u64
    ensures { result ≡ width (single variable.now ∷ []) }
{
    match variable.length {
        Some(length) => length as u64,
        None => 1,
    }
}

/// A variable of `int` in a flat model.
fn single(alloc: Global, variable: &WideVariable) -> Result<Variable, NoMemory>
    ensures { IfOk result (λ flat. flat ≡ single variable.now) }
{
    Ok(Variable {
        name: variable.name.copy(alloc)?,
        length: variable.length.copy(alloc)?,
    })
}

impl<'a> Kinds<'a> {
    /// No data types.
    pub fn new(alloc: Global) -> Kinds<'a>
        ensures { result ≡ [] }
    {
        Kinds {
            kinds: IndexMap::new(alloc),
        }
    }

    /// The flat fields of the data type of this name.
    fn fields(&self, name: &Text) -> Option<&Fields>
        ensures found { option_copied result ≡ look name.now (table_of self.now) }
        ensures narrow { IfSome result (λ fields. is_wide fields.now ≡ false) }
        ensures once { are_new [] self.now ≡ true }
    {
        match self.kinds.get(name.as_str()) {
            Some(kind) => Some(&kind.fields),
            None => None,
        }
    }

    /// Whether a data type has this name.
    pub fn has(&self, name: &Text) -> bool
        ensures { result ≡ is_among name.now (type_names self.now) }
    {
        self.fields(name).is_some()
    }

    /// Whether the variable is of a data type.
    pub fn is_typed(&self, variable: &WideVariable) -> bool
        ensures typed { result ≡ is_among variable.now.kind (type_names self.now) }
        ensures narrow { OnTrue result (is_wide (flat_variables self.now (variable.now ∷ [])) ≡ false) }
    {
        match self.fields(&variable.kind) {
            Some(_fields) => true,
            None => false,
        }
    }

    /// How many columns the variable has when flat.
    fn variable_width(&self, variable: &WideVariable) -> u64
        ensures { result ≡ width (flat_variables self.now (variable.now ∷ [])) }
    {
        match self.fields(&variable.kind) {
            Some(fields) => fields.width(),
            None => single_width(variable),
        }
    }

    /// How many columns the variables have together when flat, counted to 4,097.
    pub fn width(&self, variables: &[WideVariable]) -> u64
        ensures { result ≡ min (width (flat_variables self.now variables.now)) 4097 }
    {
        let mut columns: u64 = 0;
        for variable in variables {
            columns = capped(columns, self.variable_width(variable));
        }
        columns
    }

    /// Whether a flat name of the variable has more than 100 bytes.
    pub fn has_long(&self, variable: &WideVariable) -> bool
        ensures { result ≡ has_long (flat_variables self.now (variable.now ∷ [])) }
    {
        let name = variable.name.as_str();
        match self.fields(&variable.kind) {
            Some(fields) => fields.are_long_in(name),
            None => 100 < name.len(),
        }
    }

    /// Adds the variable in its flat form.
    fn put(
        &self,
        alloc: Global,
        variable: &WideVariable,
        flat: &mut Vec<Variable>,
    ) -> Result<(), NoMemory>
        ensures { OnOk result
            (flat.new.items ≡ flat.old.items ++ flat_variables self.now (variable.now ∷ [])) }
    {
        match self.fields(&variable.kind) {
            Some(fields) => fields.put_inside(alloc, variable.name.as_str(), flat),
            None => {
                flat.push(single(alloc, variable)?)?;
                Ok(())
            }
        }
    }

    /// The flat variables of these.
    pub fn flat(&self, alloc: Global, variables: &[WideVariable]) -> Result<Vec<Variable>, NoMemory>
        ensures { IfOk result (λ flat. flat.items ≡ flat_variables self.now variables.now) }
    {
        let mut flat = Vec::new(alloc);
        for variable in variables {
            self.put(alloc, variable, &mut flat)?;
        }
        Ok(flat)
    }

    /// Adds a data type of a new name.
    pub fn add(&mut self, declared: &'a DataType, fields: Fields) -> Result<(), NoMemory>
        requires new { is_among declared.now.name (type_names self.old) ≡ false }
        requires flat { fields ≡ flat_variables self.old declared.now.variables }
        requires narrow { is_wide fields ≡ false }
        ensures { OnOk result (self.new ≡ self.old ++ declared.now ∷ []) }
    {
        let name = declared.name.as_str();
        self.kinds.insert(name, Kind { declared, fields })?;
        Ok(())
    }
}
