//! What is written of a variable in each object, made once for all objects.

ghost use Rattle.std.specs.Prelude.{◌≡◌, ◌++◌, IfOk};
ghost use Rattle.flame_popfile.specs.CommaTexts.{comma_where, name_text};
ghost use Rattle.flame_popfile.specs.FieldTexts.{AreFields};

use crate::pieces::{push_comma, push_name};
use flame_rows::NoMemory;
use flame_spec::Variable;
use std::alloc::Global;

/// A variable of an object.
#[derive(Drop)]
pub(crate) struct Field<'a> {
    /// The variable.
    pub variable: &'a Variable,
    /// What stands before its value: its name and a colon, behind a comma where it is not the first.
    pub key: Vec<u8>,
    /// The column of its first number.
    pub column: usize,
}

/// What stands before the value of a variable of this name.
fn key(alloc: Global, more: bool, name: &str) -> Result<Vec<u8>, NoMemory>
    ensures { IfOk result (λ key. key.items ≡ comma_where more ++ name_text name.now) }
{
    let mut key = Vec::new(alloc);
    push_comma(&mut key, more)?;
    push_name(&mut key, name)?;
    Ok(key)
}

/// The fields of objects of these variables.
pub(crate) fn fields<'a>(
    alloc: Global,
    variables: &'a [Variable],
) -> Result<Vec<Field<'a>>, NoMemory>
    ensures { IfOk result (λ fields. AreFields variables.now fields.items) }
{
    let mut fields = Vec::new(alloc);
    let mut column = 0usize;
    for variable in variables {
        let key = key(alloc, fields.len() > 0, variable.name.as_str())?;
        fields.push(Field {
            variable,
            key,
            column,
        })?;
        match column.checked_add(variable.width() as usize) {
            Some(next) => column = next,
            None => return Err(NoMemory),
        }
    }
    Ok(fields)
}
