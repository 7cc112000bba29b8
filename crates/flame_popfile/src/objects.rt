//! Objects of the same variables.

ghost use Rattle.flame_popfile.specs.FieldTexts.{AreFields};

use crate::fields::Field;
use flame_spec::Variable;

/// How objects of these variables are written.
#[derive(Drop)]
pub(crate) struct Object<'a> {
    /// What stands before the variables of each.
    pub(crate) head: Vec<u8>,
    /// The variables.
    pub(crate) variables: &'a [Variable],
    /// What is written of each variable.
    pub(crate) fields: Vec<Field<'a>>,
    ghost are: { AreFields variables.now fields.items },
}
