//! The forms in which rows are written. Each call adds a text to the bytes.

ghost use Rattle.std.specs.Prelude.{◌≡◌, ◌++◌, map, OnOk};
ghost use Rattle.flame_popfile.specs.CommaTexts.{behind, form_text};

use crate::pieces::push_comma;
use crate::rows::{push_agent, push_list, push_object};
use crate::shapes::push_many;
use flame_rows::{NoMemory, Row};
use flame_spec::{AgentType, Variable};

/// How a row is written.
#[derive(Clone, Copy)]
pub(crate) enum Form<'a> {
    /// As the list of its numbers.
    List,
    /// As an object of these variables.
    Object(&'a [Variable]),
    /// As an agent of this type.
    Agent(&'a AgentType),
}

/// How many rows a list has at least for which it pays to make a shape.
const MANY: usize = 8;

/// Adds a row in this form.
fn push_row(bytes: &mut Vec<u8>, form: Form<'_>, row: &[i32]) -> Result<(), NoMemory>
    ensures { OnOk result (bytes.new.items ≡ bytes.old.items ++ form_text form.entry row.now) }
{
    match form {
        Form::List => push_list(bytes, row),
        Form::Object(variables) => push_object(bytes, variables, row),
        Form::Agent(agent) => push_agent(bytes, agent, row),
    }
}

/// Adds these rows in this form, each after a comma, the first only where there is more before.
pub(crate) fn push_rows(
    bytes: &mut Vec<u8>,
    form: Form<'_>,
    rows: &[Row],
    before: bool,
) -> Result<(), NoMemory>
    ensures { OnOk result
        (bytes.new.items ≡ bytes.old.items ++ behind before (map (form_text form.entry) rows.now)) }
{
    if rows.len() < MANY {
        push_few(bytes, form, rows, before)
    } else {
        push_many(bytes, form, rows, before)
    }
}

/// The same, one row after another.
fn push_few(bytes: &mut Vec<u8>, form: Form<'_>, rows: &[Row], before: bool) -> Result<(), NoMemory>
    ensures { OnOk result
        (bytes.new.items ≡ bytes.old.items ++ behind before (map (form_text form.entry) rows.now)) }
{
    let mut more = before;
    for row in rows {
        push_comma(bytes, more)?;
        push_row(bytes, form, row.values())?;
        more = true;
    }
    Ok(())
}
