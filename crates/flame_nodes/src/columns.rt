//! By what the agents of a type are parted.

ghost use Rattle.std.specs.Prelude.{◌≡◌, IfOk, Some};
ghost use Rattle.flame_nodes.specs.NodePartings.{parting_by, parting_for, single_column, single_found};
ghost use Rattle.std.specs.Prelude.{slice_get};

use crate::partings::Parting;
use flame_program::Program;
use flame_rows::{NoMemory, Text};
use flame_spec::Variable;

/// The column of the variable that was found in it, where that is a single one.
fn found_column(variable: &Variable, column: u128) -> Result<Option<u32>, NoMemory>
    ensures { IfOk result (λ found. found ≡ single_found (Some (column, variable.now))) }
{
    if variable.length.is_some() {
        return Ok(None);
    }
    match u32::try_from(column) {
        Ok(column) => Ok(Some(column)),
        Err(_) => Err(NoMemory),
    }
}

/// The column of the single variable of this name, where there is one. NoMemory where 32 bits do not number it.
fn single_column(variables: &[Variable], name: &Text) -> Result<Option<u32>, NoMemory>
    ensures { IfOk result (λ column. column ≡ single_column variables.now name.now) }
{
    let mut column: u128 = 0;
    for variable in variables {
        if variable.name.as_str() == name.as_str() {
            return found_column(variable, column);
        }
        column += u128::from(variable.width());
    }
    Ok(None)
}

/// How agents with this memory are parted by the variable of a name, where a name is given.
fn parting_by(by: &Option<Text>, memory: &[Variable]) -> Result<Parting, NoMemory>
    ensures { IfOk result (λ parting. parting ≡ parting_by by.now memory.now) }
{
    let Some(name) = by else {
        return Ok(Parting::Rounds);
    };
    match single_column(memory, name)? {
        Some(column) => Ok(Parting::Ranges(column)),
        None => Ok(Parting::Rounds),
    }
}

/// How the agents of the type of this number are parted: by the ranges of the column of its single variable of the name, where a
/// name is given and the type has one, and else by rounds. NoMemory where 32 bits do not number that column.
pub(crate) fn parting_of(
    by: &Option<Text>,
    program: &Program,
    agent: u32,
) -> Result<Parting, NoMemory>
    ensures { IfOk result (λ parting. parting ≡ parting_for by.now (slice_get program.now.model.agents agent)) }
{
    match program.source().model.agents.items().get(agent as usize) {
        Some(agent) => parting_by(by, agent.memory.items()),
        None => Ok(Parting::Rounds),
    }
}
