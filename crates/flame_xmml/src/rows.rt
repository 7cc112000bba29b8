//! Variables, and what has a list of them: message types, data types and agent types, plain and wide.

ghost use Rattle.std.specs.Prelude.{◌≡◌, codes, IfOk};
ghost use Rattle.serde_json.specs.View.{view};
ghost use Rattle.flame_xmml.specs.LeafShapes.{int_faults};
ghost use Rattle.flame_xmml.specs.ShapeFaults.{variable_faults, wide_variable_faults, row_faults, function_faults};
ghost use Rattle.flame_xmml.specs.ShapeFaults.{agent_faults, nested_faults};
ghost use Rattle.flame_xmml.specs.Models.{name_at, list_at, variable_of, message_of, function_of, agent_of};
ghost use Rattle.flame_xmml.specs.WideValues.{wide_variable_of, type_of, wide_message_of, wide_agent_of, nested_of};
ghost use Rattle.flame_xmml.specs.WideValues.{enabled_files};
ghost use Rattle.flame_xmml.specs.ValuePlaces.{path_of};
ghost use Rattle.flame_spec.specs.FirstFaults.{Reads};

use crate::faults::Shape;
use crate::keys::{file_at, int_type, length_at, name_at, truth_at};
use crate::list::{Member, list_at};
use crate::parts::object;
use crate::place::Place;
use flame_rows::{Fail, NoMemory, Seq, Text};
use flame_spec::{
    AgentType, DataType, Function, MessageType, Variable, WideAgent, WideMessage, WideVariable,
};
use serde_json::Value;
use std::alloc::Global;

/// A model file that is named.
#[derive(Drop)]
pub(crate) struct Nested {
    file: Text,
    enabled: bool,
}

impl Member for Variable {
    type Read = Variable;

    ghost faults = { variable_faults int_faults };

    ghost meant = { variable_of };

    fn read(alloc: Global, place: &Place<'_>, value: &Value) -> Result<Variable, Fail<Shape>> {
        object(alloc, place, value)?;
        int_type(alloc, place, value)?;
        Ok(Variable {
            name: name_at(alloc, place, value, "name")?,
            length: length_at(alloc, place, value)?,
        })
    }
}

impl Member for WideVariable {
    type Read = WideVariable;

    ghost faults = { wide_variable_faults };

    ghost meant = { wide_variable_of };

    fn read(alloc: Global, place: &Place<'_>, value: &Value) -> Result<WideVariable, Fail<Shape>> {
        object(alloc, place, value)?;
        let kind = name_at(alloc, place, value, "type")?;
        Ok(WideVariable {
            name: name_at(alloc, place, value, "name")?,
            kind,
            length: length_at(alloc, place, value)?,
        })
    }
}

impl Member for MessageType {
    type Read = MessageType;

    ghost faults = { row_faults (variable_faults int_faults) };

    ghost meant = { message_of };

    fn read(alloc: Global, place: &Place<'_>, value: &Value) -> Result<MessageType, Fail<Shape>> {
        let (name, variables) = row::<Variable>(alloc, place, value)?;
        Ok(MessageType { name, variables })
    }
}

impl Member for WideMessage {
    type Read = WideMessage;

    ghost faults = { row_faults wide_variable_faults };

    ghost meant = { wide_message_of };

    fn read(alloc: Global, place: &Place<'_>, value: &Value) -> Result<WideMessage, Fail<Shape>> {
        let (name, variables) = row::<WideVariable>(alloc, place, value)?;
        Ok(WideMessage { name, variables })
    }
}

impl Member for DataType {
    type Read = DataType;

    ghost faults = { row_faults wide_variable_faults };

    ghost meant = { type_of };

    fn read(alloc: Global, place: &Place<'_>, value: &Value) -> Result<DataType, Fail<Shape>> {
        let (name, variables) = row::<WideVariable>(alloc, place, value)?;
        Ok(DataType { name, variables })
    }
}

impl Member for AgentType {
    type Read = AgentType;

    ghost faults = { agent_faults (variable_faults int_faults) };

    ghost meant = { agent_of };

    fn read(alloc: Global, place: &Place<'_>, value: &Value) -> Result<AgentType, Fail<Shape>> {
        let (name, memory, functions) = agent::<Variable>(alloc, place, value)?;
        Ok(AgentType {
            name,
            memory,
            functions,
        })
    }
}

impl Member for WideAgent {
    type Read = WideAgent;

    ghost faults = { agent_faults wide_variable_faults };

    ghost meant = { wide_agent_of };

    fn read(alloc: Global, place: &Place<'_>, value: &Value) -> Result<WideAgent, Fail<Shape>> {
        let (name, memory, functions) = agent::<WideVariable>(alloc, place, value)?;
        Ok(WideAgent {
            name,
            memory,
            functions,
        })
    }
}

impl Member for Nested {
    type Read = Nested;

    ghost faults = { nested_faults };

    ghost meant = { nested_of };

    fn read(alloc: Global, place: &Place<'_>, value: &Value) -> Result<Nested, Fail<Shape>> {
        object(alloc, place, value)?;
        Ok(Nested {
            file: file_at(alloc, place, value)?,
            enabled: truth_at(alloc, place, value, "enabled", true)?,
        })
    }
}

/// The name and the variables of a message type or a data type.
fn row<V: Member>(
    alloc: Global,
    place: &Place<'_>,
    value: &Value,
) -> Result<(Text, Seq<V::Read>), Fail<Shape>>
    ensures { Reads
        (row_faults V.faults (path_of place.now) (view value.now))
        (name_at (codes "name") (view value.now), list_at V.meant (codes "variables") (view value.now))
        result }
{
    object(alloc, place, value)?;
    let name = name_at(alloc, place, value, "name")?;
    let variables = list_at::<V>(alloc, place, value, "variables")?;
    Ok((name, variables))
}

/// The name, the memory and the functions of an agent type.
fn agent<V: Member>(
    alloc: Global,
    place: &Place<'_>,
    value: &Value,
) -> Result<(Text, Seq<V::Read>, Seq<Function>), Fail<Shape>>
    ensures { Reads
        (agent_faults V.faults (path_of place.now) (view value.now)) (
          name_at (codes "name") (view value.now),
          list_at V.meant (codes "memory") (view value.now),
          list_at function_of (codes "functions") (view value.now),
        )
        result }
{
    object(alloc, place, value)?;
    let name = name_at(alloc, place, value, "name")?;
    let memory = list_at::<V>(alloc, place, value, "memory")?;
    let functions = list_at::<Function>(alloc, place, value, "functions")?;
    Ok((name, memory, functions))
}

/// The names of the files that are taken in.
pub(crate) fn enabled(alloc: Global, files: &[Nested]) -> Result<Seq<Text>, NoMemory>
    ensures { IfOk result (λ names. names ≡ enabled_files files.now) }
{
    let mut names = Vec::new(alloc);
    for nested in files {
        if nested.enabled {
            names.push(Text::of(alloc, nested.file.as_str())?)?;
        }
    }
    Ok(Seq::of(names))
}
