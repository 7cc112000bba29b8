//! The names of what a model has, by number.

ghost use Rattle.std.specs.Prelude.{◌≡◌, ◌++◌, IfOk, OnOk, map, string_bytes};
ghost use Rattle.flame_lookup.specs.WordsFound.{place_found};
ghost use Rattle.flame_spec.specs.Functions.{at_type, functions};
ghost use Rattle.flame_report.specs.LineParts.{name_among, type_name, function_file};

use flame_lookup::Transition;
use flame_rows::{NoMemory, number};
use flame_spec::{AgentType, Model};
use std::alloc::Global;
use std::fmt::Write;

/// The name of the function file of this number; empty where the model has none.
pub(crate) fn function_file(model: &Model, file: u32) -> &str
    ensures { result.now ≡ function_file model.now file }
{
    match model.files.items().get(file as usize) {
        Some(name) => name.as_str(),
        None => "",
    }
}

/// The name of the agent type of this number; empty where the model has none.
pub(crate) fn type_name(model: &Model, agent: u32) -> &str
    ensures { result.now ≡ type_name model.now agent }
{
    match model.agents.items().get(agent as usize) {
        Some(agent) => agent.name.as_str(),
        None => "",
    }
}

/// Adds the functions of the type of this number.
fn list_type<'a>(
    number: u32,
    agent: &'a AgentType,
    places: &mut Vec<Transition<'a>>,
) -> Result<(), NoMemory>
    ensures { OnOk result (map place_found places.new.items
        ≡ map place_found places.old.items ++ map (at_type number agent.now) agent.now.functions) }
{
    for function in agent.functions.items() {
        places.push(Transition {
            number,
            agent,
            function,
        })?;
    }
    Ok(())
}

/// The functions of the model in document order.
pub(crate) fn listed_functions<'a>(
    alloc: Global,
    model: &'a Model,
) -> Result<Vec<Transition<'a>>, NoMemory>
    ensures { IfOk result (λ places. map place_found places.items ≡ functions model.now) }
{
    let mut places = Vec::new(alloc);
    for (i, agent) in model.agents.items().iter().enumerate() {
        list_type(number(i)?, agent, &mut places)?;
    }
    Ok(places)
}

/// Adds the name of the function of this number, `Type.function`; nothing where there is none.
pub(crate) fn push_function(
    text: &mut String,
    places: &[Transition<'_>],
    function: u32,
) -> Result<(), NoMemory>
    ensures { OnOk result (string_bytes text.new
        ≡ string_bytes text.old ++ name_among (map place_found places.now) function) }
{
    if let Some(place) = places.get(function as usize) {
        let agent = place.agent.name.as_str();
        let name = place.function.name.as_str();
        write!(text, "{agent}.{name}")?;
    }
    Ok(())
}
