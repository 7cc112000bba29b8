//! The functions of a model in one list.

ghost use Rattle.std.specs.Prelude.{◌≡◌, ◌++◌, IfOk, OnOk, map};
ghost use Rattle.flame_spec.specs.Functions.{at_type, functions};
ghost use Rattle.flame_depend.specs.PlacedFunctions.{shown};

use flame_rows::NoMemory;
use flame_spec::{AgentType, Function, Model};
use std::alloc::Global;

/// A function with its type and the number of its type.
#[derive(Clone, Copy)]
pub struct Placed<'a> {
    pub agent: usize,
    pub kind: &'a AgentType,
    pub function: &'a Function,
}

/// Adds the functions of one type.
fn place_type<'a>(
    agent: usize,
    kind: &'a AgentType,
    places: &mut Vec<Placed<'a>>,
) -> Result<(), NoMemory>
    ensures { OnOk result (
        map shown places.new.items
        ≡ map shown places.old.items ++ map (at_type agent kind.now) kind.now.functions) }
{
    for function in kind.functions.items() {
        places.push(Placed {
            agent,
            kind,
            function,
        })?;
    }
    Ok(())
}

/// All functions of the model in document order.
pub fn place_all<'a>(alloc: Global, model: &'a Model) -> Result<Vec<Placed<'a>>, NoMemory>
    ensures { IfOk result (λ places. map shown places.items ≡ functions model.now) }
{
    let mut places: Vec<Placed<'a>> = Vec::new(alloc);
    for (agent, kind) in model.agents.items().iter().enumerate() {
        place_type(agent, kind, &mut places)?;
    }
    Ok(places)
}
