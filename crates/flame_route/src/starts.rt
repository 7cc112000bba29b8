//! Where the agents of each type start.

ghost use Rattle.std.specs.Prelude.{◌≡◌, IfOk, map, not};
ghost use Rattle.std.specs.List.{position_or_len};
ghost use Rattle.flame_spec.specs.States.{is_entered, states};
ghost use Rattle.flame_route.specs.ModelRoutes.{start_place};

use crate::states::states_of;
use flame_depend::entered_states;
use flame_rows::{NoMemory, number};
use flame_spec::{AgentType, Function};
use std::alloc::Global;

/// The place of the first state of a type with these functions that none of them enters; how many states there are where
/// each is entered.
fn start_of(alloc: Global, functions: &[Function]) -> Result<usize, NoMemory>
    ensures { IfOk result (λ start. start
        ≡ position_or_len (λ state. not (is_entered functions.now state)) (states functions.now)) }
{
    let entered = entered_states(alloc, functions)?;
    let own = states_of(alloc, functions)?;
    let names = own.items();
    for (place, name) in names.iter().enumerate() {
        if !entered.contains(*name) {
            return Ok(place);
        }
    }
    Ok(names.len())
}

/// Where the agents of each of these types start.
pub(crate) fn starts_of(alloc: Global, agents: &[AgentType]) -> Result<Vec<u32>, NoMemory>
    ensures { IfOk result (λ starts. starts.items ≡ map start_place agents.now) }
{
    let mut starts = Vec::new(alloc);
    for agent in agents {
        let place = start_of(alloc, agent.functions.items())?;
        let start = number(place)?;
        starts.push(start)?;
    }
    Ok(starts)
}
