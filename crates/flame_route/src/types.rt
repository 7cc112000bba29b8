//! The routes of the functions of an agent type.

ghost use Rattle.std.specs.Prelude.{◌≡◌, ℕ, List, [], IfOk, length};
ghost use Rattle.flame_spec.specs.Functions.{at_type};
ghost use Rattle.flame_spec.specs.States.{states};
ghost use Rattle.flame_route.specs.ModelRoutes.{ReadsEach, IsRouteOf};
ghost use Rattle.flame_route.specs.TypeRoutes.{ReadsAll, AreTaken, AreTypeRoutes};
ghost use Rattle.flame_lookup.specs.WordTables.{numbers_under};

use crate::leaving::{lists_of, next_choice};
use crate::messages::Messages;
use crate::routes::Route;
use crate::states::states_of;
use flame_lookup::Table;
use flame_name_sets::Names;
use flame_rows::{NoMemory, Seq, number};
use flame_spec::{AgentType, Function};
use std::alloc::Global;
use std::collections::HashMap;

/// The routes of the functions of a type, and for each of its states the functions out of it.
#[derive(Drop)]
pub(crate) struct TypeRoutes {
    pub routes: Vec<Route>,
    pub leaving: Seq<Seq<u32>>,
}

/// The route of a function of the type of this number, which has these states; the function stands in this choice.
fn route_of(
    alloc: Global,
    messages: &Messages<'_>,
    own: &Names<'_>,
    at: u32,
    agent: &AgentType,
    function: &Function,
    choice: u32,
) -> Result<Route, NoMemory>
    requires states { own.now ≡ states agent.now.functions }
    requires reads { ReadsEach messages.now function.now }
    ensures route { IfOk result (IsRouteOf messages.now (at_type at agent.now function.now)) }
    ensures choice { IfOk result (λ route. route.choice ≡ choice) }
{
    let from = number(own.place(function.current.as_str()))?;
    let to = number(own.place(function.next.as_str()))?;
    let inputs = messages.read_by_each(alloc, function.inputs.items())?;
    let outputs = messages.numbers_of(alloc, function.outputs.items())?;
    Ok(Route {
        agent: at,
        from,
        to,
        choice,
        inputs: Seq::of(inputs),
        outputs: Seq::of(outputs),
    })
}

/// The routes of the functions of the type of this number, of which the first has this number; notes each function
/// under the state that it leaves.
fn chosen_routes(
    alloc: Global,
    messages: &Messages<'_>,
    own: &Names<'_>,
    at: u32,
    agent: &AgentType,
    first: u32,
    table: &mut Table<Vec<u32>>,
) -> Result<Vec<Route>, NoMemory>
    requires states { own.now ≡ states agent.now.functions }
    requires reads { ReadsAll messages.now agent.now.functions }
    requires none { (state : List ℕ) → numbers_under table.old state ≡ [] }
    ensures { IfOk result (λ routes. AreTaken messages.now at agent.now first (length agent.now.functions)
        routes.items (numbers_under table.new)) }
{
    let functions = agent.functions.items();
    let mut routes = Vec::new(alloc);
    for (i, function) in functions.iter().enumerate() {
        let here = number(first as usize + i)?;
        let choice = next_choice(alloc, table, function.current.as_str(), here)?;
        let route = route_of(alloc, messages, own, at, agent, function, choice)?;
        routes.push(route)?;
    }
    Ok(routes)
}

/// The routes of the functions of the type of this number, of which the first has this number.
pub(crate) fn routes_of(
    alloc: Global,
    messages: &Messages<'_>,
    at: u32,
    agent: &AgentType,
    first: u32,
) -> Result<TypeRoutes, NoMemory>
    requires { ReadsAll messages.now agent.now.functions }
    ensures { IfOk result (λ found. AreTypeRoutes messages.now at agent.now first found.routes.items found.leaving) }
{
    let functions = agent.functions.items();
    let own = states_of(alloc, functions)?;
    let mut table = HashMap::new(alloc);
    let routes = chosen_routes(alloc, messages, &own, at, agent, first, &mut table)?;
    let leaving = lists_of(alloc, &table, own.items())?;
    Ok(TypeRoutes {
        routes,
        leaving: Seq::of(leaving),
    })
}
