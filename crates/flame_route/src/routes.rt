//! The routes of the functions of a model.

ghost use Rattle.std.specs.Prelude.{IfOk};
ghost use Rattle.flame_route.specs.ModelRoutes.{ReadMessages, AreRoutesOf};

use crate::messages::Messages;
use crate::starts::starts_of;
use crate::types::routes_of;
use flame_rows::{NoMemory, Seq, number};
use flame_spec::Model;
use std::alloc::Global;

/// How the agents that take a function go. States are numbered within their type, in the order in which its functions first
/// name them.
#[derive(Debug, Drop)]
pub struct Route {
    /// The number of the agent type.
    pub agent: u32,
    /// The state that the function leaves.
    pub from: u32,
    /// The state that it enters.
    pub to: u32,
    /// Its place among the functions out of the state that it leaves.
    pub choice: u32,
    /// The message that each of its inputs reads, by number.
    pub inputs: Seq<u32>,
    /// The messages that it adds, by number.
    pub outputs: Seq<u32>,
}

/// The routes of all functions of a model.
#[derive(Debug, Drop)]
pub struct Routes {
    /// The route of each function, in document order.
    pub routes: Seq<Route>,
    /// For each agent type, for each of its states, the functions out of it, by number, in document order.
    pub leaving: Seq<Seq<Seq<u32>>>,
    /// For each agent type the state where its agents start: the first that no function of it enters, or how many states
    /// there are where each is entered.
    pub starts: Seq<u32>,
}

impl Routes {
    /// The routes of the model's functions, whose inputs read messages of the model. `NoMemory` comes where none is found,
    /// and where 32 bits cannot number the types, functions, states or messages of the model.
    pub fn of(alloc: Global, model: &Model) -> Result<Routes, NoMemory>
        requires { ReadMessages model.now }
        ensures { IfOk result (λ routes. AreRoutesOf model.now routes) }
    {
        let messages = Messages::of(alloc, model)?;
        let agents = model.agents.items();
        let mut routes = Vec::new(alloc);
        let mut leaving = Vec::new(alloc);
        for (i, agent) in agents.iter().enumerate() {
            let at = number(i)?;
            let first = number(routes.len())?;
            let mut own = routes_of(alloc, &messages, at, agent, first)?;
            routes.append(&mut own.routes)?;
            leaving.push(own.leaving)?;
        }
        Ok(Routes {
            routes: Seq::of(routes),
            leaving: Seq::of(leaving),
            starts: Seq::of(starts_of(alloc, agents)?),
        })
    }
}
