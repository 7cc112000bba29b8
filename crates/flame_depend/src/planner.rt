//! Planning.

ghost use Rattle.std.specs.Prelude.{◌≡◌, ◌^◌, ◌<◌, None, IsTrue, IfOk, IfErr, length};
ghost use Rattle.flame_spec.specs.Before.{before, function_count};
ghost use Rattle.flame_spec.specs.Counted.{is_numbered};
ghost use Rattle.flame_spec.specs.Functions.{functions};
ghost use Rattle.flame_spec.specs.ModelOrder.{model_order, left_over};
ghost use Rattle.flame_depend.specs.Plans.{IsPlan, FailsBy};
ghost use Rattle.flame_graph.specs.Graph.{AreSuccessors};

use crate::faults::{CycleFault, DependFault};
use crate::links::link_all;
use crate::place::place_all;
use crate::plans::Plan;
use crate::starts::{Found, find_starts};
use flame_graph::{Successors, begin_with_least, first_waiting, layers, put_in_order, walk_back};
use flame_rows::{Fail, Seq};
use flame_spec::Model;
use std::alloc::Global;

/// The plan of a model without a cycle, whose functions run in this order.
fn plan_ordered(
    alloc: Global,
    model: &Model,
    lists: &[Successors],
    order: Vec<u32>,
) -> Result<Plan, Fail<DependFault>>
    requires functions { function_count model.now < 2 ^ 32 }
    requires agents { length model.now.agents < 2 ^ 32 }
    requires lists { AreSuccessors (function_count model.now) (before model.now) lists.now }
    requires order { order.items ≡ model_order model.now }
    requires acyclic { left_over model.now ≡ None }
    ensures plan { IfOk result (IsPlan model.now) }
    ensures fault { IfErr result (FailsBy model.now) }
{
    let layers = layers(alloc, lists, &order)?;
    match find_starts(alloc, model.agents.items())? {
        Found::Many(fault) => Err(Fail::Fault(DependFault::Starts(fault))),
        Found::Lone(starts) => Ok(Plan {
            order: Seq::of(order),
            layers: Seq::of(layers),
            starts: Seq::of(starts),
        }),
    }
}

/// The order of the model's functions, their layers, and the start state of each agent type.
///
/// Again and again the first function in document order runs that has not run and before which all that stand before
/// it have run. The model is one that `Model::has_few_functions` passes, and it has fewer than 2^32 agent types. With f
/// functions and e edges it takes time for about f log f + e steps.
///
/// # Errors
///
/// `Fault` with `Cycle` comes exactly where functions are left over, with the cycle that is met from the first of
/// them by stepping again and again to the first left-over function before. `Fault` with `Starts` comes exactly where
/// none is left over and a type has two start states or more: states that no function of the type enters. It has the
/// first such type. `NoMemory` is want of memory.
pub fn plan(alloc: Global, model: &Model) -> Result<Plan, Fail<DependFault>>
    requires functions { IsTrue (is_numbered (functions model.now)) }
    requires agents { length model.now.agents < 2 ^ 32 }
    ensures plan { IfOk result (IsPlan model.now) }
    ensures fault { IfErr result (FailsBy model.now) }
{
    let places = place_all(alloc, model)?;
    let lists = link_all(alloc, model.agents.items().len(), &places)?;
    let links = lists.as_slice();
    let ordered = put_in_order(alloc, links)?;
    match first_waiting(&ordered.waiting) {
        Some(start) => {
            let mut functions = walk_back(alloc, links, &ordered.waiting, start)?;
            begin_with_least(&mut functions);
            Err(Fail::Fault(DependFault::Cycle(CycleFault {
                functions: Seq::of(functions),
            })))
        }
        None => plan_ordered(alloc, model, links, ordered.order),
    }
}
