//! One function of an iteration.

ghost use Rattle.std.specs.Prelude.{◌≡◌, ◌<◌, ℕ, ℤ, List, [], Some, IfOk, length, map, slice_index_or};
ghost use Rattle.std.specs.List.{All};
ghost use Rattle.flame_rows.specs.Bags.{ascending, merge};
ghost use Rattle.flame_spec.specs.Before.{function_count};
ghost use Rattle.flame_meaning.specs.Outcomes.{outcome, place_of};
ghost use Rattle.flame_index.specs.FrozenBoards.{shared_messages};
ghost use Rattle.flame_world.specs.Fields.{changed_pool, joined};
ghost use Rattle.flame_world.specs.AgentRuns.{births_of, messages_of};
ghost use Rattle.flame_world.specs.InputBoards.{boards_named};
ghost use Rattle.flame_world.specs.Iterations.{step as meant, unless_faulted};
ghost use Rattle.flame_world.specs.WorldFits.{FitsField};
ghost use Rattle.flame_leaving.specs.Leavings.{AreLeft};
ghost use Rattle.flame_field.specs.KeptPools.{pools_of, AreDealt};
ghost use Rattle.flame_field.specs.KeptFields.{field_of};
ghost use Rattle.flame_round.specs.Choices.{choice_at};
ghost use Rattle.flame_round.specs.KeptRounds.{FitsRun, round_of};
ghost use Rattle.flame_runner.specs.KeptSteps.{result_of, IsOnDealt};

use flame_field::{Field, share};
use flame_index::Frozen;
use flame_leaving::Leaving;
use flame_leaving::laws::parts_make_the_whole;
use flame_round::{Round, leave_chosen, route_of, run_over};
use flame_route::Route;
use flame_rows::{NoMemory, Row, Seq};
use flame_world::SimFault;
use std::alloc::Global;
use std::sync::Arc;

/// What a function comes to.
#[derive(Debug, Drop)]
pub(crate) enum Stepped {
    /// It ran, and agents, births and messages are here.
    On(Field),
    /// An agent faulted.
    Faulted(SimFault),
}

/// What these agents leave that run the function, with these boards of its inputs.
fn run(
    alloc: Global,
    round: &Round<'_>,
    function: u32,
    takers: &[Row],
    boards: Vec<Arc<Frozen>>,
) -> Result<Leaving, NoMemory>
    requires fits { FitsRun round.now.program.now.model function round.now.constants.now
        (map shared_messages boards.items) takers.now }
    ensures { IfOk result (λ leaving. (all : List (List (List ℤ)))
        → map shared_messages boards.items
        ≡ boards_named (place_of round.now.program.now function) round.now.program.now.model all
        → AreLeft round.now.iteration function (λ memory. outcome round.now.program.now function memory all
        round.now.constants.now round.now.iteration round.now.fuel) takers.now leaving) }
{
    let boards = Seq::of(boards);
    run_over(alloc, round, function, takers, &boards)
}

/// What the takers left goes where it belongs, where the function goes by this route: survivors arrive, births are set aside,
/// messages join their boards. Where one of them faulted, their fault is kept.
fn settle(alloc: Global, route: &Route, field: Field, leaving: Leaving) -> Result<Stepped, NoMemory>
    requires to { route.now.to < length (slice_index_or (pools_of field.pools) route.now.agent []) }
    requires messages { All (λ message. message.message < length field.boards.items) leaving.sent.items }
    ensures dealt { IfOk result (λ stepped. (choose : ℕ → ℕ → List ℤ → ℕ) → AreDealt choose field.pools
        → IsOnDealt choose stepped) }
    ensures stepped { IfOk result (λ stepped. result_of stepped ≡ unless_faulted leaving.fault (record {
      pools = changed_pool route.now.agent route.now.to (λ pool. merge pool (ascending leaving.survivors.items))
          (field_of field).pools;
      born = joined (births_of leaving.born.items) (field_of field).born;
      boards = joined (messages_of leaving.sent.items) (field_of field).boards;
    })) }
{
    let mut field = field;
    let Leaving {
        survivors,
        sent,
        born,
        fault,
        ..
    } = leaving;
    match fault {
        Some(fault) => Ok(Stepped::Faulted(fault)),
        None => {
            field.settle(alloc, route.agent, route.to, survivors, sent, born)?;
            Ok(Stepped::On(field))
        }
    }
}

/// The function runs for all that take it (FLAME User Manual). They run in the order in which they stand, which does not
/// matter.
pub(crate) fn step(
    alloc: Global,
    round: &Round<'_>,
    function: u32,
    field: Field,
) -> Result<Stepped, NoMemory>
    requires there { function < function_count round.now.program.now.model }
    requires known { length round.now.constants.now ≡ length round.now.program.now.model.constants }
    requires fits { FitsField round.now.program.now.model (field_of field) }
    requires dealt { AreDealt (choice_at round.now.program.now.model round.now.iteration) field.pools }
    ensures dealt { IfOk result (IsOnDealt (choice_at round.now.program.now.model round.now.iteration)) }
    ensures stepped { IfOk result (λ stepped. result_of stepped ≡ meant (round_of round.now) function (field_of field)) }
{
    parts_make_the_whole();
    let mut field = field;
    let route = route_of(round, function);
    let takers = leave_chosen(alloc, round, function, route, &mut field.pools)?;
    let boards = share(alloc, &mut field.boards, route.inputs.items(), round.wants)?;
    let leaving = run(alloc, round, function, takers.as_slice(), boards)?;
    settle(alloc, route, field, leaving)
}
