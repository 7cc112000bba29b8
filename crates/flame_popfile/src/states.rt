//! The states of a population.

ghost use Rattle.std.specs.Prelude.{◌≡◌};
ghost use Rattle.serde_json.specs.View.{view};
ghost use Rattle.flame_popfile.specs.PopulationParts.{object_faults};
ghost use Rattle.flame_popfile.specs.PopulationFaults.{world_faults, states_faults, population_faults};
ghost use Rattle.flame_popfile.specs.PopulationStarts.{world_of, states_start, start_of};
ghost use Rattle.flame_xmml.specs.ValuePlaces.{path_of};
ghost use Rattle.flame_spec.specs.FirstFaults.{Reads};

use crate::agents::agents_at;
use crate::environment::{constants_at, format_at, number_at, within_limit};
use crate::faults::{PopFault, PopKind};
use crate::formats::Format;
use crate::kinds::Kinds;
use crate::parts::{fault, object};
use crate::starts::Start;
use flame_rows::Fail;
use flame_spec::Model;
use flame_world::World;
use flame_xmml::{Place, part};
use serde_json::Value;
use std::alloc::Global;

/// The start that the value holds for the model, from which so many iterations are to follow.
pub(crate) fn start_of(
    alloc: Global,
    value: &Value,
    model: &Model,
    turns: u32,
) -> Result<Start, Fail<PopFault>>
    ensures { Reads
        (population_faults model.now turns (view value.now))
        (start_of model.now (view value.now))
        result }
{
    let root = Place::Root;
    object(alloc, &root, value)?;
    let place = Place::Key(&root, "states");
    match part(value, "states") {
        Some(states) => states_of(alloc, model, turns, &place, states),
        None => Err(fault(alloc, &place, PopKind::Shape)),
    }
}

/// The start that the states at a place hold.
fn states_of(
    alloc: Global,
    model: &Model,
    turns: u32,
    place: &Place<'_>,
    states: &Value,
) -> Result<Start, Fail<PopFault>>
    ensures { Reads
        (object_faults (states_faults model.now turns) (path_of place.now) (view states.now))
        (states_start model.now (view states.now))
        result }
{
    object(alloc, place, states)?;
    start_in(alloc, model, turns, place, states)
}

/// The start that the parts of the states at a place hold.
fn start_in(
    alloc: Global,
    model: &Model,
    turns: u32,
    place: &Place<'_>,
    states: &Value,
) -> Result<Start, Fail<PopFault>>
    ensures { Reads
        (states_faults model.now turns (path_of place.now) (view states.now))
        (states_start model.now (view states.now))
        result }
{
    let format = format_at(alloc, place, states)?;
    let itno = number_at(alloc, place, states)?;
    let world = world_at(alloc, format, model, place, states)?;
    within_limit(alloc, place, states, itno, turns)?;
    Ok(Start { itno, world })
}

/// The world that the states at a place hold in this version.
fn world_at(
    alloc: Global,
    format: Format,
    model: &Model,
    place: &Place<'_>,
    states: &Value,
) -> Result<World, Fail<PopFault>>
    ensures { Reads
        (world_faults format model.now (path_of place.now) (view states.now))
        (world_of format model.now (view states.now))
        result }
{
    let names = model.constants.items();
    let types = model.agents.items();
    let constants = constants_at(alloc, format, names, place, states)?;
    let kinds = Kinds::of(alloc, types)?;
    let agents = agents_at(alloc, format, &kinds, place, states)?;
    Ok(World { constants, agents })
}
