//! The names of a model.

ghost use Rattle.std.specs.Prelude.{◌≡◌, ◌++◌, [], map, codes, IfOk, IfErr, OnOk};
ghost use Rattle.flame_ops.specs.Ascii.{capitals};
ghost use Rattle.flame_spec.specs.KnownNames.{unit_names, declared_by};
ghost use Rattle.flame_spec.specs.MessageFaults.{messages_faults};
ghost use Rattle.flame_spec.specs.NameFaults.{agents_faults, environment_faults, model_faults, name_faults};
ghost use Rattle.flame_spec.specs.Paths.{at_key};
ghost use Rattle.flame_names.specs.NameLooks.{message_entry};
ghost use Rattle.flame_names.specs.PlacePaths.{text_of};
ghost use Rattle.flame_name_sets.specs.NameTables.{names_of};
ghost use Rattle.flame_spec.specs.FirstFaults.{FailsFirst};

use crate::agents::agents;
use crate::functions::Tables;
use crate::lengths::{Lengths, units};
use crate::messages::{MessageTable, constants, messages};
use crate::path::Place;
use crate::table::Capitals;
use flame_rows::Fail;
use flame_spec::{Model, NameFault};
use std::alloc::Global;

/// Whether all names of a model stand for something, and no two for the same where they must not.
///
/// The model is walked in the order of its file: constants, time units, messages with their variables, agent types
/// with their memory and their functions. The fault is the first on this way. Its path is that of the text that holds
/// the name: the keys and list numbers from the root of the model file, each after a `/`. `NoMemory` is want of
/// memory. Each name is looked up in a hashed table, the width of a row is counted as its variables come, and a condition is
/// walked as deep as it is nested.
pub fn names(alloc: Global, model: &Model) -> Result<(), Fail<NameFault>>
    ensures none { OnOk result (name_faults model.now ≡ []) }
    ensures first { IfErr result (FailsFirst (name_faults model.now)) }
{
    model_names(alloc, &Place::Key(&Place::Root, "xmodel"), model)
}

/// The names of the model at this place.
fn model_names(alloc: Global, place: &Place<'_>, model: &Model) -> Result<(), Fail<NameFault>>
    ensures none { OnOk result (model_faults (text_of place.now) model.now ≡ []) }
    ensures first { IfErr result (FailsFirst (model_faults (text_of place.now) model.now)) }
{
    let (constants, units) = environment(alloc, &Place::Key(place, "environment"), model)?;
    types(alloc, place, &constants, &units, model)
}

/// The names of the messages and agent types of the model at this place, which has these constants, in capitals, and
/// these time units.
fn types(
    alloc: Global,
    place: &Place<'_>,
    constants: &Capitals,
    units: &Lengths<'_>,
    model: &Model,
) -> Result<(), Fail<NameFault>>
    requires constants { constants.now ≡ map capitals model.now.constants }
    requires units { names_of units.now ≡ unit_names model.now.units }
    ensures none { OnOk result (messages_faults (at_key (text_of place.now) (codes "messages")) model.now.messages
        ++ agents_faults (declared_by model.now) (at_key (text_of place.now) (codes "agents")) model.now.agents ≡ []) }
    ensures first { IfErr result (FailsFirst (messages_faults (at_key (text_of place.now) (codes "messages")) model.now.messages
        ++ agents_faults (declared_by model.now) (at_key (text_of place.now) (codes "agents")) model.now.agents)) }
{
    let messages = messages(
        alloc,
        &Place::Key(place, "messages"),
        model.messages.items(),
    )?;
    agent_types(alloc, place, constants, units, &messages, model)
}

/// The names of the agent types of the model at this place, which has these constants, in capitals, these time units
/// and these messages.
fn agent_types(
    alloc: Global,
    place: &Place<'_>,
    constants: &Capitals,
    units: &Lengths<'_>,
    messages: &MessageTable<'_>,
    model: &Model,
) -> Result<(), Fail<NameFault>>
    requires constants { constants.now ≡ map capitals model.now.constants }
    requires units { names_of units.now ≡ unit_names model.now.units }
    requires messages { messages.now ≡ map message_entry model.now.messages }
    ensures none { OnOk result (agents_faults
        (declared_by model.now)
        (at_key (text_of place.now) (codes "agents"))
        model.now.agents ≡ []) }
    ensures first { IfErr result (FailsFirst (agents_faults
        (declared_by model.now)
        (at_key (text_of place.now) (codes "agents"))
        model.now.agents)) }
{
    let tables = Tables {
        constants,
        units,
        messages,
    };
    agents(
        alloc,
        &tables,
        &Place::Key(place, "agents"),
        model.agents.items(),
    )
}

/// The constants, in capitals, and the time units of the environment at this place.
fn environment<'a>(
    alloc: Global,
    place: &Place<'_>,
    model: &'a Model,
) -> Result<(Capitals, Lengths<'a>), Fail<NameFault>>
    ensures none { OnOk result (environment_faults (text_of place.now) model.now ≡ []) }
    ensures constants { IfOk result (λ tables. tables.0 ≡ map capitals model.now.constants) }
    ensures units { IfOk result (λ tables. names_of tables.1 ≡ unit_names model.now.units) }
    ensures first { IfErr result (FailsFirst (environment_faults (text_of place.now) model.now)) }
{
    let constants = constants(
        alloc,
        &Place::Key(place, "constants"),
        model.constants.items(),
    )?;
    let units = units(alloc, &Place::Key(place, "timeUnits"), model.units.items())?;
    Ok((constants, units))
}
