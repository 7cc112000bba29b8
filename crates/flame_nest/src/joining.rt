//! The lists of all files, one after another.

ghost use Rattle.std.specs.Prelude.{◌≡◌, ◌++◌, map, not, IfOk, OnOk};
ghost use Rattle.std.specs.List.{filter, flat_map, fold};
ghost use Rattle.flame_spec.specs.KnownNames.{is_among};
ghost use Rattle.flame_nest.specs.FlatModels.{joined_files, flat_message, flat_agent};
ghost use Rattle.flame_nest.specs.KindTables.{with_name};

use crate::copies::{copied_functions, put_texts, put_units};
use crate::kinds::Kinds;
use crate::noting::note_name;
use flame_name_sets::Names;
use flame_rows::{Copied, NoMemory, Seq, Text};
use flame_spec::{AgentType, MessageType, TimeUnit, Wide, WideAgent, WideMessage};
use std::alloc::Global;

/// The constants of all files.
pub fn constants(alloc: Global, wides: &[Wide]) -> Result<Vec<Text>, NoMemory>
    ensures { IfOk result (λ joined. joined.items ≡ flat_map (λ wide. wide.constants) wides.now) }
{
    let mut joined = Vec::new(alloc);
    for wide in wides {
        put_texts(alloc, wide.constants.items(), &mut joined)?;
    }
    Ok(joined)
}

/// The time units of all files.
pub fn units(alloc: Global, wides: &[Wide]) -> Result<Vec<TimeUnit>, NoMemory>
    ensures { IfOk result (λ joined. joined.items ≡ flat_map (λ wide. wide.units) wides.now) }
{
    let mut joined = Vec::new(alloc);
    for wide in wides {
        put_units(alloc, wide.units.items(), &mut joined)?;
    }
    Ok(joined)
}

/// Adds those of the names that are not there.
fn put_new(
    alloc: Global,
    there: &Names<'_>,
    names: &[Text],
    put: &mut Vec<Text>,
) -> Result<(), NoMemory>
    ensures { OnOk result
        (put.new.items ≡ put.old.items ++ filter (λ name. not (is_among name there.now)) names.now) }
{
    for name in names {
        if !there.has(name.as_str()) {
            put.push(name.copy(alloc)?)?;
        }
    }
    Ok(())
}

/// Adds these names, where they are new.
fn note<'a>(there: &mut Names<'a>, names: &'a [Text]) -> Result<(), NoMemory>
    ensures { OnOk result (there.new ≡ fold with_name there.old names.now) }
{
    for name in names {
        note_name(there, name)?;
    }
    Ok(())
}

/// The function files of all files: one that an earlier file has given is passed over.
pub fn files(alloc: Global, wides: &[Wide]) -> Result<Vec<Text>, NoMemory>
    ensures { IfOk result (λ joined. joined.items ≡ joined_files wides.now) }
{
    let mut joined = Vec::new(alloc);
    let mut there = Names::new(alloc);
    for wide in wides {
        put_new(alloc, &there, wide.files.items(), &mut joined)?;
        note(&mut there, wide.files.items())?;
    }
    Ok(joined)
}

fn flat_message(
    alloc: Global,
    kinds: &Kinds<'_>,
    message: &WideMessage,
) -> Result<MessageType, NoMemory>
    ensures { IfOk result (λ flat. flat ≡ flat_message kinds.now message.now) }
{
    Ok(MessageType {
        name: message.name.copy(alloc)?,
        variables: Seq::of(kinds.flat(alloc, message.variables.items())?),
    })
}

/// The flat message types.
pub fn messages(
    alloc: Global,
    kinds: &Kinds<'_>,
    messages: &[&WideMessage],
) -> Result<Vec<MessageType>, NoMemory>
    ensures { IfOk result (λ flat.
        flat.items ≡ map (flat_message kinds.now) (map (λ message. message.now) messages.now)) }
{
    let mut flat = Vec::new(alloc);
    for message in messages {
        flat.push(flat_message(alloc, kinds, message)?)?;
    }
    Ok(flat)
}

fn flat_agent(alloc: Global, kinds: &Kinds<'_>, agent: &WideAgent) -> Result<AgentType, NoMemory>
    ensures { IfOk result (λ flat. flat ≡ flat_agent kinds.now agent.now) }
{
    Ok(AgentType {
        name: agent.name.copy(alloc)?,
        memory: Seq::of(kinds.flat(alloc, agent.memory.items())?),
        functions: copied_functions(alloc, &agent.functions)?,
    })
}

/// Adds the flat agent types of a file.
fn put_agents(
    alloc: Global,
    kinds: &Kinds<'_>,
    agents: &[WideAgent],
    flat: &mut Vec<AgentType>,
) -> Result<(), NoMemory>
    ensures { OnOk result (flat.new.items ≡ flat.old.items ++ map (flat_agent kinds.now) agents.now) }
{
    for agent in agents {
        flat.push(flat_agent(alloc, kinds, agent)?)?;
    }
    Ok(())
}

/// The flat agent types of all files.
pub fn agents(alloc: Global, kinds: &Kinds<'_>, wides: &[Wide]) -> Result<Vec<AgentType>, NoMemory>
    ensures { IfOk result (λ flat.
        flat.items ≡ map (flat_agent kinds.now) (flat_map (λ wide. wide.agents) wides.now)) }
{
    let mut flat = Vec::new(alloc);
    for wide in wides {
        put_agents(alloc, kinds, wide.agents.items(), &mut flat)?;
    }
    Ok(flat)
}
