//! Messages and agent types of a file.

ghost use Rattle.std.specs.Prelude.{◌≡◌, ◌++◌, [], not, map, IfErr, OnOk};
ghost use Rattle.std.specs.List.{filter};
ghost use Rattle.flame_nest.specs.NestFaults.{meant_by, message_faults, messages_faults, agents_faults};
ghost use Rattle.flame_nest.specs.GivenTables.{given_in};
ghost use Rattle.flame_spec.specs.FirstFaults.{FailsFirst};

use crate::earlier::Earlier;
use crate::faults::{NestFault, NestKind};
use crate::kinds::Kinds;
use crate::refusing::refuse;
use crate::variables::check_variables;
use flame_rows::{Fail, NoMemory, Text};
use flame_spec::{WideAgent, WideMessage};
use std::alloc::Global;

/// Whether the message is as in earlier files, or is new and has no fault.
fn check_message(
    alloc: Global,
    file: &Text,
    earlier: &Earlier<'_>,
    kinds: &Kinds<'_>,
    message: &WideMessage,
) -> Result<(), Fail<NestFault>>
    ensures none { OnOk result
        (message_faults file.now (given_in earlier.now) (meant_by kinds.now) message.now ≡ []) }
    ensures first { IfErr result
        (FailsFirst (message_faults file.now (given_in earlier.now) (meant_by kinds.now) message.now)) }
{
    let differs = earlier.differs(&message.name, &message.variables);
    refuse(alloc, differs, NestKind::Differs, file, &message.name)?;
    if earlier.has(&message.name) {
        return Ok(());
    }
    check_variables(alloc, file, kinds, message.variables.items())
}

/// The same of messages, one after another.
pub fn check_messages(
    alloc: Global,
    file: &Text,
    earlier: &Earlier<'_>,
    kinds: &Kinds<'_>,
    messages: &[WideMessage],
) -> Result<(), Fail<NestFault>>
    ensures none { OnOk result
        (messages_faults file.now (given_in earlier.now) (meant_by kinds.now) messages.now ≡ []) }
    ensures first { IfErr result
        (FailsFirst (messages_faults file.now (given_in earlier.now) (meant_by kinds.now) messages.now)) }
{
    for message in messages {
        check_message(alloc, file, earlier, kinds, message)?;
    }
    Ok(())
}

/// Whether the memories of agent types have no fault, one after another.
pub fn check_agents(
    alloc: Global,
    file: &Text,
    kinds: &Kinds<'_>,
    agents: &[WideAgent],
) -> Result<(), Fail<NestFault>>
    ensures none { OnOk result (agents_faults file.now (meant_by kinds.now) agents.now ≡ []) }
    ensures first { IfErr result (FailsFirst (agents_faults file.now (meant_by kinds.now) agents.now)) }
{
    for agent in agents {
        check_variables(alloc, file, kinds, agent.memory.items())?;
    }
    Ok(())
}

/// Adds those of the messages that no earlier file has given.
pub fn keep_new<'a>(
    earlier: &Earlier<'_>,
    messages: &'a [WideMessage],
    kept: &mut Vec<&'a WideMessage>,
) -> Result<(), NoMemory>
    ensures { OnOk result
        (map (λ message. message.now) kept.new.items
        ≡ map (λ message. message.now) kept.old.items
        ++ filter (λ message. not ((given_in earlier.now).has message.name)) messages.now) }
{
    for message in messages {
        if !earlier.has(&message.name) {
            kept.push(message)?;
        }
    }
    Ok(())
}
