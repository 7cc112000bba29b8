//! The texts of whole iterations. Each call adds a text to the bytes.

ghost use Rattle.std.specs.Prelude.{◌≡◌, ◌++◌, OnOk};
ghost use Rattle.flame_popfile.specs.declared.formats.Format.TheVariants.{One, Two};
ghost use Rattle.flame_popfile.specs.IterationTexts.{text, head_text, all_agent_texts, all_board_texts};
ghost use Rattle.flame_popfile.specs.RowTexts.{with_commas};

use crate::boards::{push_boards, push_message_bags, push_type_bags};
use crate::formats::Format;
use crate::pieces::{push_number, push_str};
use crate::rows::{push_all_agents, push_constants, push_numbers};
use crate::writers::Writer;
use flame_rows::NoMemory;
use flame_spec::Model;
use flame_world::{Boards, World};

/// Adds the text of an iteration in a version.
pub(crate) fn push_text<W: Writer>(
    writer: &W,
    bytes: &mut Vec<u8>,
    model: &Model,
    format: Format,
    itno: i32,
    world: &World,
    boards: &Boards,
) -> Result<(), NoMemory>
    requires { W.ready writer.now }
    ensures { OnOk result
        (bytes.new.items ≡ bytes.old.items ++ text model.now format itno world.now boards.now) }
{
    push_head(bytes, model, format, itno, world)?;
    push_agents(writer, bytes, model, format, world)?;
    push_str(bytes, "],\"boards\":[")?;
    push_messages(writer, bytes, model, format, boards)?;
    push_str(bytes, "]}}\n")?;
    Ok(())
}

/// Adds what stands before the agents.
fn push_head(
    bytes: &mut Vec<u8>,
    model: &Model,
    format: Format,
    itno: i32,
    world: &World,
) -> Result<(), NoMemory>
    ensures { OnOk result
        (bytes.new.items ≡ bytes.old.items ++ head_text model.now format itno world.now) }
{
    match format {
        Format::One => push_head_one(bytes, model, itno, world),
        Format::Two => push_head_two(bytes, model, itno, world),
    }
}

/// Adds what stands before the agents in version 1.
fn push_head_one(
    bytes: &mut Vec<u8>,
    model: &Model,
    itno: i32,
    world: &World,
) -> Result<(), NoMemory>
    ensures { OnOk result (bytes.new.items ≡ bytes.old.items ++ head_text model.now One itno world.now) }
{
    push_str(bytes, "{\"states\":{\"itno\":")?;
    push_number(bytes, itno)?;
    push_str(bytes, ",\"environment\":{")?;
    push_constants(bytes, model.constants.items(), world.constants.values())?;
    push_str(bytes, "},\"agents\":[")?;
    Ok(())
}

/// Adds what stands before the agents in version 2.
fn push_head_two(
    bytes: &mut Vec<u8>,
    _model: &Model,
    itno: i32,
    world: &World,
) -> Result<(), NoMemory>
    ensures { OnOk result (bytes.new.items ≡ bytes.old.items ++ head_text _model.now Two itno world.now) }
{
    push_str(bytes, "{\"states\":{\"version\":2,\"itno\":")?;
    push_number(bytes, itno)?;
    push_str(bytes, ",\"environment\":[")?;
    push_numbers(bytes, world.constants.values())?;
    push_str(bytes, "],\"agents\":[")?;
    Ok(())
}

/// Adds the agents.
fn push_agents<W: Writer>(
    writer: &W,
    bytes: &mut Vec<u8>,
    model: &Model,
    format: Format,
    world: &World,
) -> Result<(), NoMemory>
    requires { W.ready writer.now }
    ensures { OnOk result (bytes.new.items
        ≡ bytes.old.items ++ with_commas (all_agent_texts format model.now.agents world.now.agents)) }
{
    let agents = model.agents.items();
    let bags = world.agents.items();
    match format {
        Format::One => push_all_agents(writer, bytes, agents, bags),
        Format::Two => push_type_bags(writer, bytes, agents, bags),
    }
}

/// Adds the boards.
fn push_messages<W: Writer>(
    writer: &W,
    bytes: &mut Vec<u8>,
    model: &Model,
    format: Format,
    boards: &Boards,
) -> Result<(), NoMemory>
    requires { W.ready writer.now }
    ensures { OnOk result (bytes.new.items
        ≡ bytes.old.items ++ with_commas (all_board_texts format model.now.messages boards.now.boards)) }
{
    let messages = model.messages.items();
    let bags = boards.boards.items();
    match format {
        Format::One => push_boards(writer, bytes, messages, bags),
        Format::Two => push_message_bags(writer, bytes, messages, bags),
    }
}
