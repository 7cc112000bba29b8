//! The texts of bags. Each call adds a text to the bytes.

ghost use Rattle.std.specs.Prelude.{◌≡◌, ◌++◌, map, OnOk};
ghost use Rattle.flame_popfile.specs.RowTexts.{with_commas, board_text, board_texts, bag_text, bag_texts};

use crate::forms::Form;
use crate::pieces::{push_comma, push_str};
use crate::writers::Writer;
use flame_rows::{Bag, NoMemory, Row};
use flame_spec::{AgentType, MessageType};

// ---- version 1

/// Adds the board of a message.
fn push_board<W: Writer>(
    writer: &W,
    bytes: &mut Vec<u8>,
    message: &MessageType,
    rows: &[Row],
) -> Result<(), NoMemory>
    requires { W.ready writer.now }
    ensures { OnOk result (bytes.new.items ≡ bytes.old.items ++ board_text message.now rows.now) }
{
    push_str(bytes, "{\"name\":\"")?;
    push_str(bytes, message.name.as_str())?;
    push_str(bytes, "\",\"messages\":[")?;
    let form = Form::Object(message.variables.items());
    writer.push_rows(bytes, form, rows, false)?;
    push_str(bytes, "]}")?;
    Ok(())
}

/// Adds the boards of these messages, with commas between them.
pub(crate) fn push_boards<W: Writer>(
    writer: &W,
    bytes: &mut Vec<u8>,
    messages: &[MessageType],
    bags: &[Bag],
) -> Result<(), NoMemory>
    requires { W.ready writer.now }
    ensures { OnOk result
        (bytes.new.items ≡ bytes.old.items ++ with_commas (board_texts messages.now bags.now)) }
{
    let mut more = false;
    for (message, bag) in messages.iter().zip(bags.iter()) {
        push_comma(bytes, more)?;
        push_board(writer, bytes, message, bag.rows())?;
        more = true;
    }
    Ok(())
}

// ---- version 2

/// Adds a bag under a name.
fn push_bag<W: Writer>(
    writer: &W,
    bytes: &mut Vec<u8>,
    name: &str,
    rows: &[Row],
) -> Result<(), NoMemory>
    requires { W.ready writer.now }
    ensures { OnOk result (bytes.new.items ≡ bytes.old.items ++ bag_text name.now rows.now) }
{
    push_str(bytes, "{\"name\":\"")?;
    push_str(bytes, name)?;
    push_str(bytes, "\",\"rows\":[")?;
    writer.push_rows(bytes, Form::List, rows, false)?;
    push_str(bytes, "]}")?;
    Ok(())
}

/// Adds the bags of these types, with commas between them.
pub(crate) fn push_type_bags<W: Writer>(
    writer: &W,
    bytes: &mut Vec<u8>,
    agents: &[AgentType],
    bags: &[Bag],
) -> Result<(), NoMemory>
    requires { W.ready writer.now }
    ensures { OnOk result (bytes.new.items
        ≡ bytes.old.items ++ with_commas (bag_texts (map (λ type. type.name) agents.now) bags.now)) }
{
    let mut more = false;
    for (agent, bag) in agents.iter().zip(bags.iter()) {
        push_comma(bytes, more)?;
        push_bag(writer, bytes, agent.name.as_str(), bag.rows())?;
        more = true;
    }
    Ok(())
}

/// Adds the bags of these messages, with commas between them.
pub(crate) fn push_message_bags<W: Writer>(
    writer: &W,
    bytes: &mut Vec<u8>,
    messages: &[MessageType],
    bags: &[Bag],
) -> Result<(), NoMemory>
    requires { W.ready writer.now }
    ensures { OnOk result (bytes.new.items
        ≡ bytes.old.items ++ with_commas (bag_texts (map (λ message. message.name) messages.now) bags.now)) }
{
    let mut more = false;
    for (message, bag) in messages.iter().zip(bags.iter()) {
        push_comma(bytes, more)?;
        push_bag(writer, bytes, message.name.as_str(), bag.rows())?;
        more = true;
    }
    Ok(())
}
