//! The texts of rows and bags. Each call adds a text to the bytes.

ghost use Rattle.std.specs.Prelude.{◌≡◌, ◌≤◌, ◌++◌, ◌||◌, map, min, length, take, drop, is_some, if◌then◌else◌, IfOk, OnOk};
ghost use Rattle.std.specs.Fmt.{signed_decimal};
ghost use Rattle.flame_spec.specs.Columns.{width_by, width_of};
ghost use Rattle.flame_popfile.specs.RowTexts.{numbers_text, row_text, named_text, value_text, variable_texts, object_text};
ghost use Rattle.flame_popfile.specs.RowTexts.{with_commas, constant_texts, agent_text, agent_texts};
ghost use Rattle.flame_popfile.specs.CommaTexts.{behind, has_some};

use crate::forms::Form;
use crate::pieces::{push_comma, push_name, push_number, push_str};
use crate::writers::Writer;
use flame_rows::{Bag, NoMemory, Row, Text};
use flame_spec::{AgentType, Variable};

/// Adds these numbers, with commas between them.
pub(crate) fn push_numbers(bytes: &mut Vec<u8>, numbers: &[i32]) -> Result<(), NoMemory>
    ensures { OnOk result (bytes.new.items ≡ bytes.old.items ++ numbers_text numbers.now) }
{
    let mut more = false;
    for number in numbers {
        push_comma(bytes, more)?;
        push_number(bytes, *number)?;
        more = true;
    }
    Ok(())
}

/// Adds the list of these numbers.
pub(crate) fn push_list(bytes: &mut Vec<u8>, numbers: &[i32]) -> Result<(), NoMemory>
    ensures { OnOk result (bytes.new.items ≡ bytes.old.items ++ row_text numbers.now) }
{
    push_str(bytes, "[")?;
    push_numbers(bytes, numbers)?;
    push_str(bytes, "]")?;
    Ok(())
}

/// How many numbers a variable without a length, or of this length, takes of those that are left of a row.
fn taken(array: Option<u32>, row: &[i32]) -> usize
    ensures { result ≡ min (width_by array) (length row.now) }
{
    let wide = match array {
        Some(length) => length as usize,
        None => 1,
    };
    if wide < row.len() { wide } else { row.len() }
}

/// The numbers of a row before a place.
fn first(row: &[i32], place: usize) -> &[i32]
    requires { place ≤ length row.now }
    ensures { result.now ≡ take place row.now }
{
    &row[..place]
}

/// The numbers of a row from a place on.
#[tactic(auto, using(std::proofs::lemmas::List::take_rest))]
fn left(row: &[i32], place: usize) -> &[i32]
    requires { place ≤ length row.now }
    ensures { result.now ≡ drop place row.now }
{
    &row[place..]
}

/// Adds the numbers of a variable without a length, or with one.
fn push_value(bytes: &mut Vec<u8>, array: Option<u32>, numbers: &[i32]) -> Result<(), NoMemory>
    ensures { OnOk result (bytes.new.items
        ≡ bytes.old.items ++ (if is_some array then row_text numbers.now else numbers_text numbers.now)) }
{
    match array {
        Some(_) => push_list(bytes, numbers),
        None => push_numbers(bytes, numbers),
    }
}

/// Adds a variable of a row, of which these numbers are left.
fn push_variable(bytes: &mut Vec<u8>, variable: &Variable, row: &[i32]) -> Result<usize, NoMemory>
    ensures text { OnOk result (bytes.new.items
        ≡ bytes.old.items ++ named_text variable.now.name (value_text variable.now.length row.now)) }
    ensures taken { IfOk result (λ taken. taken ≡ min (width_of variable.now) (length row.now)) }
{
    let count = taken(variable.length, row);
    push_name(bytes, variable.name.as_str())?;
    push_value(bytes, variable.length, first(row, count))?;
    Ok(count)
}

/// Adds the variables of a row, in declared order.
fn push_variables(bytes: &mut Vec<u8>, variables: &[Variable], row: &[i32]) -> Result<(), NoMemory>
    ensures { OnOk result
        (bytes.new.items ≡ bytes.old.items ++ with_commas (variable_texts variables.now row.now)) }
{
    let mut more = false;
    let mut at = 0;
    for variable in variables {
        push_comma(bytes, more)?;
        let count = push_variable(bytes, variable, left(row, at))?;
        at += count;
        more = true;
    }
    Ok(())
}

/// Adds a row as an object.
pub(crate) fn push_object(
    bytes: &mut Vec<u8>,
    variables: &[Variable],
    row: &[i32],
) -> Result<(), NoMemory>
    ensures { OnOk result (bytes.new.items ≡ bytes.old.items ++ object_text variables.now row.now) }
{
    push_str(bytes, "{")?;
    push_variables(bytes, variables, row)?;
    push_str(bytes, "}")?;
    Ok(())
}

/// Adds an agent of this type.
pub(crate) fn push_agent(
    bytes: &mut Vec<u8>,
    agent: &AgentType,
    row: &[i32],
) -> Result<(), NoMemory>
    ensures { OnOk result (bytes.new.items ≡ bytes.old.items ++ agent_text agent.now row.now) }
{
    push_str(bytes, "{\"name\":\"")?;
    push_str(bytes, agent.name.as_str())?;
    push_str(bytes, "\",\"memory\":")?;
    push_object(bytes, agent.memory.items(), row)?;
    push_str(bytes, "}")?;
    Ok(())
}

/// Whether there are rows.
fn has_rows(rows: &[Row]) -> bool
    ensures { result ≡ has_some rows.now }
{
    match rows {
        [] => false,
        _ => true,
    }
}

/// Adds the agents of this type, behind others where there are more before; tells whether there are some now.
fn push_agents<W: Writer>(
    writer: &W,
    bytes: &mut Vec<u8>,
    agent: &AgentType,
    rows: &[Row],
    before: bool,
) -> Result<bool, NoMemory>
    requires { W.ready writer.now }
    ensures text { OnOk result
        (bytes.new.items ≡ bytes.old.items ++ behind before (map (agent_text agent.now) rows.now)) }
    ensures more { IfOk result (λ more. more ≡ (before || has_some rows.now)) }
{
    writer.push_rows(bytes, Form::Agent(agent), rows, before)?;
    let some = has_rows(rows);
    Ok(before || some)
}

/// Adds the agents of these types, type by type.
pub(crate) fn push_all_agents<W: Writer>(
    writer: &W,
    bytes: &mut Vec<u8>,
    agents: &[AgentType],
    bags: &[Bag],
) -> Result<(), NoMemory>
    requires { W.ready writer.now }
    ensures { OnOk result
        (bytes.new.items ≡ bytes.old.items ++ with_commas (agent_texts agents.now bags.now)) }
{
    let mut more = false;
    for (agent, bag) in agents.iter().zip(bags.iter()) {
        let some = push_agents(writer, bytes, agent, bag.rows(), more)?;
        more = some;
    }
    Ok(())
}

/// Adds a number behind its name.
fn push_constant(bytes: &mut Vec<u8>, name: &str, value: &i32) -> Result<(), NoMemory>
    ensures { OnOk result
        (bytes.new.items ≡ bytes.old.items ++ named_text name.now (signed_decimal value.now)) }
{
    push_name(bytes, name)?;
    push_number(bytes, *value)?;
    Ok(())
}

/// Adds the constants of these names, with commas between them.
pub(crate) fn push_constants(
    bytes: &mut Vec<u8>,
    names: &[Text],
    values: &[i32],
) -> Result<(), NoMemory>
    ensures { OnOk result
        (bytes.new.items ≡ bytes.old.items ++ with_commas (constant_texts names.now values.now)) }
{
    let mut more = false;
    for (name, value) in names.iter().zip(values.iter()) {
        push_comma(bytes, more)?;
        push_constant(bytes, name.as_str(), value)?;
        more = true;
    }
    Ok(())
}
