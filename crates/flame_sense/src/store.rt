//! What a function stores, sends and bears.

ghost use Rattle.std.specs.Prelude.{◌≡◌, ℕ, Option, option_map, IfOk, OnOk};
ghost use Rattle.flame_spec.specs.declared.models.Variable.{Variable as Declared};
ghost use Rattle.flame_meaning.specs.Statements.{with_local, set_column, set_found, set_name, with_message, with_birth};
ghost use Rattle.flame_ops.specs.Integers.{applied};
ghost use Rattle.flame_meaning.specs.Expressions.{at_line};
ghost use Rattle.flame_meaning.specs.Ends.{went_on, with_value};
ghost use Rattle.flame_meaning.specs.HelperCalls.{entered};
ghost use Rattle.flame_sense.specs.StandsFor.{within_reach, span_of, scene_seen, progress_seen, end_of};

use crate::arguments::row_of;
use crate::ending::Ending;
use crate::expression::at_line;
use crate::scene::{Local, Open, Progress, Scene, newest, number_at};
use crate::words::{Form, Span, span_where};
use flame_ops::{Op, apply};
use flame_rows::{NoMemory, Row};
use flame_spec::{AgentType, Born, MessageType, Parameter, Sent};
use std::alloc::Global;

/// The memory has the value in this column.
pub(crate) fn set_column(column: usize, value: i32, s: &mut Progress<'_>)
    ensures { (exact : ℕ) → column ≡ within_reach exact
        → progress_seen s.new ≡ set_column exact value (progress_seen s.old) }
{
    if column < s.memory.len() {
        s.memory[column] = value;
    }
}

/// The memory has the value where the variable begins; without one all is as it was.
pub(crate) fn set_found(found: Option<Span>, value: i32, s: &mut Progress<'_>)
    ensures { (variable : Option (ℕ × Declared)) → found ≡ option_map span_of variable
        → progress_seen s.new ≡ set_found variable value (progress_seen s.old) }
{
    if let Some(span) = found {
        set_column(span.column, value, s);
    }
}

/// The newest local of this name has the value, or else the memory variable that it is in capitals.
pub(crate) fn set_name(word: &str, value: i32, scene: &Scene<'_, '_>, s: &mut Progress<'_>)
    ensures { progress_seen s.new
        ≡ set_name word.now value (scene_seen scene.now Open.Nothing) (progress_seen s.old) }
{
    match newest(word, s.locals.as_slice()) {
        Some(place) => {
            let local = &mut s.locals[place];
            local.value = value;
        }
        None => set_found(span_where(Form::Capitals, word, scene.memory()), value, s),
    }
}

/// The name has what the operator gives for these two, if it gives anything.
pub(crate) fn change_name(
    op: Op,
    line: u32,
    name: &str,
    left: i32,
    right: i32,
    scene: &Scene<'_, '_>,
    s: &mut Progress<'_>,
) -> Ending
    ensures { with_value (at_line line (applied op left right))
        (λ v. went_on (set_name name.now v (scene_seen scene.now Open.Nothing) (progress_seen s.old)))
        ≡ end_of result (progress_seen s.new) }
{
    match at_line(line, apply(op, left, right)) {
        Ok(value) => {
            set_name(name, value, scene, s);
            Ending::WentOn
        }
        Err(fault) => Ending::Faulted(fault),
    }
}

/// The column has what the operator gives for these two, if it gives anything.
pub(crate) fn change_column(
    op: Op,
    line: u32,
    column: usize,
    left: i32,
    right: i32,
    s: &mut Progress<'_>,
) -> Ending
    ensures { (exact : ℕ) → column ≡ within_reach exact
        → with_value (at_line line (applied op left right)) (λ v. went_on (set_column exact v (progress_seen s.old)))
        ≡ end_of result (progress_seen s.new) }
{
    match at_line(line, apply(op, left, right)) {
        Ok(value) => {
            set_column(column, value, s);
            Ending::WentOn
        }
        Err(fault) => Ending::Faulted(fault),
    }
}

/// The local is visible from here on.
pub(crate) fn add_local<'a>(name: &'a str, value: i32, s: &mut Progress<'a>) -> Result<(), NoMemory>
    ensures { OnOk result (progress_seen s.new ≡ with_local name.now value (progress_seen s.old)) }
{
    s.locals.push(Local { name, value })?;
    Ok(())
}

/// The number of a type, of which no model in memory has as many as a `u32` counts.
fn number_of(number: usize) -> Result<u32, NoMemory>
    ensures { IfOk result (λ n. n ≡ number) }
{
    match u32::try_from(number) {
        Ok(number) => Ok(number),
        Err(_) => Err(NoMemory),
    }
}

/// The message stands behind those that were added before.
pub(crate) fn send(
    alloc: Global,
    number: usize,
    message: &MessageType,
    values: &Row,
    s: &mut Progress<'_>,
) -> Result<(), NoMemory>
    ensures { OnOk result (
        progress_seen s.new ≡ with_message number message.now values.now (progress_seen s.old)) }
{
    let row = row_of(alloc, message.variables.items(), values.values())?;
    let message = number_of(number)?;
    s.sent.push(Sent { message, row })?;
    Ok(())
}

/// The agent stands behind those that were added before.
pub(crate) fn bear(
    alloc: Global,
    number: usize,
    agent: &AgentType,
    values: &Row,
    s: &mut Progress<'_>,
) -> Result<(), NoMemory>
    ensures { OnOk result (
        progress_seen s.new ≡ with_birth number agent.now values.now (progress_seen s.old)) }
{
    let row = row_of(alloc, agent.memory.items(), values.values())?;
    let agent = number_of(number)?;
    s.born.push(Born { agent, row })?;
    Ok(())
}

/// What a helper begins with: its parameters with these values, and this fuel.
#[tactic(auto, using(crate::proofs::Entries::next_parameter))]
pub(crate) fn begin_helper<'a>(
    alloc: Global,
    parameters: &'a [Parameter],
    values: &[i32],
    fuel: u32,
) -> Result<Progress<'a>, NoMemory>
    ensures { IfOk result (λ s. progress_seen s ≡ entered parameters.now values.now fuel) }
{
    let mut locals = Vec::new(alloc);
    for (place, parameter) in parameters.iter().enumerate() {
        locals.push(Local {
            name: parameter.name.as_str(),
            value: number_at(values, place),
        })?;
    }
    Ok(Progress {
        memory: Vec::new(alloc),
        locals,
        sent: Vec::new(alloc),
        born: Vec::new(alloc),
        fuel,
    })
}
