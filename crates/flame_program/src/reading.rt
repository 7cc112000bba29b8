//! Conditions of functions, and filters and keys of inputs, as they were read.

ghost use Rattle.std.specs.Prelude.{◌≡◌, ◌<◌, ◌^◌, ℕ, List, IfOk, map, option_map};
ghost use Rattle.std.specs.HashMap.{get_by_text};
ghost use Rattle.std.specs.List.{AllZip};
ghost use Rattle.flame_spec.specs.Columns.{width};
ghost use Rattle.flame_spec.specs.Functions.{functions};
ghost use Rattle.flame_cond.specs.Said.{IsConditionOf, IsFilterOf, IsKeyOf, AreConditionsOf};
ghost use Rattle.flame_lookup.specs.WordsFound.{item_found, place_found};
ghost use Rattle.flame_meaning.specs.Outcomes.{message_named};
ghost use Rattle.flame_program.specs.Readable.{IsReadableCondition, IsReadableFilter, IsReadableInput, AreReadableInputs};
ghost use Rattle.flame_program.specs.Readable.{AreReadableFunctions};
ghost use Rattle.flame_program.specs.SourceInputs.{IsSelectorOf, AreSelectors};

use flame_cond::{Cond, Filter, SortBy};
use flame_lookup::{Found, Table, Transition, messages_by_name};
use flame_rows::{NoMemory, Seq};
use flame_spec::{AgentType, Condition, Input, MessageType, Model, Sort, TimeUnit};
use std::alloc::Global;

/// The filter and the key of an input, as they were read: which messages come, and in what order.
#[derive(Drop)]
pub(crate) struct Selector {
    pub filter: Option<Filter>,
    pub sort: Option<SortBy>,
}

/// The condition of a function of this type, as it was read, if there is one.
fn condition_of(
    alloc: Global,
    condition: &Option<Condition>,
    agent: &AgentType,
    units: &Seq<TimeUnit>,
) -> Result<Option<Cond>, NoMemory>
    requires { IsReadableCondition agent.now units.now condition.now }
    ensures { IfOk result (λ read. IsConditionOf read condition.now agent.now units.now) }
{
    match condition {
        None => Ok(None),
        Some(condition) => Ok(Some(Cond::of(alloc, condition, agent, units)?)),
    }
}

/// The filter of an input of this message by a function of this type, as it was read, if there is one.
fn filter_of(
    alloc: Global,
    filter: &Option<Condition>,
    agent: &AgentType,
    message: &MessageType,
) -> Result<Option<Filter>, NoMemory>
    requires { IsReadableFilter agent.now message.now filter.now }
    ensures { IfOk result (λ read. IsFilterOf read filter.now agent.now message.now) }
{
    match filter {
        None => Ok(None),
        Some(filter) => Ok(Some(Filter::of(alloc, filter, agent, message)?)),
    }
}

/// The key of an input of this message, as it was read, if there is one.
fn key_of(sort: &Option<Sort>, message: &MessageType) -> Option<SortBy>
    requires { width message.now.variables < 2 ^ 32 }
    ensures { IsKeyOf result sort.now message.now }
{
    match sort {
        None => None,
        Some(sort) => Some(SortBy::of(sort, message)),
    }
}

/// The conditions of the model's functions, which stand in these places, as they were read.
pub(crate) fn conditions_of(
    alloc: Global,
    model: &Model,
    places: &[Transition<'_>],
) -> Result<Vec<Option<Cond>>, NoMemory>
    requires places { map place_found places.now ≡ functions model.now }
    requires readable { AreReadableFunctions model.now (functions model.now) }
    ensures { IfOk result (λ read. AreConditionsOf read.items model.now) }
{
    let mut conditions = Vec::new(alloc);
    for place in places {
        let condition = condition_of(alloc, &place.function.condition, place.agent, &model.units)?;
        conditions.push(condition)?;
    }
    Ok(conditions)
}

/// The filter and the key of an input of a function of this type, as they were read, where the table has the model's
/// messages.
fn selector_of(
    alloc: Global,
    model: &Model,
    messages: &Table<Found<'_, MessageType>>,
    agent: &AgentType,
    input: &Input,
) -> Result<Selector, NoMemory>
    requires messages { (name : List ℕ)
        → option_map item_found (get_by_text messages.now name) ≡ message_named model.now.messages name }
    requires readable { IsReadableInput model.now agent.now input.now }
    ensures { IfOk result (λ selector. IsSelectorOf model.now agent.now input.now selector) }
{
    match messages.get(input.message.as_str()) {
        None => Ok(Selector {
            filter: None,
            sort: None,
        }),
        Some(found) => Ok(Selector {
            filter: filter_of(alloc, &input.filter, agent, found.item)?,
            sort: key_of(&input.sort, found.item),
        }),
    }
}

/// The filters and keys of these inputs.
fn selectors_in(
    alloc: Global,
    model: &Model,
    messages: &Table<Found<'_, MessageType>>,
    agent: &AgentType,
    inputs: &[Input],
) -> Result<Vec<Selector>, NoMemory>
    requires messages { (name : List ℕ)
        → option_map item_found (get_by_text messages.now name) ≡ message_named model.now.messages name }
    requires readable { AreReadableInputs model.now agent.now inputs.now }
    ensures { IfOk result (λ selectors. AllZip (IsSelectorOf model.now agent.now) inputs.now selectors.items) }
{
    let mut selectors = Vec::new(alloc);
    for input in inputs {
        selectors.push(selector_of(alloc, model, messages, agent, input)?)?;
    }
    Ok(selectors)
}

/// The filters and keys of the inputs of the model's functions, which stand in these places.
pub(crate) fn selectors_of(
    alloc: Global,
    model: &Model,
    places: &[Transition<'_>],
) -> Result<Vec<Seq<Selector>>, NoMemory>
    requires places { map place_found places.now ≡ functions model.now }
    requires readable { AreReadableFunctions model.now (functions model.now) }
    ensures { IfOk result (λ selectors. AreSelectors model.now selectors.items) }
{
    let messages = messages_by_name(alloc, model.messages.items())?;
    let mut selectors = Vec::new(alloc);
    for place in places {
        let inputs = place.function.inputs.items();
        selectors.push(Seq::of(selectors_in(alloc, model, &messages, place.agent, inputs)?))?;
    }
    Ok(selectors)
}
