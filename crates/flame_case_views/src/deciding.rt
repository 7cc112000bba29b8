//! Cases of conditions, filters and keys: the sections `model`, `memory` and `row`, each of which has the numbers of a
//! row, and `iteration`. For each function, from 0 in document order, the answer has whether its condition holds, as
//! `condition 0 true`; and for each of its inputs, from 0, whether the row passes its filter, as `filter 0 1 true`, and
//! the column and the direction of its key, as `sort 0 1 2 descend`.

use crate::readable::{is_narrow, is_readable, is_readable_filter};
use flame_case_files::Case;
use flame_case_models::{Found, model_in};
use flame_cond::{Cond, Filter, SortBy};
use flame_rows::Row;
use flame_spec::{AgentType, Condition, Function, Input, MessageType, Model, Sort};
use std::alloc::{AllocError, Global};

/// What conditions and filters are asked about.
#[derive(Drop)]
struct Moment {
    memory: Row,
    row: Row,
    iteration: i32,
}

/// An input of a function: their numbers, and what the input is declared by.
#[derive(Drop)]
struct Place<'a> {
    function: u64,
    input: usize,
    agent: &'a AgentType,
    message: &'a MessageType,
}

/// The message of this name.
pub(crate) fn message_of<'a>(model: &'a Model, name: &str) -> Option<&'a MessageType> {
    model
        .messages
        .items()
        .iter()
        .find(|message| message.name.as_str() == name)
}

/// What the condition answers.
fn held(
    alloc: Global,
    condition: &Condition,
    agent: &AgentType,
    model: &Model,
    moment: &Moment,
) -> &'static str {
    if !is_readable(condition, agent, &model.units) {
        return "cannot be read";
    }
    match Cond::of(alloc, condition, agent, &model.units) {
        Ok(cond) => truth(cond.holds(&moment.memory, moment.iteration)),
        Err(_) => "no memory",
    }
}

/// What the filter answers.
fn passed(
    alloc: Global,
    condition: &Condition,
    place: &Place<'_>,
    moment: &Moment,
) -> &'static str {
    if !is_readable_filter(condition, place.agent, place.message) {
        return "cannot be read";
    }
    match Filter::of(alloc, condition, place.agent, place.message) {
        Ok(filter) => truth(filter.passes(&moment.memory, &moment.row)),
        Err(_) => "no memory",
    }
}

fn truth(holds: bool) -> &'static str {
    if holds { "true" } else { "false" }
}

fn print_sort(out: &mut String, sort: &Sort, place: &Place<'_>) -> Result<(), AllocError> {
    write!(out, "sort {} {} ", place.function, place.input)?;
    if !is_narrow(place.message.variables.items()) {
        return writeln!(out, "too large");
    }
    let by = SortBy::of(sort, place.message);
    let order = if by.descending { "descend" } else { "ascend" };
    writeln!(out, "{} {order}", by.variable)
}

fn print_input(
    alloc: Global,
    out: &mut String,
    input: &Input,
    place: &Place<'_>,
    moment: &Moment,
) -> Result<(), AllocError> {
    if let Some(filter) = &input.filter {
        let told = passed(alloc, filter, place, moment);
        writeln!(out, "filter {} {} {told}", place.function, place.input)?;
    }
    if let Some(sort) = &input.sort {
        print_sort(out, sort, place)?;
    }
    Ok(())
}

/// The answers of a function and of its inputs.
fn print_function(
    alloc: Global,
    out: &mut String,
    model: &Model,
    agent: &AgentType,
    numbered: (u64, &Function),
    moment: &Moment,
) -> Result<(), AllocError> {
    let (number, function) = numbered;
    if let Some(condition) = &function.condition {
        let told = held(alloc, condition, agent, model, moment);
        writeln!(out, "condition {number} {told}")?;
    }
    for (input, read) in function.inputs.items().iter().enumerate() {
        if let Some(message) = message_of(model, read.message.as_str()) {
            let place = Place {
                function: number,
                input,
                agent,
                message,
            };
            print_input(alloc, out, read, &place, moment)?;
        }
    }
    Ok(())
}

/// The row of a section.
pub(crate) fn row_in(alloc: Global, text: &str) -> Result<Row, AllocError> {
    let mut numbers = Vec::new(alloc);
    for word in text.trim().split(' ') {
        if let Ok(number) = word.parse::<i32>() {
            numbers.push(number)?;
        }
    }
    Ok(Row::of(numbers))
}

fn print_all(
    alloc: Global,
    out: &mut String,
    model: &Model,
    moment: &Moment,
) -> Result<(), AllocError> {
    let mut number: u64 = 0;
    for agent in model.agents.items() {
        for function in agent.functions.items() {
            print_function(alloc, out, model, agent, (number, function), moment)?;
            number = number.saturating_add(1);
        }
    }
    Ok(())
}

/// The answer to a case of the kind `condition`: what each condition, filter and key gives.
pub fn answer_conditions(alloc: Global, case: &Case) -> Result<String, AllocError> {
    let model = match model_in(alloc, case)? {
        Found::Told(told) => return Ok(told),
        Found::Model(model) => model,
    };
    let moment = Moment {
        memory: row_in(alloc, case.text("memory"))?,
        row: row_in(alloc, case.text("row"))?,
        iteration: case.text("iteration").trim().parse::<i32>().unwrap_or(0),
    };
    let mut out = String::new(alloc);
    print_all(alloc, &mut out, &model, &moment)?;
    Ok(out)
}
