//! Cases of `model_of` and `wide_of`, and the model of other cases. The section `model` is the JSON text of a model.
//! The answer is the model, or in cases of the kind `wide` the model file, a part of it a line; `fine` in its place in
//! cases of the kind `shape`; and the fault of its shape, as `wanted List at /xmodel/agents`, in all of them.

ghost use Rattle.std.specs.Prelude.{IfOk, IsTrue};
ghost use Rattle.flame_spec.specs.WellFormed.{is_well_formed};
ghost use Rattle.flame_case_models.specs.FoundModels.{IsFormed};

use flame_case_files::Case;
use flame_rows::{Fail, Text};
use flame_spec::{
    AgentType, Condition, Function, Input, Model, Operand, TimeUnit, Variable, Wide, WideAgent,
    WideVariable,
};
use flame_xmml::laws::well_formed;
use flame_xmml::{Shape, model_of, wide_of};
use serde_json::Value;
use std::alloc::{AllocError, Global};

/// What was read.
#[derive(Drop)]
pub enum Found {
    /// The model.
    Model(Model),
    /// Why there is none, as it is answered.
    Told(String),
}

fn print_shape(out: &mut String, shape: &Shape) -> Result<(), AllocError> {
    let want = shape.want.name();
    let path = shape.path.as_str();
    if path.is_empty() {
        return writeln!(out, "wanted {want} at the root");
    }
    writeln!(out, "wanted {want} at {path}")
}

/// The model that a value stands for.
fn formed(alloc: Global, value: &Value) -> Result<Model, Fail<Shape>>
    ensures { IfOk result (λ model. IsTrue (is_well_formed model)) }
{
    let model = model_of(alloc, value)?;
    well_formed();
    Ok(model)
}

/// The model of a case, which is well formed.
pub fn model_in(alloc: Global, case: &Case) -> Result<Found, AllocError>
    ensures { IfOk result IsFormed }
{
    let mut out = String::new(alloc);
    let Ok(value) = Value::from_str(alloc, case.text("model")) else {
        writeln!(out, "not JSON")?;
        return Ok(Found::Told(out));
    };
    match formed(alloc, &value) {
        Ok(model) => return Ok(Found::Model(model)),
        Err(Fail::Fault(shape)) => print_shape(&mut out, &shape)?,
        Err(Fail::NoMemory) => writeln!(out, "no memory")?,
    }
    Ok(Found::Told(out))
}

fn print_operand(out: &mut String, operand: &Operand) -> Result<(), AllocError> {
    match operand {
        Operand::Number(number) => write!(out, "{number}"),
        Operand::Agent(name) => write!(out, "a.{name}"),
        Operand::Message(name) => write!(out, "m.{name}"),
    }
}

/// The operator of a condition.
fn word_of(condition: &Condition) -> &'static str {
    match condition {
        Condition::Compare(_, _, _) => "Compare",
        Condition::And(_, _) => "And",
        Condition::Or(_, _) => "Or",
        Condition::Not(_) => "Not",
        Condition::Time(_, _, _) => "Time",
    }
}

/// A condition, with its operator first: `(And (Eq a.x 1) (Not (Time day 0 1)))`.
fn print_condition(out: &mut String, condition: &Condition) -> Result<(), AllocError> {
    let word = word_of(condition);
    match condition {
        Condition::Compare(op, a, b) => {
            write!(out, "({op:?} ")?;
            print_operand(out, a)?;
            write!(out, " ")?;
            print_operand(out, b)?;
        }
        Condition::And(left, right) | Condition::Or(left, right) => {
            write!(out, "({word} ")?;
            print_condition(out, left)?;
            write!(out, " ")?;
            print_condition(out, right)?;
        }
        Condition::Not(part) => {
            write!(out, "({word} ")?;
            print_condition(out, part)?;
        }
        Condition::Time(unit, phase, duration) => {
            write!(out, "({word} {unit} ")?;
            print_operand(out, phase)?;
            write!(out, " {duration}")?;
        }
    }
    write!(out, ")")
}

fn print_titled(
    out: &mut String,
    title: &str,
    condition: Option<&Condition>,
) -> Result<(), AllocError> {
    if let Some(condition) = condition {
        write!(out, "{title} ")?;
        print_condition(out, condition)?;
        writeln!(out)?;
    }
    Ok(())
}

fn print_variables(out: &mut String, variables: &[Variable]) -> Result<(), AllocError> {
    for variable in variables {
        match variable.length {
            None => writeln!(out, "variable {}", variable.name)?,
            Some(length) => writeln!(out, "variable {} {length}", variable.name)?,
        }
    }
    Ok(())
}

fn print_input(out: &mut String, input: &Input) -> Result<(), AllocError> {
    writeln!(out, "input {}", input.message)?;
    if input.random {
        writeln!(out, "random")?;
    }
    print_titled(out, "filter", input.filter.as_ref())?;
    if let Some(sort) = &input.sort {
        let order = if sort.descending { "descend" } else { "ascend" };
        writeln!(out, "sort {} {order}", sort.key)?;
    }
    Ok(())
}

fn print_function(out: &mut String, function: &Function) -> Result<(), AllocError> {
    writeln!(out, "function {}", function.name)?;
    writeln!(out, "current {}", function.current)?;
    writeln!(out, "next {}", function.next)?;
    print_titled(out, "condition", function.condition.as_ref())?;
    for input in function.inputs.items() {
        print_input(out, input)?;
    }
    print_names(out, "output", function.outputs.items())
}

fn print_agent(out: &mut String, agent: &AgentType) -> Result<(), AllocError> {
    writeln!(out, "agent {}", agent.name)?;
    print_variables(out, agent.memory.items())?;
    for function in agent.functions.items() {
        print_function(out, function)?;
    }
    Ok(())
}

fn print_names(out: &mut String, title: &str, names: &[Text]) -> Result<(), AllocError> {
    for name in names {
        writeln!(out, "{title} {name}")?;
    }
    Ok(())
}

fn print_units(out: &mut String, units: &[TimeUnit]) -> Result<(), AllocError> {
    for unit in units {
        writeln!(out, "unit {} {} {}", unit.name, unit.unit, unit.period)?;
    }
    Ok(())
}

pub(crate) fn print_model(out: &mut String, model: &Model) -> Result<(), AllocError> {
    print_names(out, "constant", model.constants.items())?;
    print_names(out, "file", model.files.items())?;
    print_units(out, model.units.items())?;
    for message in model.messages.items() {
        writeln!(out, "message {}", message.name)?;
        print_variables(out, message.variables.items())?;
    }
    for agent in model.agents.items() {
        print_agent(out, agent)?;
    }
    Ok(())
}

/// The answer to a case of the kind `model`.
pub fn answer_model(alloc: Global, case: &Case) -> Result<String, AllocError> {
    match model_in(alloc, case)? {
        Found::Told(told) => Ok(told),
        Found::Model(model) => {
            let mut out = String::new(alloc);
            print_model(&mut out, &model)?;
            Ok(out)
        }
    }
}

/// The answer to a case of the kind `shape`.
pub fn answer_shape(alloc: Global, case: &Case) -> Result<String, AllocError> {
    match model_in(alloc, case)? {
        Found::Told(told) => Ok(told),
        Found::Model(_) => String::from_str(alloc, "fine\n"),
    }
}

/// The variables with their types.
fn print_typed(out: &mut String, variables: &[WideVariable]) -> Result<(), AllocError> {
    for variable in variables {
        match variable.length {
            None => writeln!(out, "variable {} {}", variable.kind, variable.name)?,
            Some(length) => {
                writeln!(out, "variable {} {} {length}", variable.kind, variable.name)?;
            }
        }
    }
    Ok(())
}

fn print_wide_agent(out: &mut String, agent: &WideAgent) -> Result<(), AllocError> {
    writeln!(out, "agent {}", agent.name)?;
    print_typed(out, agent.memory.items())?;
    for function in agent.functions.items() {
        print_function(out, function)?;
    }
    Ok(())
}

fn print_wide(out: &mut String, wide: &Wide) -> Result<(), AllocError> {
    print_names(out, "constant", wide.constants.items())?;
    print_names(out, "file", wide.files.items())?;
    print_units(out, wide.units.items())?;
    for kind in wide.types.items() {
        writeln!(out, "type {}", kind.name)?;
        print_typed(out, kind.variables.items())?;
    }
    for message in wide.messages.items() {
        writeln!(out, "message {}", message.name)?;
        print_typed(out, message.variables.items())?;
    }
    for agent in wide.agents.items() {
        print_wide_agent(out, agent)?;
    }
    print_names(out, "nested", wide.nested.items())
}

/// What was read of a model file.
#[derive(Drop)]
pub(crate) enum FoundWide {
    /// The model file.
    Wide(Wide),
    /// Why there is none, as it is answered.
    Told(String),
}

/// The model file of a text.
pub(crate) fn wide_from(alloc: Global, text: &str) -> Result<FoundWide, AllocError> {
    let mut out = String::new(alloc);
    let Ok(value) = Value::from_str(alloc, text) else {
        writeln!(out, "not JSON")?;
        return Ok(FoundWide::Told(out));
    };
    match wide_of(alloc, &value) {
        Ok(wide) => return Ok(FoundWide::Wide(wide)),
        Err(Fail::Fault(shape)) => print_shape(&mut out, &shape)?,
        Err(Fail::NoMemory) => writeln!(out, "no memory")?,
    }
    Ok(FoundWide::Told(out))
}

/// The answer to a case of the kind `wide`.
pub fn answer_wide(alloc: Global, case: &Case) -> Result<String, AllocError> {
    match wide_from(alloc, case.text("model"))? {
        FoundWide::Told(told) => Ok(told),
        FoundWide::Wide(wide) => {
            let mut out = String::new(alloc);
            print_wide(&mut out, &wide)?;
            Ok(out)
        }
    }
}
