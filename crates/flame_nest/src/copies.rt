//! Copies of what a flat model takes over as it stands.

ghost use Rattle.std.specs.Prelude.{◌≡◌, ◌++◌, IfOk, OnOk};

use flame_rows::{Boxed, Copied, NoMemory, Seq, Text};
use flame_spec::{Condition, Function, Input, Operand, Sort, TimeUnit};
use std::alloc::Global;

fn copied_operand(alloc: Global, operand: &Operand) -> Result<Operand, NoMemory>
    ensures { IfOk result (λ copied. copied ≡ operand.now) }
{
    match operand {
        Operand::Number(number) => Ok(Operand::Number(*number)),
        Operand::Agent(name) => Ok(Operand::Agent(name.copy(alloc)?)),
        Operand::Message(name) => Ok(Operand::Message(name.copy(alloc)?)),
    }
}

/// A condition within a condition.
#[cycle(copied_condition)]
fn copied_part(alloc: Global, part: &Condition) -> Result<Boxed<Condition>, NoMemory>
    ensures { IfOk result (λ copied. copied ≡ part.now) }
{
    let copied = copied_condition(alloc, part)?;
    Ok(Boxed::of(alloc, copied)?)
}

/// A condition, copied as deep as it is nested.
#[cycle(copied_condition)]
fn copied_condition(alloc: Global, condition: &Condition) -> Result<Condition, NoMemory>
    ensures { IfOk result (λ copied. copied ≡ condition.now) }
{
    match condition {
        Condition::Compare(op, left, right) => {
            let left = copied_operand(alloc, left)?;
            let right = copied_operand(alloc, right)?;
            Ok(Condition::Compare(*op, left, right))
        }
        Condition::And(left, right) => {
            let left = copied_part(alloc, left.get())?;
            let right = copied_part(alloc, right.get())?;
            Ok(Condition::And(left, right))
        }
        Condition::Or(left, right) => {
            let left = copied_part(alloc, left.get())?;
            let right = copied_part(alloc, right.get())?;
            Ok(Condition::Or(left, right))
        }
        Condition::Not(part) => {
            let part = copied_part(alloc, part.get())?;
            Ok(Condition::Not(part))
        }
        Condition::Time(period, phase, duration) => {
            let period = period.copy(alloc)?;
            let phase = copied_operand(alloc, phase)?;
            Ok(Condition::Time(period, phase, *duration))
        }
    }
}

fn copied_guard(alloc: Global, guard: &Option<Condition>) -> Result<Option<Condition>, NoMemory>
    ensures { IfOk result (λ copied. copied ≡ guard.now) }
{
    match guard {
        None => Ok(None),
        Some(condition) => Ok(Some(copied_condition(alloc, condition)?)),
    }
}

fn copied_sort(alloc: Global, sort: &Option<Sort>) -> Result<Option<Sort>, NoMemory>
    ensures { IfOk result (λ copied. copied ≡ sort.now) }
{
    match sort {
        None => Ok(None),
        Some(sort) => Ok(Some(Sort {
            key: sort.key.copy(alloc)?,
            descending: sort.descending,
        })),
    }
}

fn copied_input(alloc: Global, input: &Input) -> Result<Input, NoMemory>
    ensures { IfOk result (λ copied. copied ≡ input.now) }
{
    let message = input.message.copy(alloc)?;
    let sort = copied_sort(alloc, &input.sort)?;
    let filter = copied_guard(alloc, &input.filter)?;
    Ok(Input {
        message,
        random: input.random,
        filter,
        sort,
    })
}

fn copied_inputs(alloc: Global, inputs: &Seq<Input>) -> Result<Seq<Input>, NoMemory>
    ensures { IfOk result (λ copied. copied ≡ inputs.now) }
{
    let mut copies = Vec::new(alloc);
    for input in inputs.items() {
        copies.push(copied_input(alloc, input)?)?;
    }
    Ok(Seq::of(copies))
}

fn copied_function(alloc: Global, function: &Function) -> Result<Function, NoMemory>
    ensures { IfOk result (λ copied. copied ≡ function.now) }
{
    Ok(Function {
        name: function.name.copy(alloc)?,
        current: function.current.copy(alloc)?,
        next: function.next.copy(alloc)?,
        condition: copied_guard(alloc, &function.condition)?,
        inputs: copied_inputs(alloc, &function.inputs)?,
        outputs: function.outputs.copy(alloc)?,
    })
}

/// The functions of an agent type.
pub fn copied_functions(alloc: Global, functions: &Seq<Function>) -> Result<Seq<Function>, NoMemory>
    ensures { IfOk result (λ copied. copied ≡ functions.now) }
{
    let mut copies = Vec::new(alloc);
    for function in functions.items() {
        copies.push(copied_function(alloc, function)?)?;
    }
    Ok(Seq::of(copies))
}

fn copied_unit(alloc: Global, unit: &TimeUnit) -> Result<TimeUnit, NoMemory>
    ensures { IfOk result (λ copied. copied ≡ unit.now) }
{
    Ok(TimeUnit {
        name: unit.name.copy(alloc)?,
        unit: unit.unit.copy(alloc)?,
        period: unit.period,
    })
}

/// Adds these time units.
pub fn put_units(alloc: Global, units: &[TimeUnit], put: &mut Vec<TimeUnit>) -> Result<(), NoMemory>
    ensures { OnOk result (put.new.items ≡ put.old.items ++ units.now) }
{
    for unit in units {
        put.push(copied_unit(alloc, unit)?)?;
    }
    Ok(())
}

/// Adds these texts.
pub fn put_texts(alloc: Global, texts: &[Text], put: &mut Vec<Text>) -> Result<(), NoMemory>
    ensures { OnOk result (put.new.items ≡ put.old.items ++ texts.now) }
{
    for text in texts {
        put.push(text.copy(alloc)?)?;
    }
    Ok(())
}
