//! Constants, files, time units and functions.

ghost use Rattle.std.specs.Prelude.{◌≡◌, codes, map, option_map, true, false};
ghost use Rattle.serde_json.specs.View.{view};
ghost use Rattle.flame_xmml.specs.ConditionShapes.{condition_faults, condition_of};
ghost use Rattle.flame_xmml.specs.ShapeFaults.{constant_faults, unit_faults, sort_faults, input_faults, output_faults};
ghost use Rattle.flame_xmml.specs.ShapeFaults.{function_faults};
ghost use Rattle.flame_xmml.specs.LeafShapes.{file_faults};
ghost use Rattle.flame_xmml.specs.Models.{name_at, filled, there, unit_of, sort_of, input_of, function_of};
ghost use Rattle.flame_xmml.specs.FunctionStep.{step_faults, step_of, uses_faults, uses_of};
ghost use Rattle.flame_xmml.specs.ValueParts.{optional};
ghost use Rattle.flame_xmml.specs.ValuePlaces.{path_of};
ghost use Rattle.flame_spec.specs.FirstFaults.{Reads};

use crate::condition::condition;
use crate::faults::{Shape, Want};
use crate::keys::{descending, int_type, name_at, period, state_at, truth_at};
use crate::list::{Member, list_at};
use crate::parts::{object, part, wanted};
use crate::place::Place;
use crate::words::filled_of;
use flame_rows::{Fail, Seq, Text};
use flame_spec::{Condition, Function, Input, Sort, TimeUnit};
use serde_json::Value;
use std::alloc::Global;

/// Constants, which are read as their names.
pub(crate) struct Constants;

/// Names of function files.
pub(crate) struct Files;

/// Outputs, which are read as the names of their messages.
pub(crate) struct Outputs;

/// The name of a function, the state that it leaves and the one that it enters.
#[derive(Drop)]
struct Step {
    name: Text,
    current: Text,
    next: Text,
}

/// When a function runs, what it reads and what it adds.
#[derive(Drop)]
struct Uses {
    condition: Option<Condition>,
    inputs: Seq<Input>,
    outputs: Seq<Text>,
}

impl Member for Constants {
    type Read = Text;

    ghost faults = { constant_faults };

    ghost meant = { name_at (codes "name") };

    fn read(alloc: Global, place: &Place<'_>, value: &Value) -> Result<Text, Fail<Shape>> {
        object(alloc, place, value)?;
        int_type(alloc, place, value)?;
        name_at(alloc, place, value, "name")
    }
}

impl Member for Files {
    type Read = Text;

    ghost faults = { file_faults };

    ghost meant = { filled };

    fn read(alloc: Global, place: &Place<'_>, value: &Value) -> Result<Text, Fail<Shape>> {
        let name = wanted(alloc, place, Want::FileName, filled_of(Some(value)))?;
        Ok(Text::of(alloc, name)?)
    }
}

impl Member for TimeUnit {
    type Read = TimeUnit;

    ghost faults = { unit_faults };

    ghost meant = { unit_of };

    fn read(alloc: Global, place: &Place<'_>, value: &Value) -> Result<TimeUnit, Fail<Shape>> {
        object(alloc, place, value)?;
        Ok(TimeUnit {
            name: name_at(alloc, place, value, "name")?,
            unit: name_at(alloc, place, value, "unit")?,
            period: period(alloc, place, value)?,
        })
    }
}

impl Member for Outputs {
    type Read = Text;

    ghost faults = { output_faults };

    ghost meant = { name_at (codes "messageName") };

    fn read(alloc: Global, place: &Place<'_>, value: &Value) -> Result<Text, Fail<Shape>> {
        object(alloc, place, value)?;
        name_at(alloc, place, value, "messageName")
    }
}

impl Member for Input {
    type Read = Input;

    ghost faults = { input_faults };

    ghost meant = { input_of };

    fn read(alloc: Global, place: &Place<'_>, value: &Value) -> Result<Input, Fail<Shape>> {
        object(alloc, place, value)?;
        Ok(Input {
            message: name_at(alloc, place, value, "messageName")?,
            random: truth_at(alloc, place, value, "random", false)?,
            filter: condition_at(alloc, place, value, "filter", true)?,
            sort: sort_at(alloc, place, value)?,
        })
    }
}

impl Member for Function {
    type Read = Function;

    ghost faults = { function_faults };

    ghost meant = { function_of };

    fn read(alloc: Global, place: &Place<'_>, value: &Value) -> Result<Function, Fail<Shape>> {
        object(alloc, place, value)?;
        let step = step_at(alloc, place, value)?;
        let uses = uses_at(alloc, place, value)?;
        Ok(Function {
            name: step.name,
            current: step.current,
            next: step.next,
            condition: uses.condition,
            inputs: uses.inputs,
            outputs: uses.outputs,
        })
    }
}

/// The name of a function and its states.
fn step_at(alloc: Global, place: &Place<'_>, value: &Value) -> Result<Step, Fail<Shape>>
    ensures { Reads
        (step_faults (path_of place.now) (view value.now))
        (step_of (view value.now))
        result }
{
    Ok(Step {
        name: name_at(alloc, place, value, "name")?,
        current: state_at(alloc, place, value, "currentState")?,
        next: state_at(alloc, place, value, "nextState")?,
    })
}

/// The condition of a function, its inputs and its outputs.
fn uses_at(alloc: Global, place: &Place<'_>, value: &Value) -> Result<Uses, Fail<Shape>>
    ensures { Reads
        (uses_faults (path_of place.now) (view value.now))
        (uses_of (view value.now))
        result }
{
    let condition = condition_at(alloc, place, value, "condition", false)?;
    let inputs = list_at::<Input>(alloc, place, value, "inputs")?;
    let outputs = list_at::<Outputs>(alloc, place, value, "outputs")?;
    Ok(Uses {
        condition,
        inputs,
        outputs,
    })
}

/// The condition at a key, if there is one.
fn condition_at(
    alloc: Global,
    place: &Place<'_>,
    value: &Value,
    key: &str,
    in_filter: bool,
) -> Result<Option<Condition>, Fail<Shape>>
    ensures { Reads
        (optional (condition_faults in_filter) key.now (path_of place.now) (view value.now))
        (option_map condition_of (there key.now (view value.now)))
        result }
{
    match part(value, key) {
        Some(found) => {
            let condition = condition(alloc, &Place::Key(place, key), Some(found), in_filter)?;
            Ok(Some(condition))
        }
        None => Ok(None),
    }
}

/// The sort of an input, if there is one.
fn sort_at(alloc: Global, place: &Place<'_>, value: &Value) -> Result<Option<Sort>, Fail<Shape>>
    ensures { Reads
        (optional sort_faults (codes "sort") (path_of place.now) (view value.now))
        (option_map sort_of (there (codes "sort") (view value.now)))
        result }
{
    match part(value, "sort") {
        Some(found) => Ok(Some(sort(alloc, &Place::Key(place, "sort"), found)?)),
        None => Ok(None),
    }
}

/// The sort at a place.
fn sort(alloc: Global, place: &Place<'_>, value: &Value) -> Result<Sort, Fail<Shape>>
    ensures { Reads
        (sort_faults (path_of place.now) (view value.now))
        (sort_of (view value.now))
        result }
{
    object(alloc, place, value)?;
    Ok(Sort {
        key: name_at(alloc, place, value, "key")?,
        descending: descending(alloc, place, value)?,
    })
}
