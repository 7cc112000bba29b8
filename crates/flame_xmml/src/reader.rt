//! Models.

ghost use Rattle.std.specs.Prelude.{◌≡◌, [], codes, IsTrue, IfOk, IfErr};
ghost use Rattle.serde_json.specs.Data.{null};
ghost use Rattle.serde_json.specs.View.{view};
ghost use Rattle.flame_rows.specs.declared.fails.Fail.TheVariants.{NoMemory};
ghost use Rattle.flame_spec.specs.Counted.{is_counted};
ghost use Rattle.flame_xmml.specs.ShapeFaults.{environment_lists, environment_faults, xmodel_faults};
ghost use Rattle.flame_xmml.specs.ShapeFaults.{shape_faults, plain};
ghost use Rattle.flame_xmml.specs.Models.{environment_of, xmodel_of, model_of};
ghost use Rattle.flame_xmml.specs.ValueParts.{part, optional};
ghost use Rattle.flame_xmml.specs.ValuePlaces.{path_of};
ghost use Rattle.flame_spec.specs.FirstFaults.{FailsFirst, Reads};

use crate::faults::{Shape, Want};
use crate::keys::empty_at;
use crate::list::list_at;
use crate::member::{Constants, Files};
use crate::parts::{fault, object, part};
use crate::place::Place;
use flame_rows::{Fail, Seq, Text};
use flame_spec::{AgentType, MessageType, Model, TimeUnit};
use serde_json::Value;
use std::alloc::Global;

/// The model that a value stands for (XMML, in JSON), where it is a model file by itself: each variable is of type int,
/// and there are no data types and no further files.
///
/// An entry whose value is null counts as missing, a missing list is an empty one, and a key that the form does not
/// name is passed over. `Fault` comes exactly where something else is wanted somewhere, with the first such place in
/// the order of the form: an object or a list is walked in that order, and inside it before what follows it. Nothing is
/// formatted where there is no fault. Takes a call for each level that conditions nest. `NoMemory` is want of memory, also
/// for the numbers of a model that `Model::is_counted` does not pass.
pub fn model_of(alloc: Global, value: &Value) -> Result<Model, Fail<Shape>>
    ensures faultless { IfOk result (λ model. shape_faults (view value.now) ≡ []) }
    ensures model { IfOk result (λ model. model ≡ model_of (view value.now)) }
    ensures counted { IfOk result (λ model. IsTrue (is_counted model)) }
    ensures fault { IfErr result (λ fail. FailsFirst (shape_faults (view value.now)) fail) }
{
    let root = Place::Root;
    object(alloc, &root, value)?;
    let place = Place::Key(&root, "xmodel");
    match part(value, "xmodel") {
        Some(found) => counted(xmodel(alloc, &place, found)?),
        None => Err(fault(alloc, &place, Want::Object)),
    }
}

/// The model, where its parts can be numbered.
fn counted(model: Model) -> Result<Model, Fail<Shape>>
    ensures model { IfOk result (λ counted. counted ≡ model) }
    ensures counted { IfOk result (λ counted. IsTrue (is_counted counted)) }
    ensures fault { IfErr result (λ fail. fail ≡ NoMemory) }
{
    if model.is_counted() {
        Ok(model)
    } else {
        Err(Fail::NoMemory)
    }
}

/// What stands at `environment`.
#[derive(Drop)]
pub(crate) struct Environment {
    pub(crate) constants: Seq<Text>,
    pub(crate) files: Seq<Text>,
    pub(crate) units: Seq<TimeUnit>,
}

/// What stands at `xmodel`.
fn xmodel(alloc: Global, place: &Place<'_>, value: &Value) -> Result<Model, Fail<Shape>>
    ensures { Reads
        (xmodel_faults plain (path_of place.now) (view value.now))
        (xmodel_of (view value.now))
        result }
{
    object(alloc, place, value)?;
    let Environment {
        constants,
        files,
        units,
    } = environment_at(alloc, place, value)?;
    let messages = list_at::<MessageType>(alloc, place, value, "messages")?;
    let agents = list_at::<AgentType>(alloc, place, value, "agents")?;
    empty_at(alloc, place, value, "models")?;
    Ok(Model {
        constants,
        files,
        units,
        messages,
        agents,
    })
}

/// The environment; one of nothing where it is missing.
fn environment_at(
    alloc: Global,
    place: &Place<'_>,
    value: &Value,
) -> Result<Environment, Fail<Shape>>
    ensures { Reads
        (optional (environment_faults plain.types) (codes "environment") (path_of place.now) (view value.now))
        (environment_of (part (codes "environment") (view value.now)))
        result }
{
    match part(value, "environment") {
        Some(found) => environment_of(alloc, &Place::Key(place, "environment"), found),
        None => Ok(no_environment(alloc)),
    }
}

/// An environment of nothing.
pub(crate) fn no_environment(alloc: Global) -> Environment
    ensures { result ≡ environment_of null }
{
    Environment {
        constants: Seq::of(Vec::new(alloc)),
        files: Seq::of(Vec::new(alloc)),
        units: Seq::of(Vec::new(alloc)),
    }
}

/// The environment at a place.
fn environment_of(
    alloc: Global,
    place: &Place<'_>,
    value: &Value,
) -> Result<Environment, Fail<Shape>>
    ensures { Reads
        (environment_faults plain.types (path_of place.now) (view value.now))
        (environment_of (view value.now))
        result }
{
    object(alloc, place, value)?;
    let environment = environment_lists(alloc, place, value)?;
    empty_at(alloc, place, value, "dataTypes")?;
    Ok(environment)
}

/// The lists of the environment at a place that each model file may have.
pub(crate) fn environment_lists(
    alloc: Global,
    place: &Place<'_>,
    value: &Value,
) -> Result<Environment, Fail<Shape>>
    ensures { Reads
        (environment_lists (path_of place.now) (view value.now))
        (environment_of (view value.now))
        result }
{
    Ok(Environment {
        constants: list_at::<Constants>(alloc, place, value, "constants")?,
        files: list_at::<Files>(alloc, place, value, "functionFiles")?,
        units: list_at::<TimeUnit>(alloc, place, value, "timeUnits")?,
    })
}
