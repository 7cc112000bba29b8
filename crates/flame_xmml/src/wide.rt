//! Model files with data types and nested files.

ghost use Rattle.std.specs.Prelude.{◌≡◌, [], codes, IsTrue, IfOk, IfErr};
ghost use Rattle.serde_json.specs.View.{view};
ghost use Rattle.flame_rows.specs.declared.fails.Fail.TheVariants.{NoMemory};
ghost use Rattle.flame_spec.specs.WideModels.{is_counted_wide};
ghost use Rattle.flame_xmml.specs.ShapeFaults.{environment_faults, xmodel_faults, wide_faults, wide as wide_form};
ghost use Rattle.flame_xmml.specs.Models.{environment_of, list_at};
ghost use Rattle.flame_xmml.specs.WideValues.{type_of, wide_xmodel_of, wide_of};
ghost use Rattle.flame_xmml.specs.ValueParts.{part, optional};
ghost use Rattle.flame_xmml.specs.ValuePlaces.{path_of};
ghost use Rattle.flame_spec.specs.FirstFaults.{FailsFirst, Reads};

use crate::faults::{Shape, Want};
use crate::list::list_at;
use crate::parts::{fault, object, part};
use crate::place::Place;
use crate::reader::{Environment, environment_lists, no_environment};
use crate::rows::{Nested, enabled};
use flame_rows::{Fail, Seq};
use flame_spec::{DataType, Wide, WideAgent, WideMessage};
use serde_json::Value;
use std::alloc::Global;

/// The model file that a value stands for (XMML, in JSON), with its data types and the names of the files that it takes
/// in.
///
/// It is read as `model_of` reads it, with three differences: a variable of a message or of a memory may be of a data
/// type, `dataTypes` is a list of data types, and `models` a list of model files, of which those that are not enabled
/// are passed over. `Fault` comes exactly where something else is wanted somewhere, with the first such place in the
/// order of the form. `NoMemory` is want of memory, also for the numbers of a file that `Wide::is_counted` does not
/// pass.
pub fn wide_of(alloc: Global, value: &Value) -> Result<Wide, Fail<Shape>>
    ensures faultless { IfOk result (λ wide. wide_faults (view value.now) ≡ []) }
    ensures model { IfOk result (λ wide. wide ≡ wide_of (view value.now)) }
    ensures counted { IfOk result (λ wide. IsTrue (is_counted_wide wide)) }
    ensures fault { IfErr result (λ fail. FailsFirst (wide_faults (view value.now)) fail) }
{
    let root = Place::Root;
    object(alloc, &root, value)?;
    let place = Place::Key(&root, "xmodel");
    match part(value, "xmodel") {
        Some(found) => counted(xmodel(alloc, &place, found)?),
        None => Err(fault(alloc, &place, Want::Object)),
    }
}

/// The model file, where its parts can be numbered.
fn counted(wide: Wide) -> Result<Wide, Fail<Shape>>
    ensures model { IfOk result (λ counted. counted ≡ wide) }
    ensures counted { IfOk result (λ counted. IsTrue (is_counted_wide counted)) }
    ensures fault { IfErr result (λ fail. fail ≡ NoMemory) }
{
    if wide.is_counted() {
        Ok(wide)
    } else {
        Err(Fail::NoMemory)
    }
}

/// What stands at `xmodel`.
fn xmodel(alloc: Global, place: &Place<'_>, value: &Value) -> Result<Wide, Fail<Shape>>
    ensures { Reads
        (xmodel_faults wide_form (path_of place.now) (view value.now))
        (wide_xmodel_of (view value.now))
        result }
{
    object(alloc, place, value)?;
    let (environment, types) = environment_at(alloc, place, value)?;
    let messages = list_at::<WideMessage>(alloc, place, value, "messages")?;
    let agents = list_at::<WideAgent>(alloc, place, value, "agents")?;
    let named = list_at::<Nested>(alloc, place, value, "models")?;
    let nested = enabled(alloc, named.items())?;
    Ok(Wide {
        constants: environment.constants,
        files: environment.files,
        units: environment.units,
        types,
        messages,
        agents,
        nested,
    })
}

/// The environment with its data types; one of nothing where it is missing.
fn environment_at(
    alloc: Global,
    place: &Place<'_>,
    value: &Value,
) -> Result<(Environment, Seq<DataType>), Fail<Shape>>
    ensures { Reads
        (optional (environment_faults wide_form.types) (codes "environment") (path_of place.now) (view value.now)) (
          environment_of (part (codes "environment") (view value.now)),
          list_at type_of (codes "dataTypes") (part (codes "environment") (view value.now)),
        )
        result }
{
    match part(value, "environment") {
        Some(found) => environment(alloc, &Place::Key(place, "environment"), found),
        None => Ok((no_environment(alloc), Seq::of(Vec::new(alloc)))),
    }
}

/// The environment at a place, with its data types.
fn environment(
    alloc: Global,
    place: &Place<'_>,
    value: &Value,
) -> Result<(Environment, Seq<DataType>), Fail<Shape>>
    ensures { Reads
        (environment_faults wide_form.types (path_of place.now) (view value.now))
        (environment_of (view value.now), list_at type_of (codes "dataTypes") (view value.now))
        result }
{
    object(alloc, place, value)?;
    let environment = environment_lists(alloc, place, value)?;
    let types = list_at::<DataType>(alloc, place, value, "dataTypes")?;
    Ok((environment, types))
}
