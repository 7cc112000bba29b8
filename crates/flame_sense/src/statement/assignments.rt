//! What declarations and assignments do.

ghost use Rattle.std.specs.Prelude.{◌≡◌, ℤ, IfOk, map, option_map};
ghost use Rattle.flame_spec.specs.Seen.{declared, assigned, indexed, stored as value_seen};
ghost use Rattle.flame_meaning.specs.Scenes.{Progress as Left};
ghost use Rattle.flame_meaning.specs.Ends.{End, with_value};
ghost use Rattle.flame_meaning.specs.Statements.{by_value, by_initial, declarations, name_set, name_changed, element_set, element_changed, assignment};
ghost use Rattle.flame_sense.specs.StandsFor.{scene_seen, progress_seen, end_of};

use crate::arguments::values_of;
use crate::ending::Ending;
use crate::expression::{bad_index, element_column, value};
use crate::scene::{Open, Progress, Scene, number_near};
use crate::statement::calls::helped;
use crate::store::{add_local, change_column, change_name, set_column, set_name};
use flame_ops::Op;
use flame_rows::NoMemory;
use flame_spec::{Assign, Fault, Item, Subscript, Value};

/// What is stored: the value of an expression, or what a helper returns.
#[cycle(run)]
fn stored_value(
    stored: &Value,
    scene: &Scene<'_, '_>,
    open_loops: &Open<'_>,
    s: &mut Progress<'_>,
) -> Result<Result<i32, Fault>, NoMemory>
    ensures { IfOk result (λ r. (go : ℤ → Left → End)
        → by_value (value_seen stored.now) (scene_seen scene.now open_loops.now) (progress_seen s.old) go
        ≡ with_value r (λ v. go v (progress_seen s.new))) }
{
    match stored {
        Value::Plain(e) => Ok(value(e, scene, open_loops, s)),
        Value::Call(line, word, arguments) => {
            match values_of(arguments.items(), scene, open_loops, s)? {
                Ok(values) => helped(word.as_str(), &values, *line, scene, s),
                Err(fault) => Ok(Err(fault)),
            }
        }
    }
}

/// The initial value of a local.
#[cycle(run)]
fn initial(
    stored: &Option<Value>,
    scene: &Scene<'_, '_>,
    open_loops: &Open<'_>,
    s: &mut Progress<'_>,
) -> Result<Result<i32, Fault>, NoMemory>
    ensures { IfOk result (λ r. (go : ℤ → Left → End)
        → by_initial (option_map value_seen stored.now) (scene_seen scene.now open_loops.now) (progress_seen s.old) go
        ≡ with_value r (λ v. go v (progress_seen s.new))) }
{
    match stored {
        None => Ok(Ok(0)),
        Some(stored) => stored_value(stored, scene, open_loops, s),
    }
}

/// `int a, b = e;`
#[cycle(run)]
pub(super) fn declare<'a>(
    items: &'a [Item],
    scene: &Scene<'_, '_>,
    open_loops: &Open<'_>,
    s: &mut Progress<'a>,
) -> Result<Ending, NoMemory>
    ensures { IfOk result (λ ending.
        declarations (map declared items.now) (scene_seen scene.now open_loops.now) (progress_seen s.old)
        ≡ end_of ending (progress_seen s.new)) }
{
    for item in items {
        match initial(&item.value, scene, open_loops, s)? {
            Ok(value) => add_local(item.name.as_str(), value, s)?,
            Err(fault) => return Ok(Ending::Faulted(fault)),
        }
    }
    Ok(Ending::WentOn)
}

/// `x = v`
#[cycle(run)]
fn name_set(
    a: &Assign,
    scene: &Scene<'_, '_>,
    open_loops: &Open<'_>,
    s: &mut Progress<'_>,
) -> Result<Ending, NoMemory>
    ensures { IfOk result (λ ending.
        name_set (assigned a.now) (scene_seen scene.now open_loops.now) (progress_seen s.old)
        ≡ end_of ending (progress_seen s.new)) }
{
    match stored_value(&a.value, scene, open_loops, s)? {
        Ok(value) => {
            set_name(a.name.as_str(), value, scene, s);
            Ok(Ending::WentOn)
        }
        Err(fault) => Ok(Ending::Faulted(fault)),
    }
}

/// `x op= v`
#[cycle(run)]
fn name_changed(
    op: Op,
    a: &Assign,
    scene: &Scene<'_, '_>,
    open_loops: &Open<'_>,
    s: &mut Progress<'_>,
) -> Result<Ending, NoMemory>
    ensures { IfOk result (λ ending.
        name_changed op (assigned a.now) (scene_seen scene.now open_loops.now) (progress_seen s.old)
        ≡ end_of ending (progress_seen s.new)) }
{
    let name = a.name.as_str();
    let left = scene.named(name, s);
    match stored_value(&a.value, scene, open_loops, s)? {
        Ok(right) => Ok(change_name(op, a.op_line, name, left, right, scene, s)),
        Err(fault) => Ok(Ending::Faulted(fault)),
    }
}

/// `x[e] = v`
#[cycle(run)]
fn element_set(
    place: &Subscript,
    a: &Assign,
    scene: &Scene<'_, '_>,
    open_loops: &Open<'_>,
    s: &mut Progress<'_>,
) -> Result<Ending, NoMemory>
    ensures { IfOk result (λ ending.
        element_set (indexed place.now) (assigned a.now) (scene_seen scene.now open_loops.now) (progress_seen s.old)
        ≡ end_of ending (progress_seen s.new)) }
{
    let index = match value(place.index.get(), scene, open_loops, s) {
        Ok(index) => index,
        Err(fault) => return Ok(Ending::Faulted(fault)),
    };
    let array = scene.array_named(a.name.as_str(), s);
    match stored_value(&a.value, scene, open_loops, s)? {
        Ok(value) => match element_column(array, index) {
            Some(column) => {
                set_column(column, value, s);
                Ok(Ending::WentOn)
            }
            None => Ok(Ending::Faulted(bad_index(place.line))),
        },
        Err(fault) => Ok(Ending::Faulted(fault)),
    }
}

/// `x[e] op= v`
#[cycle(run)]
fn element_changed(
    place: &Subscript,
    op: Op,
    a: &Assign,
    scene: &Scene<'_, '_>,
    open_loops: &Open<'_>,
    s: &mut Progress<'_>,
) -> Result<Ending, NoMemory>
    ensures { IfOk result (λ ending.
        element_changed (indexed place.now) op (assigned a.now) (scene_seen scene.now open_loops.now)
        (progress_seen s.old)
        ≡ end_of ending (progress_seen s.new)) }
{
    let index = match value(place.index.get(), scene, open_loops, s) {
        Ok(index) => index,
        Err(fault) => return Ok(Ending::Faulted(fault)),
    };
    let Some(column) = element_column(scene.array_named(a.name.as_str(), s), index) else {
        return Ok(Ending::Faulted(bad_index(place.line)));
    };
    let left = number_near(s.memory.as_slice(), column);
    match stored_value(&a.value, scene, open_loops, s)? {
        Ok(right) => Ok(change_column(op, a.op_line, column, left, right, s)),
        Err(fault) => Ok(Ending::Faulted(fault)),
    }
}

/// An assignment.
#[cycle(run)]
pub(super) fn assign(
    a: &Assign,
    scene: &Scene<'_, '_>,
    open_loops: &Open<'_>,
    s: &mut Progress<'_>,
) -> Result<Ending, NoMemory>
    ensures { IfOk result (λ ending.
        assignment (assigned a.now) (scene_seen scene.now open_loops.now) (progress_seen s.old)
        ≡ end_of ending (progress_seen s.new)) }
{
    match &a.subscript {
        None => match a.op {
            None => name_set(a, scene, open_loops, s),
            Some(op) => name_changed(op, a, scene, open_loops, s),
        },
        Some(place) => match a.op {
            None => element_set(place, a, scene, open_loops, s),
            Some(op) => element_changed(place, op, a, scene, open_loops, s),
        },
    }
}
