//! What calls do: of helpers, and of what sends, bears and sets.

ghost use Rattle.std.specs.Prelude.{◌≡◌, ◌≤◌, ℤ, IfOk};
ghost use Rattle.flame_spec.specs.CallFaults.{deed_of};
ghost use Rattle.flame_spec.specs.Definitions.{helper_named};
ghost use Rattle.flame_spec.specs.Trees.{call as called_there};
ghost use Rattle.flame_spec.specs.Seen.{expressions};
ghost use Rattle.flame_meaning.specs.Scenes.{Progress as Left};
ghost use Rattle.flame_meaning.specs.Ends.{End, with_value};
ghost use Rattle.flame_meaning.specs.Statements.{helped, done, meaning};
ghost use Rattle.flame_meaning.specs.HelperCalls.{gives};
ghost use Rattle.flame_sense.specs.StandsFor.{definition_seen, context_seen, scene_seen, progress_seen, end_of, gave_seen};
ghost use Rattle.flame_sense.specs.Depths.{depth, deepest};

use crate::arguments::values_of;
use crate::deed::Deed;
use crate::ending::{Ending, Gave};
use crate::found::{Definition, helper_named};
use crate::scene::{Open, Progress, Scene, number_at};
use crate::statement::{no_fuel, statements};
use crate::store::{bear, begin_helper, send, set_column};
use flame_rows::{NoMemory, Row};
use flame_spec::{Expr, Fault};

/// What a body gives to its caller.
fn given(ending: Ending, fuel: u32) -> Gave
    ensures { (s : Left) → s.fuel ≡ fuel → gave_seen result ≡ gives (end_of ending s) }
{
    match ending {
        Ending::WentOn => Gave::Value(0, fuel),
        Ending::Broke => Gave::Value(0, fuel),
        Ending::Continued => Gave::Value(0, fuel),
        Ending::Returned(value) => Gave::Value(value, fuel),
        Ending::Faulted(fault) => Gave::Failed(fault),
    }
}

/// How a call of a helper ends: a unit of fuel is paid, and the helper's body runs with its parameters alone.
#[cycle(run)]
fn call(
    helper: Definition<'_>,
    values: &Row,
    line: u32,
    fuel: u32,
    scene: &Scene<'_, '_>,
) -> Result<Gave, NoMemory>
    requires { depth helper.def.now.body ≤ deepest scene.now.units.now }
    ensures { IfOk result (λ gave.
        (scene_seen scene.now Open.Nothing).answers line (definition_seen helper.entry) values.now fuel
        ≡ gave_seen gave) }
{
    if fuel == 0 {
        return Ok(Gave::Failed(no_fuel(line)));
    }
    if scene.left == 0 {
        return Ok(Gave::Failed(no_fuel(line)));
    }
    let def = helper.def;
    let mut s = begin_helper(
        scene.alloc,
        def.parameters.items(),
        values.values(),
        fuel - 1,
    )?;
    let inner = scene.in_helper();
    let ending = statements(def.body.items(), &inner, &Open::Nothing, &mut s)?;
    Ok(given(ending, s.fuel))
}

/// The value of a call of the helper of this name; of none 0.
#[cycle(run)]
pub(super) fn helped(
    word: &str,
    values: &Row,
    line: u32,
    scene: &Scene<'_, '_>,
    s: &mut Progress<'_>,
) -> Result<Result<i32, Fault>, NoMemory>
    ensures { IfOk result (λ r. (open_loops : Open) (go : ℤ → Left → End)
        → helped (helper_named (scene_seen scene.now open_loops).context.helpers word.now) line values.now
        (scene_seen scene.now open_loops) (progress_seen s.old) go
        ≡ with_value r (λ v. go v (progress_seen s.new))) }
{
    match helper_named(scene.model, scene.units, word) {
        None => Ok(Ok(0)),
        Some(helper) => match call(helper, values, line, s.fuel, scene)? {
            Gave::Value(value, fuel) => {
                s.fuel = fuel;
                Ok(Ok(value))
            }
            Gave::Failed(fault) => Ok(Err(fault)),
        },
    }
}

/// What a call statement does with the values of its arguments.
#[cycle(run)]
fn done(
    word: &str,
    values: &Row,
    line: u32,
    scene: &Scene<'_, '_>,
    s: &mut Progress<'_>,
) -> Result<Ending, NoMemory>
    ensures { IfOk result (λ ending. (open_loops : Open)
        → done (deed_of (context_seen scene.now) word.now) line values.now (scene_seen scene.now open_loops)
        (progress_seen s.old)
        ≡ end_of ending (progress_seen s.new)) }
{
    match scene.deed_of(word) {
        None => Ok(Ending::WentOn),
        Some(Deed::Sets(span)) => {
            set_column(span.column, number_at(values.values(), 0), s);
            Ok(Ending::WentOn)
        }
        Some(Deed::Sends(number, message)) => {
            send(scene.alloc, number, message, values, s)?;
            Ok(Ending::WentOn)
        }
        Some(Deed::Bears(number, agent)) => {
            bear(scene.alloc, number, agent, values, s)?;
            Ok(Ending::WentOn)
        }
        Some(Deed::Calls(helper)) => match call(helper, values, line, s.fuel, scene)? {
            Gave::Value(_, fuel) => {
                s.fuel = fuel;
                Ok(Ending::WentOn)
            }
            Gave::Failed(fault) => Ok(Ending::Faulted(fault)),
        },
    }
}

/// `name(e1, e2);`
#[cycle(run)]
pub(super) fn call_statement(
    word: &str,
    arguments: &[Expr],
    line: u32,
    scene: &Scene<'_, '_>,
    open_loops: &Open<'_>,
    s: &mut Progress<'_>,
) -> Result<Ending, NoMemory>
    ensures { IfOk result (λ ending.
        meaning (called_there line word.now (expressions arguments.now)) (scene_seen scene.now open_loops.now)
        (progress_seen s.old)
        ≡ end_of ending (progress_seen s.new)) }
{
    match values_of(arguments, scene, open_loops, s)? {
        Ok(values) => done(word, &values, line, scene, s),
        Err(fault) => Ok(Ending::Faulted(fault)),
    }
}
