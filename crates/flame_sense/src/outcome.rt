//! The outcomes of transition functions.

ghost use Rattle.std.specs.Prelude.{◌≡◌, IfOk, map};
ghost use Rattle.flame_spec.specs.Definitions.{body_of};
ghost use Rattle.flame_sense.specs.Meant.{IsMeant};
ghost use Rattle.flame_meaning.specs.Outcomes.{start, finished, scene_of};
ghost use Rattle.flame_meaning.specs.Statements.{meanings};
ghost use Rattle.flame_sense.specs.StandsFor.{place_seen, rows_seen, progress_seen, end_of};

use crate::ending::Ending;
use crate::found::{body_of, place_of};
use crate::reading::readings;
use crate::scene::{Open, Place, Progress, Scene};
use crate::statement::statements;
use flame_rows::{Bag, NoMemory, Row, Seq};
use flame_spec::{Effect, Outcome, Source};
use std::alloc::Global;

/// How many calls of helpers may be open inside one another: the greatest height of helpers.
const LEVELS: u32 = 64;

/// The outcome of a function that ended so, and left this.
fn finish(ending: Ending, s: Progress<'_>) -> Outcome
    ensures { result ≡ finished (end_of ending (progress_seen s.entry)) }
{
    let Progress {
        memory,
        locals: _,
        sent,
        born,
        fuel,
    } = s;
    let memory = match ending {
        Ending::WentOn => Some(Row::of(memory)),
        Ending::Broke => Some(Row::of(memory)),
        Ending::Continued => Some(Row::of(memory)),
        Ending::Returned(value) => {
            if value == 0 {
                Some(Row::of(memory))
            } else {
                None
            }
        }
        Ending::Faulted(fault) => return Outcome::Faulted(fault),
    };
    Outcome::Ended(Effect {
        memory,
        sent: Seq::of(sent),
        born: Seq::of(born),
        fuel,
    })
}

/// What a function begins with: its memory, no locals, nothing added, and the full fuel.
fn begin<'a>(alloc: Global, memory: &Row, fuel: u32) -> Result<Progress<'a>, NoMemory>
    ensures { IfOk result (λ s. progress_seen s ≡ start memory.now fuel) }
{
    let memory = Vec::from_slice(alloc, memory.values())?;
    Ok(Progress {
        memory,
        locals: Vec::new(alloc),
        sent: Vec::new(alloc),
        born: Vec::new(alloc),
        fuel,
    })
}

/// Runs the body of the function of this place.
fn run<'a, 'b>(
    alloc: Global,
    source: &'a Source,
    place: Place<'a>,
    readings: &'b [Vec<&'a Row>],
    constants: &'a Row,
    iteration: i32,
    s: &mut Progress<'a>,
) -> Result<Ending, NoMemory>
    ensures { IfOk result (λ ending.
        meanings (body_of source.now.units place.entry.function.now)
        (scene_of source.now (place_seen place.entry) (map (λ rows. rows_seen rows.items) readings.now) constants.now
        iteration)
        (progress_seen s.old)
        ≡ end_of ending (progress_seen s.new)) }
{
    let body = body_of(source.units.items(), place.function);
    let scene = Scene {
        alloc,
        model: &source.model,
        units: source.units.items(),
        runs: Some(place),
        constants,
        iteration,
        readings,
        left: LEVELS,
    };
    let ending = statements(body, &scene, &Open::Nothing, s)?;
    Ok(ending)
}

/// The outcome of a function's run for an agent: exactly what its body in the source means.
///
/// `function` is the function's number in document order, `memory` the agent's memory, `boards` a board for each
/// message type in document order, `constants` a value for each constant, and `fuel` the units that it begins with. The
/// body is that of the first C function of its name in the files in their order; `idle` has the empty body. A message
/// loop goes over the view of its input's board under the input's filter and sort with this memory, as it was at entry.
/// A turn of a loop and a call of a helper take a unit of fuel each. What no accepted source has, as an unknown name or
/// a function of no number, has a plain default, so that the answer is exact for each source. `NoMemory` is want of
/// memory.
///
/// Its stack grows with the nesting of the text and of helpers, of which at most 64 are open inside one another. A turn
/// of a loop looks each name up in lists.
pub fn evaluate(
    alloc: Global,
    source: &Source,
    function: u32,
    memory: &Row,
    boards: &Seq<Bag>,
    constants: &Row,
    iteration: i32,
    fuel: u32,
) -> Result<Outcome, NoMemory>
    ensures { IfOk result (IsMeant source.now function memory.now boards.now constants.now iteration fuel) }
{
    let Some(place) = place_of(&source.model, function) else {
        let s = begin(alloc, memory, fuel)?;
        return Ok(finish(Ending::WentOn, s));
    };
    let readings = readings(
        alloc,
        place.function.inputs.items(),
        &source.model,
        place.agent,
        memory.values(),
        boards.items(),
    )?;
    let mut s = begin(alloc, memory, fuel)?;
    let ending = run(
        alloc,
        source,
        place,
        readings.as_slice(),
        constants,
        iteration,
        &mut s,
    )?;
    Ok(finish(ending, s))
}
