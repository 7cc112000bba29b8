//! Cases of outcomes: the section `model` is a model in JSON, each section `text` a function file, in the order of the
//! model; `given` has lines `function 0`, `memory [1, 2]`, `constants [1000]`, `iteration 7`, `fuel 5` and, for each
//! message in order, `board [[1, 2], [3, 4]]`. The answer is what the function means. Where the source is not accepted, a
//! line `not accepted` follows; where it is and its code leaves something else, a line `by code` and what that is.

ghost use Rattle.std.specs.Prelude.{IsTrue};
ghost use Rattle.flame_spec.specs.WellFormed.{is_well_formed};

use crate::accepting::program_of;
use crate::coding::by_code;
use crate::sources::{Sourced, source_in};
use flame_case_codes::{Scene, print_outcome, scene_in};
use flame_case_files::{Case, boards_in};
use flame_program::Program;
use flame_rows::{Bag, NoMemory, Seq};
use flame_sense::evaluate;
use flame_spec::Source;
use std::alloc::{AllocError, Global};

/// What the function of this number means in this scene.
fn by_meaning(
    alloc: Global,
    source: &Source,
    function: u32,
    scene: &Scene,
    boards: &Seq<Bag>,
) -> Result<String, NoMemory> {
    let mut out = String::new(alloc);
    let outcome = evaluate(
        alloc,
        source,
        function,
        &scene.memory,
        boards,
        &scene.constants,
        scene.iteration,
        scene.fuel,
    )?;
    print_outcome(&mut out, &outcome)?;
    Ok(out)
}

/// Adds what the program's code leaves, where that is something else than what stands there.
fn with_code(
    alloc: Global,
    mut out: String,
    program: &Program,
    function: u32,
    scene: Scene,
    boards: &Seq<Bag>,
) -> Result<String, NoMemory> {
    let coded = by_code(alloc, program, function, scene, boards)?;
    if coded.as_str() != out.as_str() {
        writeln!(out, "by code")?;
        out.push_str(coded.as_str())?;
    }
    Ok(out)
}

/// Adds that there is no program.
fn without_program(mut out: String) -> Result<String, NoMemory> {
    writeln!(out, "not accepted")?;
    Ok(out)
}

/// What the given function of the source means, and what its code leaves where that is something else.
fn compared(alloc: Global, case: &Case, source: Source) -> Result<String, NoMemory>
    requires formed { IsTrue (is_well_formed source.model) }
{
    let scene = scene_in(alloc, case)?;
    let boards = boards_in(alloc, case)?;
    let function = case.given("function ").parse::<u32>().unwrap_or(0);
    let out = by_meaning(alloc, &source, function, &scene, &boards)?;
    match program_of(alloc, source)? {
        Some(program) => with_code(alloc, out, &program, function, scene, &boards),
        None => without_program(out),
    }
}

/// The answer to a case of the kind `outcome`.
pub fn answer_outcome(alloc: Global, case: &Case) -> Result<String, AllocError> {
    match source_in(alloc, case)? {
        Sourced::Told(told) => Ok(told),
        Sourced::Source(source) => match compared(alloc, case, source) {
            Ok(out) => Ok(out),
            Err(NoMemory) => Err(AllocError),
        },
    }
}
