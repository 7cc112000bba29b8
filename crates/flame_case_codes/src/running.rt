//! Cases of `run`: the section `code` is a listing, and each section `helper 1 2` that of a helper with its number of
//! parameters and its height. `given` has lines `memory [1, 2]`, `constants [1000]`, `iteration 7` and `fuel 5`; `inputs
//! [2]`, `messages [1]` and `agents [3]`, the widths of what the code sees; and `rows [[1, 2], [3, 4]]` for each input. The
//! answer is the outcome, or what does not fit.

use crate::listing::code_in;
use crate::printing::print_outcome;
use flame_case_files::{Case, numbers_in};
use flame_code::{Code, Helpers};
use flame_machine::{Lists, fits_entry, helpers_of, run};
use flame_rows::{NoMemory, Row, Seq};
use flame_spec::Widths;
use std::alloc::{AllocError, Global};
use std::str;

/// What a run begins with.
#[derive(Drop)]
pub struct Scene {
    /// The memory.
    pub memory: Row,
    /// The constants.
    pub constants: Row,
    /// The rows of each input, in order.
    pub inputs: Vec<Vec<Row>>,
    /// The iteration.
    pub iteration: i32,
    /// The fuel.
    pub fuel: u32,
}

/// The rows between brackets, in order.
fn rows_in(alloc: Global, text: &str) -> Result<Vec<Row>, AllocError> {
    let mut rows = Vec::new(alloc);
    for part in text.split(']') {
        let row = numbers_in(alloc, part)?;
        if !row.is_empty() {
            rows.push(Row::of(row))?;
        }
    }
    Ok(rows)
}

/// The rows of each input.
fn inputs_in(alloc: Global, case: &Case) -> Result<Vec<Vec<Row>>, AllocError> {
    let mut inputs = Vec::new(alloc);
    for line in case.text("given").split('\n') {
        if let Some(rest) = line.strip_prefix("rows ") {
            inputs.push(rows_in(alloc, rest)?)?;
        }
    }
    Ok(inputs)
}

/// The widths between brackets.
fn widths_in(alloc: Global, text: &str) -> Result<Seq<u32>, AllocError> {
    let mut widths = Vec::new(alloc);
    for number in numbers_in(alloc, text)?.as_slice() {
        widths.push(number.unsigned_abs())?;
    }
    Ok(Seq::of(widths))
}

/// The number behind a word, or this many without one.
fn count_in(case: &Case, word: &str, default: usize) -> u32 {
    match case.given(word).parse::<u32>() {
        Ok(number) => number,
        Err(_) => u32::try_from(default).unwrap_or(0),
    }
}

/// What the lines of the section `given` say.
pub fn scene_in(alloc: Global, case: &Case) -> Result<Scene, AllocError> {
    Ok(Scene {
        memory: Row::of(numbers_in(alloc, case.given("memory "))?),
        constants: Row::of(numbers_in(alloc, case.given("constants "))?),
        inputs: inputs_in(alloc, case)?,
        iteration: case.given("iteration ").parse::<i32>().unwrap_or(0),
        fuel: case.given("fuel ").parse::<u32>().unwrap_or(0),
    })
}

/// What the code sees. Without a line `columns 3` it sees as many columns as the memory has.
fn seen(alloc: Global, case: &Case, scene: &Scene) -> Result<Widths, AllocError> {
    Ok(Widths {
        memory: count_in(case, "columns ", scene.memory.values().len()),
        constants: count_in(case, "known ", scene.constants.values().len()),
        inputs: widths_in(alloc, case.given("inputs "))?,
        messages: widths_in(alloc, case.given("messages "))?,
        agents: widths_in(alloc, case.given("agents "))?,
    })
}

/// What helpers see.
fn seen_by_helpers(alloc: Global, constants: u32) -> Widths {
    Widths {
        memory: 0,
        constants,
        inputs: Seq::of(Vec::new(alloc)),
        messages: Seq::of(Vec::new(alloc)),
        agents: Seq::of(Vec::new(alloc)),
    }
}

/// The number of parameters and the height of a helper, which stand in the title of its section.
fn counts_in(title: &str) -> Option<(u32, u32)> {
    let (parameters, height) = title.strip_prefix("helper ")?.split_once(' ')?;
    Some((
        parameters.parse::<u32>().unwrap_or(0),
        height.parse::<u32>().unwrap_or(0),
    ))
}

/// The parameters of the helpers of a case.
fn parameters_in(alloc: Global, case: &Case) -> Result<Vec<u32>, AllocError> {
    let mut all = Vec::new(alloc);
    for section in &case.sections {
        if let Some((parameters, _)) = counts_in(section.title.as_str()) {
            all.push(parameters)?;
        }
    }
    Ok(all)
}

/// The heights of the helpers of a case.
fn heights_in(alloc: Global, case: &Case) -> Result<Vec<u32>, AllocError> {
    let mut all = Vec::new(alloc);
    for section in &case.sections {
        if let Some((_, height)) = counts_in(section.title.as_str()) {
            all.push(height)?;
        }
    }
    Ok(all)
}

/// The code of a helper, where it is valid.
fn helper_in(alloc: Global, bytes: &[u8], constants: u32) -> Result<Option<Code>, AllocError> {
    let text = str::from_utf8(bytes).unwrap_or("");
    code_in(alloc, text, seen_by_helpers(alloc, constants))
}

/// The codes of the helpers of a case, where all are valid.
fn codes_in(alloc: Global, case: &Case, constants: u32) -> Result<Option<Vec<Code>>, AllocError> {
    let mut codes = Vec::new(alloc);
    for section in &case.sections {
        if counts_in(section.title.as_str()).is_some() {
            match helper_in(alloc, section.bytes.as_slice(), constants)? {
                Some(code) => codes.push(code)?,
                None => return Ok(None),
            }
        }
    }
    Ok(Some(codes))
}

/// The helpers of these codes, where they are helpers of one another.
fn joined(alloc: Global, case: &Case, codes: Vec<Code>) -> Result<Option<Helpers>, AllocError> {
    let heights = heights_in(alloc, case)?;
    let parameters = parameters_in(alloc, case)?;
    Ok(helpers_of(Seq::of(codes), Seq::of(parameters), heights.as_slice()))
}

/// The helpers of a case, where they are valid and helpers of one another.
fn helpers_in(alloc: Global, case: &Case, constants: u32) -> Result<Option<Helpers>, AllocError> {
    match codes_in(alloc, case, constants)? {
        Some(codes) => joined(alloc, case, codes),
        None => Ok(None),
    }
}

/// The rows of the inputs, as the machine reads them.
fn lists_of<'a>(alloc: Global, inputs: &'a [Vec<Row>]) -> Result<Lists<'a>, NoMemory> {
    let mut feed = Lists::new(alloc);
    for rows in inputs {
        feed.push(rows.as_slice())?;
    }
    Ok(feed)
}

/// What the code leaves, or what does not fit it.
pub fn print_run(
    alloc: Global,
    out: &mut String,
    scene: &Scene,
    code: &Code,
    helpers: &Helpers,
) -> Result<(), AllocError> {
    let Ok(mut feed) = lists_of(alloc, scene.inputs.as_slice()) else {
        return Err(AllocError);
    };
    let memory = &scene.memory;
    let constants = &scene.constants;
    if !helpers.fits(code) {
        return writeln!(out, "helpers do not fit");
    }
    if !fits_entry(code, memory, &feed, constants) {
        return writeln!(out, "rows do not fit");
    }
    match run(
        alloc,
        code,
        helpers,
        memory,
        &mut feed,
        constants,
        scene.iteration,
        scene.fuel,
    ) {
        Ok(outcome) => print_outcome(out, &outcome),
        Err(_) => Err(AllocError),
    }
}

/// What this code leaves, with the helpers of the case.
fn answer_code(
    alloc: Global,
    case: &Case,
    scene: &Scene,
    code: &Code,
    constants: u32,
) -> Result<String, AllocError> {
    let mut out = String::new(alloc);
    match helpers_in(alloc, case, constants)? {
        Some(helpers) => print_run(alloc, &mut out, scene, code, &helpers)?,
        None => out.push_str("no valid helpers\n")?,
    }
    Ok(out)
}

/// What the code of the case leaves in this scene.
fn answer_scene(alloc: Global, case: &Case, scene: &Scene) -> Result<String, AllocError> {
    let widths = seen(alloc, case, scene)?;
    let constants = widths.constants;
    match code_in(alloc, case.text("code"), widths)? {
        Some(code) => answer_code(alloc, case, scene, &code, constants),
        None => String::from_str(alloc, "no valid code\n"),
    }
}

/// The answer to a case of the kind `machine`: what the run of a code gives.
pub fn answer_machine(alloc: Global, case: &Case) -> Result<String, AllocError> {
    let scene = scene_in(alloc, case)?;
    answer_scene(alloc, case, &scene)
}
