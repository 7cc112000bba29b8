//! Outcomes by code: what the machine leaves of a program's function, over views of boards.

use flame_case_codes::{Scene, print_run};
use flame_code::{Code, Helpers};
use flame_index::Frozen;
use flame_lookup::Tables;
use flame_program::Program;
use flame_rows::{Bag, NoMemory, Row, Seq, number};
use flame_spec::{Input, Model};
use flame_view::View;
use std::alloc::{AllocError, Global};

/// The boards, which no message joins any more.
fn frozen(alloc: Global, boards: &Seq<Bag>) -> Result<Vec<Frozen>, NoMemory> {
    let mut all = Vec::new(alloc);
    for board in boards.items() {
        all.push(Frozen::of(board.copy()?))?;
    }
    Ok(all)
}

/// The board of the message of this name.
fn board_of<'a>(model: &Model, boards: &'a [Frozen], name: &str) -> Option<&'a Frozen> {
    for (message, board) in model.messages.items().iter().zip(boards.iter()) {
        if message.name.as_str() == name {
            return Some(board);
        }
    }
    None
}

/// The rows of the view, in order.
fn rows_of(alloc: Global, view: &View<'_>) -> Result<Vec<Row>, NoMemory> {
    let mut rows = Vec::new(alloc);
    for place in 0..view.len() {
        rows.push(view.row(place).copy()?)?;
    }
    Ok(rows)
}

/// The rows that the input of this number of the function reads, in order.
fn read_rows(
    alloc: Global,
    program: &Program,
    function: u32,
    input: u32,
    board: &Frozen,
    memory: &Row,
) -> Result<Vec<Row>, NoMemory> {
    let filter = program.filter(function, input);
    let sort = program.sort(function, input);
    let view = View::new(alloc, board, filter, sort, memory)?;
    rows_of(alloc, &view)
}

/// The rows that the input of this number and this form reads, in order; none where no board is that of its message.
fn rows_of_input(
    alloc: Global,
    program: &Program,
    function: u32,
    input: u32,
    form: &Input,
    boards: &[Frozen],
    memory: &Row,
) -> Result<Vec<Row>, NoMemory> {
    match board_of(&program.source().model, boards, form.message.as_str()) {
        Some(board) => read_rows(alloc, program, function, input, board, memory),
        None => Ok(Vec::new(alloc)),
    }
}

/// The rows that each of these inputs of the function reads.
fn rows_of_inputs(
    alloc: Global,
    program: &Program,
    function: u32,
    inputs: &[Input],
    boards: &[Frozen],
    memory: &Row,
) -> Result<Vec<Vec<Row>>, NoMemory> {
    let mut all = Vec::new(alloc);
    for (i, form) in inputs.iter().enumerate() {
        let rows = rows_of_input(alloc, program, function, number(i)?, form, boards, memory)?;
        all.push(rows)?;
    }
    Ok(all)
}

/// The rows that each input of the function of this number reads; none where there is no such function.
fn rows_read(
    alloc: Global,
    program: &Program,
    function: u32,
    boards: &Seq<Bag>,
    memory: &Row,
) -> Result<Vec<Vec<Row>>, NoMemory> {
    let source = program.source();
    let tables = Tables::of(alloc, &source.model, &source.units)?;
    let boards = frozen(alloc, boards)?;
    match tables.transitions().get(function as usize) {
        Some(place) => rows_of_inputs(
            alloc,
            program,
            function,
            place.function.inputs.items(),
            boards.as_slice(),
            memory,
        ),
        None => Ok(Vec::new(alloc)),
    }
}

/// The code of the function of this number, where there is one.
fn code_of(program: &Program, function: u32) -> Option<&Code> {
    if (function as usize) < program.functions() {
        Some(program.code(function))
    } else {
        None
    }
}

/// The same scene with these rows of the inputs.
fn with_inputs(scene: Scene, inputs: Vec<Vec<Row>>) -> Scene {
    Scene { inputs, ..scene }
}

/// What the run of this code in this scene leaves, or what does not fit it.
fn run_of(
    alloc: Global,
    code: &Code,
    helpers: &Helpers,
    scene: &Scene,
) -> Result<String, NoMemory> {
    let mut out = String::new(alloc);
    print_run(alloc, &mut out, scene, code, helpers)?;
    Ok(out)
}

/// What the code of the function of this number leaves in this scene, whose inputs read the boards: the outcome, or what
/// does not fit it.
pub(crate) fn by_code(
    alloc: Global,
    program: &Program,
    function: u32,
    scene: Scene,
    boards: &Seq<Bag>,
) -> Result<String, NoMemory> {
    let inputs = rows_read(alloc, program, function, boards, &scene.memory)?;
    let scene = with_inputs(scene, inputs);
    match code_of(program, function) {
        Some(code) => run_of(alloc, code, program.helpers(), &scene),
        None => Ok(String::from_str(alloc, "no such function\n")?),
    }
}
