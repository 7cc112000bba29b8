//! Cases of views: the sections `model`, `memory`, which has the numbers of a row, and `board`, which has a row a line.
//! For each input of each function, both from 0 in document order, the answer has its view of the board, as `view 0 1`
//! with the rows behind it; and where its view of the board with indexes by each of the first columns, in both
//! directions, is another, `by its indexes` and the rows of that.

use crate::deciding::{message_of, row_in};
use crate::readable::{is_narrow, is_readable_filter};
use flame_case_files::Case;
use flame_case_models::{Found, model_in};
use flame_cond::{Filter, SortBy};
use flame_index::Frozen;
use flame_rows::{Bag, NoMemory, Row, Same};
use flame_spec::{AgentType, Condition, Input, MessageType, Model};
use flame_view::View;
use std::alloc::{AllocError, Global};

/// What is viewed, and by whom.
#[derive(Drop)]
struct Scene {
    model: Model,
    memory: Row,
    board: Frozen,
    indexed: Frozen,
}

pub(crate) fn print_row(out: &mut String, row: &Row) -> Result<(), AllocError> {
    write!(out, "row")?;
    for number in row.values() {
        write!(out, " {number}")?;
    }
    writeln!(out)
}

fn print_view(out: &mut String, view: &View<'_>) -> Result<(), AllocError> {
    for place in 0..view.len() {
        print_row(out, view.row(place))?;
    }
    Ok(())
}

/// Whether both views have the same rows in the same order.
fn is_same(one: &View<'_>, two: &View<'_>) -> bool {
    for place in 0..one.len() {
        if place >= two.len() || !one.row(place).same(two.row(place)) {
            return false;
        }
    }
    one.len() == two.len()
}

/// The view of a board for the scene's agent.
fn view_of<'a>(
    alloc: Global,
    board: &'a Frozen,
    filter: Option<&Filter>,
    sort: Option<SortBy>,
    memory: &Row,
) -> Result<View<'a>, AllocError> {
    match View::new(alloc, board, filter, sort, memory) {
        Ok(view) => Ok(view),
        Err(_) => Err(AllocError),
    }
}

/// The view of the board, and that of the board with indexes where it is another.
fn print_both(
    alloc: Global,
    out: &mut String,
    scene: &Scene,
    filter: Option<&Filter>,
    sort: Option<SortBy>,
) -> Result<(), AllocError> {
    let view = view_of(alloc, &scene.board, filter, sort, &scene.memory)?;
    print_view(out, &view)?;
    let found = view_of(alloc, &scene.indexed, filter, sort, &scene.memory)?;
    if !is_same(&view, &found) {
        writeln!(out, "by its indexes")?;
        print_view(out, &found)?;
    }
    Ok(())
}

/// The filter of an input, where it can be read.
fn filter_of(
    alloc: Global,
    condition: &Condition,
    agent: &AgentType,
    message: &MessageType,
) -> Result<Option<Filter>, NoMemory> {
    if !is_readable_filter(condition, agent, message) {
        return Ok(None);
    }
    Ok(Some(Filter::of(alloc, condition, agent, message)?))
}

/// The view of an input of this message.
fn print_input(
    alloc: Global,
    out: &mut String,
    scene: &Scene,
    agent: &AgentType,
    input: &Input,
    message: &MessageType,
) -> Result<(), AllocError> {
    if !is_narrow(message.variables.items()) {
        return writeln!(out, "too large");
    }
    let sort = input.sort.as_ref().map(|sort| SortBy::of(sort, message));
    let filter = match &input.filter {
        None => None,
        Some(condition) => match filter_of(alloc, condition, agent, message) {
            Ok(Some(filter)) => Some(filter),
            Ok(None) => return writeln!(out, "cannot be read"),
            Err(_) => return Err(AllocError),
        },
    };
    print_both(alloc, out, scene, filter.as_ref(), sort)
}

fn print_all(alloc: Global, out: &mut String, scene: &Scene) -> Result<(), AllocError> {
    let mut number: u64 = 0;
    for agent in scene.model.agents.items() {
        for function in agent.functions.items() {
            for (place, input) in function.inputs.items().iter().enumerate() {
                if let Some(message) = message_of(&scene.model, input.message.as_str()) {
                    writeln!(out, "view {number} {place}")?;
                    print_input(alloc, out, scene, agent, input, message)?;
                }
            }
            number = number.saturating_add(1);
        }
    }
    Ok(())
}

/// How many columns a board is indexed by.
const INDEXED_COLUMNS: u32 = 4;

/// The same board with indexes by its first columns, in both directions.
fn indexed(alloc: Global, board: Frozen) -> Result<Frozen, NoMemory> {
    let mut board = board;
    for variable in 0..INDEXED_COLUMNS {
        let descending = SortBy {
            variable,
            descending: true,
        };
        board = board
            .with_index(alloc, variable)?
            .with_order(alloc, descending)?;
    }
    Ok(board)
}

/// The board of a section, with indexes.
fn indexed_board_in(alloc: Global, text: &str) -> Result<Frozen, AllocError> {
    match indexed(alloc, board_in(alloc, text)?) {
        Ok(board) => Ok(board),
        Err(_) => Err(AllocError),
    }
}

/// The board of a section.
pub(crate) fn board_in(alloc: Global, text: &str) -> Result<Frozen, AllocError> {
    let mut rows = Vec::new(alloc);
    for line in text.split('\n') {
        if !line.is_empty() {
            rows.push(row_in(alloc, line)?)?;
        }
    }
    match Bag::of_rows(rows) {
        Ok(bag) => Ok(Frozen::of(bag)),
        Err(_) => Err(AllocError),
    }
}

/// The answer to a case of the kind `view`: the rows of each input's view.
pub fn answer_views(alloc: Global, case: &Case) -> Result<String, AllocError> {
    let model = match model_in(alloc, case)? {
        Found::Told(told) => return Ok(told),
        Found::Model(model) => model,
    };
    let scene = Scene {
        model,
        memory: row_in(alloc, case.text("memory"))?,
        board: board_in(alloc, case.text("board"))?,
        indexed: indexed_board_in(alloc, case.text("board"))?,
    };
    let mut out = String::new(alloc);
    print_all(alloc, &mut out, &scene)?;
    Ok(out)
}
