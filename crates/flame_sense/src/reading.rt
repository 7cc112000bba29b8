//! What a function reads: the views of its inputs, with the memory at its entry.

ghost use Rattle.std.specs.Prelude.{◌≡◌, IfOk, [], map, slice_index_or};
ghost use Rattle.std.specs.List.{filter};
ghost use Rattle.flame_spec.specs.Views.{is_read, view_of};
ghost use Rattle.flame_meaning.specs.Outcomes.{reading_of};
ghost use Rattle.flame_sense.specs.StandsFor.{rows_seen};

use crate::filter::{reads, sorted};
use crate::scene::message_where;
use crate::words::Form;
use flame_rows::{Bag, NoMemory, Row};
use flame_spec::{AgentType, Input, MessageType, Model};
use std::alloc::Global;

/// The rows that an agent with this memory reads, as they lie on the board.
fn passing<'a>(
    alloc: Global,
    input: &Input,
    agent: &AgentType,
    message: &MessageType,
    memory: &[i32],
    board: &'a [Row],
) -> Result<Vec<&'a Row>, NoMemory>
    ensures { IfOk result (λ rows.
        rows_seen rows.items ≡ filter (is_read agent.now message.now input.now.filter memory.now) board.now) }
{
    let mut rows: Vec<&'a Row> = Vec::new(alloc);
    for row in board {
        if reads(&input.filter, agent, message, memory, row.values()) {
            rows.push(row)?;
        }
    }
    Ok(rows)
}

/// The view of a board under an input's filter and sort.
fn view<'a>(
    alloc: Global,
    input: &Input,
    agent: &AgentType,
    message: &MessageType,
    memory: &[i32],
    board: &'a [Row],
) -> Result<Vec<&'a Row>, NoMemory>
    ensures { IfOk result (λ rows. rows_seen rows.items
        ≡ view_of agent.now message.now input.now.filter input.now.sort memory.now board.now) }
{
    let rows = passing(alloc, input, agent, message, memory, board)?;
    let rows = sorted(rows, &input.sort, message)?;
    Ok(rows)
}

/// The rows of the board of this number; none where there is no such board.
fn board(boards: &[Bag], number: usize) -> &[Row]
    ensures { result.now ≡ slice_index_or boards.now number [] }
{
    match boards.get(number) {
        Some(board) => board.rows(),
        None => &[],
    }
}

/// What the function reads by an input; nothing where no message has its name.
fn reading<'a>(
    alloc: Global,
    input: &Input,
    model: &Model,
    agent: &AgentType,
    memory: &[i32],
    boards: &'a [Bag],
) -> Result<Vec<&'a Row>, NoMemory>
    ensures { IfOk result (λ rows.
        rows_seen rows.items ≡ reading_of model.now agent.now memory.now boards.now input.now) }
{
    match message_where(Form::Same, input.message.as_str(), model.messages.items()) {
        None => Ok(Vec::new(alloc)),
        Some((number, message)) => {
            let rows = view(alloc, input, agent, message, memory, board(boards, number))?;
            Ok(rows)
        }
    }
}

/// What the function reads by each input, in the order of the inputs.
pub(crate) fn readings<'a>(
    alloc: Global,
    inputs: &[Input],
    model: &Model,
    agent: &AgentType,
    memory: &[i32],
    boards: &'a [Bag],
) -> Result<Vec<Vec<&'a Row>>, NoMemory>
    ensures { IfOk result (λ readings. map (λ rows. rows_seen rows.items) readings.items
        ≡ map (reading_of model.now agent.now memory.now boards.now) inputs.now) }
{
    let mut readings = Vec::new(alloc);
    for input in inputs {
        let rows = reading(alloc, input, model, agent, memory, boards)?;
        readings.push(rows)?;
    }
    Ok(readings)
}
