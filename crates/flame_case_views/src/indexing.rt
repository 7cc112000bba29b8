//! Cases of indexes: the sections `board`, which has a row a line, and `given`, with lines `column 1`, `order ascend` or
//! `order descend`, and `equal [5, 6]`. The answer has the index, a message a line, as `5 at 0`, its number and its place
//! on the board; then for each number of `equal`, where the order ascends, the places of the index that have it, as
//! `equal 5 from 1 to 3`, and the rows there.

ghost use Rattle.std.specs.Prelude.{IfOk};
ghost use Rattle.flame_index.specs.Indexes.{StandsFor};

use crate::viewing::{board_in, print_row};
use flame_case_files::{Case, numbers_in};
use flame_cond::{SortBy, number_at};
use flame_index::{Frozen, Index};
use std::alloc::{AllocError, Global};

/// The index that is asked for, which stands for the board.
fn index_of(alloc: Global, case: &Case, board: &Frozen) -> Result<Index, AllocError>
    ensures { IfOk result (λ index. StandsFor index board.now) }
{
    let variable = case.given("column ").parse::<u32>().unwrap_or(0);
    let descending = SortBy {
        variable,
        descending: true,
    };
    let index = if case.given("order ") == "descend" {
        Index::by(alloc, board, descending)
    } else {
        Index::of(alloc, board, variable)
    };
    match index {
        Ok(index) => Ok(index),
        Err(_) => Err(AllocError),
    }
}

/// The rows of the board at these places of the index, which has the key's numbers in its order.
fn print_rows(
    out: &mut String,
    board: &Frozen,
    index: &Index,
    from: usize,
    to: usize,
) -> Result<(), AllocError> {
    let rows = board.bag().rows();
    for at in from..to {
        if let Some(place) = index.places().get(at) {
            if let Some(row) = rows.get(*place as usize) {
                print_row(out, row)?;
            }
        }
    }
    Ok(())
}

fn print_index(out: &mut String, board: &Frozen, index: &Index) -> Result<(), AllocError> {
    let column = index.key().variable;
    let rows = board.bag().rows();
    for place in index.places() {
        if let Some(row) = rows.get(*place as usize) {
            let value = number_at(row.values(), column);
            writeln!(out, "{value} at {place}")?;
        }
    }
    Ok(())
}

/// The places that have each number, where the order ascends.
fn print_equals(
    out: &mut String,
    board: &Frozen,
    index: &Index,
    values: &[i32],
) -> Result<(), AllocError>
    requires { StandsFor index.now board.now }
{
    if index.key().descending {
        return Ok(());
    }
    for value in values {
        let (from, to) = index.range(board, *value);
        writeln!(out, "equal {value} from {from} to {to}")?;
        print_rows(out, board, index, from, to)?;
    }
    Ok(())
}

/// The answer to a case of the kind `index`: the index, and what it finds.
pub fn answer_indexes(alloc: Global, case: &Case) -> Result<String, AllocError> {
    let board = board_in(alloc, case.text("board"))?;
    let index = index_of(alloc, case, &board)?;
    let values = numbers_in(alloc, case.given("equal "))?;
    let mut out = String::new(alloc);
    print_index(&mut out, &board, &index)?;
    print_equals(&mut out, &board, &index, &values)?;
    Ok(out)
}
