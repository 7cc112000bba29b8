//! The messages of a piece, in a part for each output of its function.

ghost use Rattle.std.specs.Prelude.{◌≡◌, ◌<◌, IfOk, Some, map, slice_get};
ghost use Rattle.std.specs.List.{zip};
ghost use Rattle.flame_spec.specs.Before.{function_count};
ghost use Rattle.flame_spec.specs.Below.{HasNoTwice};
ghost use Rattle.flame_spec.specs.Functions.{Place, functions};
ghost use Rattle.flame_meaning.specs.Outcomes.{place_of, outputs_at};
ghost use Rattle.flame_route.specs.ModelRoutes.{IsRouteOf};
ghost use Rattle.flame_world.specs.Meaning.{part_for};
ghost use Rattle.flame_share.specs.PieceFits.{IsThere};
ghost use Rattle.flame_share.specs.PieceParts.{part_with};

use flame_pieces::parted;
use flame_program::Program;
use flame_route::Route;
use flame_rows::{Bag, NoMemory, Row};
use flame_spec::Sent;
use flame_world::{Part, Piece};
use std::alloc::Global;

/// The route of the function of this number.
fn route_of<'a>(program: &'a Program, function: u32) -> &'a Route
    requires { function < function_count program.now.model }
    ensures { (place : Place) → slice_get (functions program.now.model) function ≡ Some place
        → IsRouteOf program.now.model place result.now }
{
    &program.routes().routes.items()[function as usize]
}

/// The messages that the function outputs, by number. None of them stands twice.
fn outputs_of<'a>(program: &'a Program, function: u32) -> &'a [u32]
    requires { IsThere program.now.model function }
    ensures outputs { result.now ≡ outputs_at (place_of program.now function) program.now.model }
    ensures once { HasNoTwice result.now }
{
    let _accepted = program.source();
    let route = route_of(program, function);
    route.outputs.items()
}

/// The part of the piece that has these messages.
fn part_of(piece: &Piece, message: u32, rows: Vec<Row>) -> Result<Part, NoMemory>
    ensures { IfOk result (λ part. part ≡ part_with piece.now message rows.items) }
{
    Ok(Part {
        function: piece.function,
        number: piece.number,
        message,
        rows: Bag::of_rows(rows)?,
    })
}

/// The parts of the piece for these messages, of which each has its list.
fn parts_by(
    alloc: Global,
    piece: &Piece,
    messages: &[u32],
    lists: Vec<Vec<Row>>,
) -> Result<Vec<Part>, NoMemory>
    ensures { IfOk result (λ parts.
        parts.items ≡ map (λ (rows, message). part_with piece.now message rows.items) (zip lists.items messages.now)) }
{
    let mut parts = Vec::new(alloc);
    for (rows, message) in lists.into_iter().zip(messages) {
        parts.push(part_of(piece, *message, rows)?)?;
    }
    Ok(parts)
}

/// The parts of the piece of a function of the program, whose agents sent these messages: one for each output.
pub(crate) fn parts_of(
    alloc: Global,
    program: &Program,
    piece: &Piece,
    sent: Vec<Sent>,
) -> Result<Vec<Part>, NoMemory>
    requires { IsThere program.now.model piece.now.function }
    ensures { IfOk result (λ parts. parts.items ≡ map (part_for piece.now sent.items)
        (outputs_at (place_of program.now piece.now.function) program.now.model)) }
{
    let outputs = outputs_of(program, piece.function);
    let lists = parted(alloc, outputs, sent)?;
    let parts = parts_by(alloc, piece, outputs, lists)?;
    Ok(parts)
}
