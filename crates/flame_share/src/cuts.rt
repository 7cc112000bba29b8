//! The agents of a function in pieces.

ghost use Rattle.std.specs.Prelude.{◌≡◌, ◌≤◌, IfOk};
ghost use Rattle.flame_rows.specs.Cuts.{cut as cuts_of};
ghost use Rattle.flame_share.specs.NumberedPieces.{numbered_pieces};

use flame_rows::{Bag, NoMemory, Seq, number};
use flame_world::Piece;
use std::alloc::Global;

/// These bags as the pieces of the function, numbered in their order.
fn numbered(alloc: Global, bags: Vec<Bag>, function: u32) -> Result<Vec<Piece>, NoMemory>
    ensures { IfOk result (λ pieces. pieces.items ≡ numbered_pieces function bags.items) }
{
    let mut pieces = Vec::new(alloc);
    for agents in bags {
        let number = number(pieces.len())?;
        pieces.push(Piece {
            function,
            number,
            agents,
        })?;
    }
    Ok(pieces)
}

/// The agents that take the function, in at most so many pieces, which are at least one: runs in content order, all as long as
/// an equal share is, rounded up, but the last, which may be shorter. Where nobody takes it there is no piece. No agent is
/// copied. NoMemory where memory is not found.
pub fn cut(alloc: Global, takers: Bag, function: u32, pieces: u32) -> Result<Seq<Piece>, NoMemory>
    requires { 1 ≤ pieces }
    ensures { IfOk result (λ cut. cut ≡ numbered_pieces function (cuts_of pieces takers)) }
{
    let bags = takers.cut_into(pieces)?;
    Ok(Seq::of(numbered(alloc, bags.into_items(), function)?))
}
