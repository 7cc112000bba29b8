//! The pieces of nodes.

ghost use Rattle.std.specs.Prelude.{◌≡◌, ◌≤◌, IfOk};
ghost use Rattle.flame_rows.specs.Bags.{ascending};
ghost use Rattle.flame_nodes.specs.NodePieces.{node_pieces};
ghost use Rattle.flame_nodes.specs.Partings.{parted};

use crate::partings::{Parting, part};
use flame_rows::{Bag, NoMemory, Row, Seq, number};
use flame_world::Piece;
use std::alloc::Global;

/// The bags in which there are agents as the pieces of the function, that of node k as piece k.
fn filled(alloc: Global, function: u32, bags: Vec<Bag>) -> Result<Vec<Piece>, NoMemory>
    ensures { IfOk result (λ pieces. pieces.items ≡ node_pieces function bags.items) }
{
    let mut pieces = Vec::new(alloc);
    for (node, agents) in bags.into_iter().enumerate() {
        if !agents.rows().is_empty() {
            let number = number(node)?;
            pieces.push(Piece {
                function,
                number,
                agents,
            })?;
        }
    }
    Ok(pieces)
}

/// The pieces of the function that these agents take, one for each node to which some of them go.
pub(crate) fn pieces_of(
    alloc: Global,
    function: u32,
    takers: Vec<Row>,
    parting: Parting,
    nodes: u32,
) -> Result<Seq<Piece>, NoMemory>
    requires { 1 ≤ nodes }
    ensures { IfOk result (λ pieces. pieces ≡ node_pieces function (parted parting nodes (ascending takers.items))) }
{
    let bags = part(alloc, Bag::gathered(takers), parting, nodes)?;
    let pieces = filled(alloc, function, bags.into_items())?;
    Ok(Seq::of(pieces))
}
