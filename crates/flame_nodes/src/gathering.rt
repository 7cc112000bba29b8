//! Shares gathered from what arrived.

ghost use Rattle.std.specs.Prelude.{◌≡◌, ◌↔◌, IfOk, IfSome, IsTrue, MatchOption, map};
ghost use Rattle.std.specs.List.{All};
ghost use Rattle.flame_index.specs.FrozenBoards.{shared_messages};
ghost use Rattle.flame_share.specs.PieceFits.{FitsPiece};
ghost use Rattle.flame_world.specs.Shares.{piece_of, setting_of};
ghost use Rattle.flame_nodes.specs.GatheredShares.{DifferInNumber, IsFirstThatFits, IsSetting, IsShareOf};
ghost use Rattle.flame_nodes.specs.NodeWork.{CanRun, FindsFirst, IsFirstPlace, IsOf, IsUnder, KeepsOthers};

use crate::terms::{Terms, run_under, setting_under};
use flame_index::Frozen;
use flame_program::Program;
use flame_rows::{NoMemory, Row, Same, Seq};
use flame_world::{Piece, Share};
use std::alloc::Global;
use std::sync::Arc;

/// Whether both are one and the same piece.
fn same_piece(one: &Piece, two: &Piece) -> bool
    ensures { IsTrue result ↔ (one.now ≡ two.now) }
{
    one.number == two.number && one.function == two.function && one.agents.same(&two.agents)
}

/// Whether the share is that of the piece under these terms.
fn is_of(share: &Share<'_>, terms: Terms<'_>, piece: &Piece) -> bool
    ensures { IsTrue result ↔ IsOf terms.entry piece.now share.now }
{
    same_piece(share.piece(), piece) && share.setting().same(&setting_under(terms))
}

/// The place of the first of these shares that is that of the piece under these terms.
fn place_of(arrived: &[Share<'_>], terms: Terms<'_>, piece: &Piece) -> Option<usize>
    ensures { MatchOption result
        (All (λ share. IsOf terms.entry piece.now share → ⊥) arrived.now)
        (IsFirstPlace (IsOf terms.entry piece.now) arrived.now) }
{
    for place in 0..arrived.len() {
        if is_of(&arrived[place], terms, piece) {
            return Some(place);
        }
    }
    None
}

/// Takes the first of these shares that is that of the piece under these terms.
fn take<'a>(arrived: &mut Vec<Share<'a>>, terms: Terms<'_>, piece: &Piece) -> Option<Share<'a>>
    ensures own { IfSome result (λ share. IsOf terms.entry piece.now share) }
    ensures first { FindsFirst (IsOf terms.entry piece.now) arrived.old.items result }
    ensures others { KeepsOthers (IsOf terms.entry) piece.now arrived.old.items arrived.new.items }
{
    match place_of(arrived.as_slice(), terms, piece) {
        Some(place) => Some(arrived.remove(place)),
        None => None,
    }
}

/// The share of a piece: the first that arrived, or else the piece is run here.
fn share_of<'a>(
    alloc: Global,
    terms: Terms<'a>,
    arrived: &mut Vec<Share<'a>>,
    piece: Piece,
) -> Result<Share<'a>, NoMemory>
    requires { CanRun terms piece }
    ensures piece { IfOk result (λ share. piece_of share ≡ piece) }
    ensures setting { IfOk result (λ share. IsUnder terms.entry (setting_of share)) }
    ensures first { IfOk result (IsFirstThatFits (IsOf terms.entry piece) arrived.old.items) }
    ensures others { KeepsOthers (IsOf terms.entry) piece arrived.old.items arrived.new.items }
{
    match take(arrived, terms, &piece) {
        Some(share) => Ok(share),
        None => run_under(alloc, terms, piece),
    }
}

/// The shares of these pieces, in their order.
fn share_all<'a>(
    alloc: Global,
    terms: Terms<'a>,
    arrived: Vec<Share<'a>>,
    pieces: Vec<Piece>,
) -> Result<Vec<Share<'a>>, NoMemory>
    requires { All (CanRun terms) pieces.items }
    ensures pieces { IfOk result (λ shares. map piece_of shares.items ≡ pieces.items) }
    ensures settings { IfOk result (λ shares. All (λ share. IsUnder terms.entry (setting_of share)) shares.items) }
    ensures first { IfOk result (λ shares. DifferInNumber pieces.items
        → All (λ share. IsFirstThatFits (IsOf terms.entry (piece_of share)) arrived.entry.items share) shares.items) }
{
    let mut left = arrived;
    let mut shares = Vec::new(alloc);
    for piece in pieces {
        shares.push(share_of(alloc, terms, &mut left, piece)?)?;
    }
    Ok(shares)
}

/// The share of each of these pieces of a function of the program, in their order, under one setting: that with these
/// constants, these boards of the function's inputs in their order, this iteration and this fuel. Of the shares that arrived
/// the first of each piece is kept, with the same number, function and agents, whose setting is that one
/// (`Setting::same`); all others are dropped, further shares of a piece and shares of other pieces, functions, iterations or
/// boards alike. Where two pieces are one and the same, the second share of it is that of the second. A piece whose share is
/// not among them is run here. There is a board for each input, and memories, constants
/// and messages are as wide as the model declares. It takes pieces times shares looks at numbers at most. NoMemory where
/// memory is not found, and where 32 bits cannot number the function's inputs.
pub fn gather<'a>(
    alloc: Global,
    program: &'a Program,
    pieces: Seq<Piece>,
    arrived: Seq<Share<'a>>,
    constants: &'a Row,
    boards: &'a Seq<Arc<Frozen>>,
    iteration: i32,
    fuel: u32,
) -> Result<Seq<Share<'a>>, NoMemory>
    requires { All (FitsPiece program.now.model constants.now (map shared_messages boards.now)) pieces }
    ensures pieces { IfOk result (λ shares. map piece_of shares ≡ pieces) }
    ensures settings { IfOk result (λ shares.
        All (λ share. IsSetting program.now constants.now (map shared_messages boards.now) iteration fuel (setting_of share))
        shares) }
    ensures first { IfOk result (λ shares. DifferInNumber pieces
        → All (λ share. IsFirstThatFits
        (IsShareOf program.now constants.now (map shared_messages boards.now) iteration fuel (piece_of share))
        arrived.entry share) shares) }
{
    let terms = Terms {
        program,
        constants,
        boards,
        iteration,
        fuel,
    };
    let shares = share_all(alloc, terms, arrived.into_items(), pieces.into_items())?;
    Ok(Seq::of(shares))
}
