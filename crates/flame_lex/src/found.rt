//! What is found at a place.

use crate::define::Define;
use crate::token::Kind;

/// What a piece is to the tokens.
#[derive(Drop)]
pub(crate) enum Found {
    /// A blank, a comment or an include line.
    Gap,
    /// A define line.
    Defined(Define),
    /// A lexeme.
    Lexeme(Kind),
}

/// A piece: what is found, and how many bytes it takes.
#[derive(Drop)]
pub(crate) struct Piece {
    pub found: Found,
    pub length: usize,
}
