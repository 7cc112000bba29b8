//! The lexer.

ghost use Rattle.std.specs.Prelude.{◌≡◌, ◌<◌, ◌≤◌, ◌++◌, ℕ, List, length, IfOk, IfErr, OnOk};
ghost use Rattle.flame_lex.specs.Lexing.{Before, token_at, known_after, Lexes, FailsBy};
ghost use Rattle.flame_lex.specs.LexSteps.{IsPlace, IsPiece, FailsAt, here_at, known_in};

use crate::define_table::DefineTable;
use crate::directive::directive;
use crate::fault::LexFault;
use crate::found::{Found, Piece};
use crate::gap::gap;
use crate::lexeme::{Lexeme, lexeme_at};
use crate::place::Place;
use crate::tables::Tables;
use crate::token::Token;
use flame_rows::{Fail, NoMemory, Seq};
use std::alloc::Global;

/// The tokens of a text of at most 4,194,304 bytes, in order.
///
/// The text is cut from the left into blanks, comments, include lines, define lines and lexemes, each the longest at
/// its place; the tokens are the lexemes, where a word that an earlier define line names is the number of that line. A
/// fault comes exactly where no cut covers the text, at the first place where the cut cannot go on. `NoMemory` is want
/// of memory. Each byte is looked at a bounded number of times.
pub fn lex(alloc: Global, bytes: &[u8]) -> Result<Seq<Token>, Fail<LexFault>>
    requires { length bytes.now ≤ 4194304 }
    ensures tokens { IfOk result (λ tokens. Lexes bytes.now tokens) }
    ensures few { IfOk result (λ tokens. length tokens ≤ length bytes.now) }
    ensures fault { IfErr result (λ fail. FailsBy bytes.now fail) }
{
    let tables = Tables::new();
    let mut defines = DefineTable::new(alloc);
    let mut tokens = Vec::new(alloc);
    let mut place = Place::first();
    let mut rest = bytes;
    while !rest.is_empty() {
        let Piece { found, length } = piece_at(alloc, &tables, &defines, rest, place)?;
        put(alloc, &mut tokens, &mut defines, found, place)?;
        place = place.past(&rest[..length]);
        rest = &rest[length..];
    }
    Ok(Seq::of(tokens))
}

/// The piece at the front of the bytes that stand at this place.
fn piece_at(
    alloc: Global,
    tables: &Tables,
    defines: &DefineTable,
    bytes: &[u8],
    place: Place,
) -> Result<Piece, Fail<LexFault>>
    requires { 0 < length bytes.now }
    ensures piece { IfOk result (λ p. IsPiece (here_at place.line_begins defines.now) bytes.now p.found p.length) }
    ensures fault { IfErr result (λ fail. FailsAt (here_at place.line_begins defines.now) place.at bytes.now fail) }
{
    if bytes[0] == b'#' {
        if place.line_begins {
            return directive(alloc, tables, defines, bytes, place.at);
        }
        return Err(Fail::Fault(LexFault::BadByte(place.at)));
    }
    match gap(bytes, place.at) {
        Err(fault) => Err(Fail::Fault(fault)),
        Ok(Some(length)) => Ok(Piece {
            found: Found::Gap,
            length,
        }),
        Ok(None) => {
            let Lexeme { kind, length } = lexeme_at(alloc, tables, bytes, place.at)?;
            Ok(Piece {
                found: Found::Lexeme(kind),
                length,
            })
        }
    }
}

/// Adds what was found at this place to the tokens or to the numbers of words.
fn put(
    alloc: Global,
    tokens: &mut Vec<Token>,
    defines: &mut DefineTable,
    found: Found,
    place: Place,
) -> Result<(), NoMemory>
    ensures tokens { OnOk result (
        (before : Before)
        → IsPlace before.bytes place
        → known_in defines.old ≡ before.known
        → tokens.new.items ≡ tokens.old.items ++ token_at before found) }
    ensures defines { OnOk result (
        (word : List ℕ)
        → known_in defines.new word ≡ known_after found (known_in defines.old) word) }
{
    match found {
        Found::Gap => {}
        Found::Defined(define) => defines.add(alloc, define)?,
        Found::Lexeme(kind) => tokens.push(Token {
            kind: defines.meant(kind),
            at: place.at,
            line: place.line,
        })?,
    }
    Ok(())
}
