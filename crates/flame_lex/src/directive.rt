//! Include lines and define lines.

ghost use Rattle.std.specs.Prelude.{◌≡◌, ◌≤◌, true, length, IfOk, IfErr, MatchOption};
ghost use Rattle.flame_lex.specs.declared.define.Define.{Define};
ghost use Rattle.flame_lex.specs.ByteRuns.{is_hash, first_is};
ghost use Rattle.flame_lex.specs.DefineLines.{Defines};
ghost use Rattle.flame_lex.specs.LexSteps.{IsPiece, FailsAt, here_at, known_in};

use crate::define::{Define, Definition, read_definition};
use crate::define_table::DefineTable;
use crate::fault::LexFault;
use crate::found::{Found, Piece};
use crate::scan::{line_length, word_length};
use crate::tables::Tables;
use crate::token::Kind;
use crate::word::word_kind;
use flame_rows::{Fail, NoMemory};
use std::alloc::Global;

/// The bytes of `#define`.
const OPENING: usize = 7;

/// The include line or the define line that begins with the `#` at the front of its line, whose offset is `at`.
pub(crate) fn directive(
    alloc: Global,
    tables: &Tables,
    defines: &DefineTable,
    bytes: &[u8],
    at: u32,
) -> Result<Piece, Fail<LexFault>>
    requires { first_is is_hash bytes.now ≡ true }
    ensures piece { IfOk result (λ p. IsPiece (here_at true defines.now) bytes.now p.found p.length) }
    ensures fault { IfErr result (λ fail. FailsAt (here_at true defines.now) at bytes.now fail) }
{
    let behind = &bytes[1..];
    let length = line_length(bytes);
    match tables.directives.number_of(&behind[..word_length(behind)]) {
        None => Err(Fail::Fault(LexFault::Directive(at))),
        Some(0) => Ok(Piece {
            found: Found::Gap,
            length,
        }),
        Some(_) => match define_line(alloc, tables, defines, &bytes[..length])? {
            Some(define) => Ok(Piece {
                found: Found::Defined(define),
                length,
            }),
            None => Err(Fail::Fault(LexFault::BadDefine(at))),
        },
    }
}

/// What the line says, which begins with `#define`; none where it gives no word a number.
fn define_line(
    alloc: Global,
    tables: &Tables,
    defines: &DefineTable,
    line: &[u8],
) -> Result<Option<Define>, NoMemory>
    requires { 7 ≤ length line.now }
    ensures { IfOk result (λ found. MatchOption found
        ((said : Define) → ¬ Defines (known_in defines.now) line.now said)
        (Defines (known_in defines.now) line.now)) }
{
    let Some(Definition { name, value }) = read_definition(&line[OPENING..]) else {
        return Ok(None);
    };
    let Kind::Word(name) = word_kind(alloc, &tables.keywords, name)? else {
        return Ok(None);
    };
    match defines.number(&name) {
        Some(_) => Ok(None),
        None => Ok(Some(Define { name, value })),
    }
}
