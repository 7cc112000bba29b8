//! One lexeme.

ghost use Rattle.std.specs.Prelude.{◌≡◌, ◌<◌, false, length, IfOk, IfErr};
ghost use Rattle.flame_lex.specs.ByteRuns.{is_hash, first_is};
ghost use Rattle.flame_lex.specs.LexPieces.{Here};
ghost use Rattle.flame_lex.specs.LexSteps.{BeginsNoGap, IsToken, FailsAt};

use crate::bytes::is_first_of_word;
use crate::fault::LexFault;
use crate::number::number;
use crate::scan::word_length;
use crate::tables::Tables;
use crate::token::Kind;
use crate::word::word_kind;
use flame_rows::Fail;
use std::alloc::Global;

/// A lexeme and how many bytes it takes.
#[derive(Drop)]
pub(crate) struct Lexeme {
    pub kind: Kind,
    pub length: usize,
}

/// The lexeme at the front of the bytes, which stand at this offset, where no blank and no comment begins, and no `#`.
pub(crate) fn lexeme_at(
    alloc: Global,
    tables: &Tables,
    bytes: &[u8],
    at: u32,
) -> Result<Lexeme, Fail<LexFault>>
    requires more { 0 < length bytes.now }
    requires no_gap { BeginsNoGap bytes.now }
    requires no_hash { first_is is_hash bytes.now ≡ false }
    ensures lexeme { IfOk result (λ l. IsToken l.kind bytes.now l.length) }
    ensures fault { IfErr result (λ fail. (here : Here) → FailsAt here at bytes.now fail) }
{
    if is_first_of_word(bytes[0]) {
        let length = word_length(bytes);
        let kind = word_kind(alloc, &tables.keywords, &bytes[..length])?;
        Ok(Lexeme { kind, length })
    } else if bytes[0].is_ascii_digit() {
        let length = word_length(bytes);
        match number(&bytes[..length], at) {
            Ok(value) => Ok(Lexeme {
                kind: Kind::Number(value),
                length,
            }),
            Err(fault) => Err(Fail::Fault(fault)),
        }
    } else {
        tables.mark(bytes).ok_or(Fail::Fault(LexFault::BadByte(at)))
    }
}
