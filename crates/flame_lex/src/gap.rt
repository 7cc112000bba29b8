//! Blanks and comments.

ghost use Rattle.std.specs.Prelude.{◌≡◌, ◌<◌, length, IfOk, IfErr, MatchOption};
ghost use Rattle.flame_lex.specs.declared.found.Found.TheVariants.{Gap};
ghost use Rattle.flame_lex.specs.LexPieces.{Here};
ghost use Rattle.flame_lex.specs.LexFaults.{IsFault};
ghost use Rattle.flame_lex.specs.LexSteps.{IsPiece, BeginsNoGap};

use crate::bytes::is_blank_byte;
use crate::fault::LexFault;
use crate::scan::{behind_close, line_length};

/// How many bytes the blank or the comment at the front takes, none where none begins. The bytes stand at this offset.
pub(crate) fn gap(bytes: &[u8], at: u32) -> Result<Option<usize>, LexFault>
    requires { 0 < length bytes.now }
    ensures gap { IfOk result (λ gap.
        MatchOption gap (BeginsNoGap bytes.now) (λ count. (here : Here) → IsPiece here bytes.now Gap count)) }
    ensures fault { IfErr result (λ fault. (here : Here) → IsFault here at bytes.now fault) }
{
    match bytes {
        [b'/', b'*', inside @ ..] => match behind_close(inside) {
            Some(rest) => Ok(Some(bytes.len() - rest.len())),
            None => Err(LexFault::OpenComment(at)),
        },
        [b'/', b'/', ..] => Ok(Some(line_length(bytes))),
        [b, ..] if is_blank_byte(*b) => Ok(Some(1)),
        _ => Ok(None),
    }
}
