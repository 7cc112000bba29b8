//! The reader of function files, with the limit of nesting.

ghost use Rattle.std.specs.Prelude.{◌<◌, ◌^◌, length, map, IfOk, IfErr};
ghost use Rattle.flame_parse.specs.Parsing.{defined, IsFile, FailsBy};

use crate::unit::definitions;
use flame_expr::{ParseFault, first_too_deep, syntax};
use flame_lex::Token;
use flame_rows::{Fail, Seq};
use flame_spec::Unit;
use std::alloc::Global;

/// The function definitions of a file's tokens, of which there are fewer than 2^32 (see `flame_expr::is_counted`).
///
/// `TooDeep` comes exactly where the brackets, braces and message loops that open exceed those that close by more than
/// 64, with the number of the first token at which they do, and before any `Syntax`. Else `Syntax` comes exactly where
/// the tokens are no function file, with the greatest number of tokens that may begin one, which is the number of the
/// token behind them. `NoMemory` is want of memory. Each token is looked at a bounded number of times, and the stack
/// grows with the nesting alone.
pub fn parse(alloc: Global, tokens: &[Token]) -> Result<Unit, Fail<ParseFault>>
    requires { length tokens.now < 2 ^ 32 }
    ensures file { IfOk result (λ unit. IsFile tokens.now (map defined unit.functions)) }
    ensures fault { IfErr result (FailsBy tokens.now) }
{
    if let Some(token) = first_too_deep(tokens) {
        return Err(Fail::Fault(ParseFault::TooDeep(token)));
    }
    let (found, end) = definitions(alloc, tokens, 0)?;
    if end < tokens.len() {
        return Err(syntax(end));
    }
    let functions = Seq::of(found);
    Ok(Unit { functions })
}
