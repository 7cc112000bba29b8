//! The reader of one expression.

ghost use Rattle.std.specs.Prelude.{◌≡◌, ◌≤◌, ◌<◌, ◌^◌, length, IfOk, IfErr};
ghost use Rattle.flame_spec.specs.Seen as seen;
ghost use Rattle.flame_expr.specs.ReadParts.{Fails};
ghost use Rattle.flame_expr.specs.Expressed.{IsExpressionAt, IsNoExpressionAt};
ghost use Rattle.flame_expr.specs.Nesting.{NestsWithin};

use crate::faults::ParseFault;
use crate::reader::expression;
use flame_lex::Token;
use flame_rows::Fail;
use flame_spec::Expr;
use std::alloc::Global;

/// The expression at this place of tokens that nest at most 64 deep (see `nests`) and of which there are fewer than
/// 2^32 (see `is_counted`): its tree and the place behind it.
///
/// The longest run of tokens from `at` that is a prefix of an expression counts; it may be empty. Where it is an
/// expression its tree is given, else `Syntax` with the number of the token behind it, which is the number of tokens
/// at their end. `TooDeep` never comes. `NoMemory` is want of memory. Each token is looked at a bounded number of
/// times, and the stack grows with the brackets that are open at once, not with the length of chains.
pub fn parse_expr(
    alloc: Global,
    tokens: &[Token],
    at: usize,
) -> Result<(Expr, usize), Fail<ParseFault>>
    requires size { length tokens.now < 2 ^ 32 }
    requires within { at ≤ length tokens.now }
    requires nests { NestsWithin 64 tokens.now }
    ensures tree { IfOk result (λ r. IsExpressionAt tokens.now at (seen.expression r.0) r.1) }
    ensures syntax { IfErr result (λ fail. Fails fail (IsNoExpressionAt tokens.now at)) }
{
    let (tree, end) = expression(alloc, tokens, at)?;
    Ok((tree, end))
}
