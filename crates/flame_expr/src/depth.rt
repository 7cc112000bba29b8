//! How deep tokens nest, and whether their numbers fit.

ghost use Rattle.std.specs.Prelude.{◌≡◌, ◌+◌, ◌<◌, ◌≤◌, ◌^◌, ◌↔◌, length, if◌then◌else◌, IsTrue, IfSome, IfNone};
ghost use Rattle.flame_expr.specs.Nesting.{opens, closes, NestsWithin, IsTooDeep};

use crate::cursor::lexeme_at;
use crate::lexemes::Lexeme;
use flame_lex::Token;

/// Whether there are fewer than 2^32 tokens, as the readers want: each token's number fits a `u32`.
pub fn is_counted(tokens: &[Token]) -> bool
    ensures { IsTrue result ↔ (length tokens.now < 2 ^ 32) }
{
    tokens.len() < 4294967296
}

/// Whether the tokens nest at most 64 deep, as `parse_expr` wants: before none of them are more than 64 brackets,
/// braces and message loops open. Each token is looked at once.
pub fn nests(tokens: &[Token]) -> bool
    requires { length tokens.now < 2 ^ 32 }
    ensures { IsTrue result ↔ NestsWithin 64 tokens.now }
{
    first_too_deep(tokens).is_none()
}

/// The number of the first token with which more than 64 brackets, braces and message loops are open, None exactly
/// where there is no such token. Each token is looked at once.
pub fn first_too_deep(tokens: &[Token]) -> Option<u32>
    requires { length tokens.now < 2 ^ 32 }
    ensures deep { IfSome result (IsTooDeep 64 tokens.now) }
    ensures flat { IfNone result (NestsWithin 64 tokens.now) }
{
    let mut opened: usize = 0;
    let mut closed: usize = 0;
    for at in 0..tokens.len() {
        let lexeme = lexeme_at(tokens, at);
        opened += opening(lexeme);
        closed += closing(lexeme);
        if opened > closed + 64 {
            return Some(at as u32);
        }
    }
    None
}

/// One where the lexeme opens a bracket, a brace or a message loop.
// ORDER MARKS
fn opening(lexeme: Lexeme) -> usize
    ensures count { result ≡ (if opens lexeme then 1 else 0) }
    ensures bound { result ≤ 1 }
{
    match lexeme {
        Lexeme::Open | Lexeme::OpenBrace | Lexeme::OpenBracket | Lexeme::Start => 1,
        _ => 0,
    }
}

/// One where the lexeme closes a bracket, a brace or a message loop.
// ORDER MARKS
fn closing(lexeme: Lexeme) -> usize
    ensures count { result ≡ (if closes lexeme then 1 else 0) }
    ensures bound { result ≤ 1 }
{
    match lexeme {
        Lexeme::Close | Lexeme::CloseBrace | Lexeme::CloseBracket | Lexeme::Finish => 1,
        _ => 0,
    }
}
