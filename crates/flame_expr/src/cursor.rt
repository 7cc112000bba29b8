//! Tokens at a place.

ghost use Rattle.std.specs.Prelude.{◌≡◌, ◌+◌, ◌≤◌, ◌<◌, ◌^◌, true, [], ◌∷◌, drop, length, IfOk, IfErr};
ghost use Rattle.flame_rows.specs.declared.fails.Fail.TheVariants.{Fault};
ghost use Rattle.flame_expr.specs.declared.faults.ParseFault.TheVariants.{Syntax};
ghost use Rattle.flame_expr.specs.Lexemes.{first, line, text, value, is_real};
ghost use Rattle.flame_expr.specs.ViablePrefixes.{lexeme};
ghost use Rattle.flame_expr.specs.ReadParts.{Ended, StopsBy};

use crate::faults::ParseFault;
use crate::lexemes::Lexeme;
use flame_lex::{Kind, Token};
use flame_rows::{Fail, NoMemory, Text};
use std::alloc::Global;

/// What the token at this place is to the grammar, `Nothing` behind the last.
pub fn lexeme_at(tokens: &[Token], at: usize) -> Lexeme
    ensures { result ≡ first (drop at tokens.now) }
{
    if at < tokens.len() {
        Lexeme::of(&tokens[at].kind)
    } else {
        Lexeme::Nothing
    }
}

/// The line of the token at this place, 0 behind the last.
pub fn line_at(tokens: &[Token], at: usize) -> u32
    ensures { result ≡ line (drop at tokens.now) }
{
    if at < tokens.len() {
        tokens[at].line
    } else {
        0
    }
}

/// The value of the number at this place, 0 where another token stands.
pub fn number_at(tokens: &[Token], at: usize) -> i32
    ensures { result ≡ value (drop at tokens.now) }
{
    if at < tokens.len() {
        match tokens[at].kind {
            Kind::Number(n) => n,
            _ => 0,
        }
    } else {
        0
    }
}

/// The text of the word at this place, or the name of the message loop there; empty where another token stands.
pub fn text_at(alloc: Global, tokens: &[Token], at: usize) -> Result<Text, NoMemory>
    ensures { IfOk result (λ word. word ≡ text (drop at tokens.now)) }
{
    if at < tokens.len() {
        match &tokens[at].kind {
            Kind::Word(word) | Kind::Start(word) | Kind::Finish(word) => Text::of(
                alloc,
                word.as_str(),
            ),
            _ => Text::of(alloc, ""),
        }
    } else {
        Text::of(alloc, "")
    }
}

/// The fault of the token at this place.
pub fn syntax(at: usize) -> Fail<ParseFault>
    requires { at < 2 ^ 32 }
    ensures { result ≡ Fault (Syntax at) }
{
    Fail::Fault(ParseFault::Syntax(at as u32))
}

/// The place behind this lexeme, which stands at this place, else Syntax there.
pub fn expect(tokens: &[Token], at: usize, wanted: Lexeme) -> Result<usize, Fail<ParseFault>>
    requires size { length tokens.now < 2 ^ 32 }
    requires within { at ≤ length tokens.now }
    requires real { is_real wanted ≡ true }
    ensures next { IfOk result (λ end. end ≡ at + 1) }
    ensures found { IfOk result (λ end. first (drop at tokens.now) ≡ wanted) }
    ensures ended { IfOk result (Ended [] (lexeme wanted ∷ []) tokens.now at) }
    ensures stopped { IfErr result (StopsBy [] (lexeme wanted ∷ []) tokens.now at) }
{
    if lexeme_at(tokens, at) == wanted {
        Ok(at + 1)
    } else {
        Err(syntax(at))
    }
}
