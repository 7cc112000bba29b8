//! The reader of function files. Each function begins with the production that it reads.

ghost use Rattle.std.specs.Prelude.{◌≡◌, ◌+◌, ◌<◌, ◌≤◌, ◌^◌, [], ◌∷◌, length, drop, map, IfOk, IfErr, IfSome, IfNone};
ghost use Rattle.flame_expr.specs.declared.lexemes.Lexeme.TheVariants.{Close};
ghost use Rattle.flame_expr.specs.ViablePrefixes as steps;
ghost use Rattle.flame_expr.specs.ViablePrefixes.{form, many, lexeme, more_parameters, a_def};
ghost use Rattle.flame_expr.specs.ReadParts.{Ended, StopsBy};
ghost use Rattle.flame_parse.specs.AssignmentOperators.{joins_parameters};
ghost use Rattle.flame_parse.specs.StatementGrammar.{OneParameter, MoreParameters, SomeParameters, Parameters};
ghost use Rattle.flame_parse.specs.StatementGrammar.{Definition, Definitions};
ghost use Rattle.flame_parse.specs.Parsing.{defined, joins_unit};

use crate::stmt::block;
use flame_expr::{Lexeme, ParseFault, expect, lexeme_at, line_at, text_at};
use flame_lex::Token;
use flame_rows::{Fail, Seq};
use flame_spec::{Def, Parameter};
use std::alloc::Global;

// unit = def*
/// The function definitions at this place and the place behind them.
pub(crate) fn definitions(
    alloc: Global,
    tokens: &[Token],
    at: usize,
) -> Result<(Vec<Def>, usize), Fail<ParseFault>>
    requires size { length tokens.now < 2 ^ 32 }
    requires within { at ≤ length tokens.now }
    ensures tree { IfOk result (λ r. Definitions (drop at tokens.now) (map defined r.0.items) (drop r.1 tokens.now)) }
    ensures ended { IfOk result (λ r. Ended joins_unit (many (form a_def) ∷ []) tokens.now at r.1) }
    ensures stopped { IfErr result (StopsBy joins_unit (many (form a_def) ∷ []) tokens.now at) }
{
    let mut found = Vec::new(alloc);
    let mut place = at;
    'units: loop {
        let Lexeme::Int = lexeme_at(tokens, place) else {
            return Ok((found, place));
        };
        let (next, end) = definition(alloc, tokens, place)?;
        found.push(next)?;
        place = end;
    }
}

// def = "int" WORD "(" ["void" | "int" WORD ("," "int" WORD)*] ")" block
fn definition(alloc: Global, tokens: &[Token], at: usize) -> Result<(Def, usize), Fail<ParseFault>>
    requires size { length tokens.now < 2 ^ 32 }
    requires within { at ≤ length tokens.now }
    ensures tree { IfOk result (λ r. Definition (drop at tokens.now) (defined r.0) (drop r.1 tokens.now)) }
    ensures ended { IfOk result (λ r. Ended [] (form a_def ∷ []) tokens.now at r.1) }
    ensures ahead { IfOk result (λ r. at < r.1) }
    ensures stopped { IfErr result (StopsBy [] (form a_def ∷ []) tokens.now at) }
{
    let line = line_at(tokens, at);
    let word = expect(tokens, at, Lexeme::Int)?;
    let open = expect(tokens, word, Lexeme::Word)?;
    let inside = expect(tokens, open, Lexeme::Open)?;
    let (found, close) = parameters(alloc, tokens, inside)?;
    let (inner, end) = block(alloc, tokens, close)?;
    let name = text_at(alloc, tokens, word)?;
    let parameters = Seq::of(found);
    let body = Seq::of(inner);
    Ok((
        Def {
            name,
            line,
            parameters,
            body,
        },
        end,
    ))
}

// ["void" | "int" WORD ("," "int" WORD)*] ")"
fn parameters(
    alloc: Global,
    tokens: &[Token],
    at: usize,
) -> Result<(Vec<Parameter>, usize), Fail<ParseFault>>
    requires size { length tokens.now < 2 ^ 32 }
    requires within { at ≤ length tokens.now }
    ensures tree { IfOk result (λ r. Parameters (drop at tokens.now) r.0.items (drop r.1 tokens.now)) }
    ensures ended { IfOk result (λ r. Ended [] (steps.parameters ∷ lexeme Close ∷ []) tokens.now at r.1) }
    ensures ahead { IfOk result (λ r. at < r.1) }
    ensures stopped { IfErr result (StopsBy [] (steps.parameters ∷ lexeme Close ∷ []) tokens.now at) }
{
    match lexeme_at(tokens, at) {
        Lexeme::Void => {
            let end = expect(tokens, at + 1, Lexeme::Close)?;
            Ok((Vec::new(alloc), end))
        }
        Lexeme::Int => {
            let (found, mid) = some_parameters(alloc, tokens, at)?;
            let end = expect(tokens, mid, Lexeme::Close)?;
            Ok((found, end))
        }
        _ => {
            let end = expect(tokens, at, Lexeme::Close)?;
            Ok((Vec::new(alloc), end))
        }
    }
}

// "int" WORD ("," "int" WORD)*
fn some_parameters(
    alloc: Global,
    tokens: &[Token],
    at: usize,
) -> Result<(Vec<Parameter>, usize), Fail<ParseFault>>
    requires size { length tokens.now < 2 ^ 32 }
    requires within { at ≤ length tokens.now }
    ensures tree { IfOk result (λ r. SomeParameters (drop at tokens.now) r.0.items (drop r.1 tokens.now)) }
    ensures ended { IfOk result (λ r.
        Ended joins_parameters (steps.parameter ∷ more_parameters ∷ []) tokens.now at r.1) }
    ensures ahead { IfOk result (λ r. at < r.1) }
    ensures stopped { IfErr result (StopsBy joins_parameters (steps.parameter ∷ more_parameters ∷ []) tokens.now at) }
{
    let (first, mid) = parameter(alloc, tokens, at)?;
    let (mut others, end) = other_parameters(alloc, tokens, mid)?;
    others.insert(0, first)?;
    Ok((others, end))
}

// ("," "int" WORD)*
fn other_parameters(
    alloc: Global,
    tokens: &[Token],
    at: usize,
) -> Result<(Vec<Parameter>, usize), Fail<ParseFault>>
    requires size { length tokens.now < 2 ^ 32 }
    requires within { at ≤ length tokens.now }
    ensures tree { IfOk result (λ r. MoreParameters (drop at tokens.now) r.0.items (drop r.1 tokens.now)) }
    ensures ended { IfOk result (λ r. Ended joins_parameters (more_parameters ∷ []) tokens.now at r.1) }
    ensures stopped { IfErr result (StopsBy joins_parameters (more_parameters ∷ []) tokens.now at) }
{
    let mut found = Vec::new(alloc);
    let mut place = at;
    'others: loop {
        let Lexeme::Comma = lexeme_at(tokens, place) else {
            return Ok((found, place));
        };
        let (next, end) = parameter(alloc, tokens, place + 1)?;
        found.push(next)?;
        place = end;
    }
}

// "int" WORD
fn parameter(
    alloc: Global,
    tokens: &[Token],
    at: usize,
) -> Result<(Parameter, usize), Fail<ParseFault>>
    requires size { length tokens.now < 2 ^ 32 }
    requires within { at ≤ length tokens.now }
    ensures tree { IfOk result (λ r. OneParameter (drop at tokens.now) r.0 (drop r.1 tokens.now)) }
    ensures ended { IfOk result (λ r. Ended [] (steps.parameter ∷ []) tokens.now at r.1) }
    ensures ahead { IfOk result (λ r. at < r.1) }
    ensures stopped { IfErr result (StopsBy [] (steps.parameter ∷ []) tokens.now at) }
{
    let line = line_at(tokens, at);
    let word = expect(tokens, at, Lexeme::Int)?;
    let end = expect(tokens, word, Lexeme::Word)?;
    let name = text_at(alloc, tokens, word)?;
    Ok((Parameter { line, name }, end))
}
