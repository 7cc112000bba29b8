//! The reader of expressions. Each function begins with the production that it reads.

ghost use Rattle.std.specs.Prelude.{◌≡◌, ◌+◌, ◌<◌, ◌≤◌, ◌^◌, suc, [], ◌∷◌, length, drop, option_map};
ghost use Rattle.std.specs.Prelude.{IfOk, IfErr};
ghost use Rattle.flame_spec.specs.Seen as seen;
ghost use Rattle.flame_spec.specs.Seen.{expression, expressions, links, indexed};
ghost use Rattle.flame_expr.specs.declared.lexemes.Lexeme.TheVariants.{Open, Close};
ghost use Rattle.flame_expr.specs.Lexemes.{first};
ghost use Rattle.flame_expr.specs.OperatorLevels as levels;
ghost use Rattle.flame_expr.specs.OperatorLevels.{joins, joins_index};
ghost use Rattle.flame_expr.specs.ViablePrefixes as steps;
ghost use Rattle.flame_expr.specs.ViablePrefixes.{one_of, many, form, lexeme, expr, index};
ghost use Rattle.flame_expr.specs.ExpressionGrammar as grammar;
ghost use Rattle.flame_expr.specs.ExpressionGrammar.{Reads, Tail, Conjuncts, Disjuncts, Signs, Primary, Index};
ghost use Rattle.flame_expr.specs.ExpressionGrammar.{Bracketed, Closed};
ghost use Rattle.flame_expr.specs.ExpressionGrammar.{all_parts, any_parts, named, field_of};
ghost use Rattle.flame_expr.specs.ReadParts.{Ended, StopsBy};

use crate::cursor::{expect, lexeme_at, line_at, number_at, syntax, text_at};
use crate::faults::ParseFault;
use crate::levels::{op_between, sign};
use crate::lexemes::Lexeme;
use flame_lex::Token;
use flame_rows::{Boxed, Fail, NoMemory, Seq, Text};
use flame_spec::{Expr, Link, Sign, Subscript};
use std::alloc::Global;

/// A form of a level: 0 is unary, 1 prod, 2 sum, 3 rel, 4 eq, 5 and, 6 expr. Gives its tree and the place behind it,
/// else Syntax before the first token that no such form goes on with.
#[cycle(expr)]
fn form_at(
    alloc: Global,
    tokens: &[Token],
    at: usize,
    level: u32,
) -> Result<(Expr, usize), Fail<ParseFault>>
    requires level { level ≤ 6 }
    requires size { length tokens.now < 2 ^ 32 }
    requires within { at ≤ length tokens.now }
    ensures tree { IfOk result (λ r. Reads level (drop at tokens.now) (expression r.0) (drop r.1 tokens.now)) }
    ensures ended { IfOk result (λ r. Ended (joins level) (form (steps.level level) ∷ []) tokens.now at r.1) }
    ensures ahead { IfOk result (λ r. at < r.1) }
    ensures stopped { IfErr result (StopsBy (joins level) (form (steps.level level) ∷ []) tokens.now at) }
{
    match level {
        0 => {
            let (tree, end) = unary(alloc, tokens, at)?;
            Ok((tree, end))
        }
        5 => {
            let (tree, end) = conjunction(alloc, tokens, at)?;
            Ok((tree, end))
        }
        6 => {
            let (tree, end) = disjunction(alloc, tokens, at)?;
            Ok((tree, end))
        }
        _ => {
            let (tree, end) = chain(alloc, tokens, at, level - 1)?;
            Ok((tree, end))
        }
    }
}

// eq = rel (("==" | "!=") rel)*, rel = sum (("<" | ">" | "<=" | ">=") sum)*,
// sum = prod (("+" | "-") prod)*, prod = unary (("*" | "/" | "%") unary)*
/// A form of the level above this one.
#[cycle(expr)]
fn chain(
    alloc: Global,
    tokens: &[Token],
    at: usize,
    level: u32,
) -> Result<(Expr, usize), Fail<ParseFault>>
    requires level { level < 4 }
    requires size { length tokens.now < 2 ^ 32 }
    requires within { at ≤ length tokens.now }
    ensures tree { IfOk result (λ r. Reads (suc level) (drop at tokens.now) (expression r.0) (drop r.1 tokens.now)) }
    ensures ended { IfOk result (λ r.
        Ended (joins (suc level)) (form (steps.level (suc level)) ∷ []) tokens.now at r.1) }
    ensures ahead { IfOk result (λ r. at < r.1) }
    ensures stopped { IfErr result (StopsBy (joins (suc level)) (form (steps.level (suc level)) ∷ []) tokens.now at) }
{
    let (first, mid) = form_at(alloc, tokens, at, level)?;
    let (links, end) = tail(alloc, tokens, mid, level)?;
    Ok((chained(alloc, first, links)?, end))
}

/// The operators of a level, each with the form behind it.
#[cycle(expr)]
fn tail(
    alloc: Global,
    tokens: &[Token],
    at: usize,
    level: u32,
) -> Result<(Vec<Link>, usize), Fail<ParseFault>>
    requires level { level < 4 }
    requires size { length tokens.now < 2 ^ 32 }
    requires within { at ≤ length tokens.now }
    ensures tree { IfOk result (λ r. Tail level (drop at tokens.now) (links r.0.items) (drop r.1 tokens.now)) }
    ensures ended { IfOk result (λ r. Ended (joins (suc level)) (steps.tail level ∷ []) tokens.now at r.1) }
    ensures stopped { IfErr result (StopsBy (joins (suc level)) (steps.tail level ∷ []) tokens.now at) }
{
    let mut found = Vec::new(alloc);
    let mut place = at;
    loop {
        let Some(op) = op_between(level, lexeme_at(tokens, place)) else {
            return Ok((found, place));
        };
        let (right, end) = form_at(alloc, tokens, place + 1, level)?;
        found.push(Link {
            op,
            line: line_at(tokens, place),
            right,
        })?;
        place = end;
    }
}

// and = eq ("&&" eq)*
#[cycle(expr)]
fn conjunction(
    alloc: Global,
    tokens: &[Token],
    at: usize,
) -> Result<(Expr, usize), Fail<ParseFault>>
    requires size { length tokens.now < 2 ^ 32 }
    requires within { at ≤ length tokens.now }
    ensures tree { IfOk result (λ r. Reads 5 (drop at tokens.now) (expression r.0) (drop r.1 tokens.now)) }
    ensures ended { IfOk result (λ r. Ended (joins 5) (form (steps.level 5) ∷ []) tokens.now at r.1) }
    ensures ahead { IfOk result (λ r. at < r.1) }
    ensures stopped { IfErr result (StopsBy (joins 5) (form (steps.level 5) ∷ []) tokens.now at) }
{
    let (first, mid) = form_at(alloc, tokens, at, 4)?;
    let (others, end) = conjuncts(alloc, tokens, mid)?;
    Ok((all_of(first, others)?, end))
}

/// Each `&&` with the form behind it.
#[cycle(expr)]
fn conjuncts(
    alloc: Global,
    tokens: &[Token],
    at: usize,
) -> Result<(Vec<Expr>, usize), Fail<ParseFault>>
    requires size { length tokens.now < 2 ^ 32 }
    requires within { at ≤ length tokens.now }
    ensures tree { IfOk result (λ r. Conjuncts (drop at tokens.now) (expressions r.0.items) (drop r.1 tokens.now)) }
    ensures ended { IfOk result (λ r. Ended (joins 5) (steps.tail 4 ∷ []) tokens.now at r.1) }
    ensures stopped { IfErr result (StopsBy (joins 5) (steps.tail 4 ∷ []) tokens.now at) }
{
    let mut found = Vec::new(alloc);
    let mut place = at;
    'parts: loop {
        let Lexeme::AndAnd = lexeme_at(tokens, place) else {
            return Ok((found, place));
        };
        let (part, end) = form_at(alloc, tokens, place + 1, 4)?;
        found.push(part)?;
        place = end;
    }
}

// expr = and ("||" and)*
#[cycle(expr)]
fn disjunction(
    alloc: Global,
    tokens: &[Token],
    at: usize,
) -> Result<(Expr, usize), Fail<ParseFault>>
    requires size { length tokens.now < 2 ^ 32 }
    requires within { at ≤ length tokens.now }
    ensures tree { IfOk result (λ r. Reads 6 (drop at tokens.now) (expression r.0) (drop r.1 tokens.now)) }
    ensures ended { IfOk result (λ r. Ended (joins 6) (form (steps.level 6) ∷ []) tokens.now at r.1) }
    ensures ahead { IfOk result (λ r. at < r.1) }
    ensures stopped { IfErr result (StopsBy (joins 6) (form (steps.level 6) ∷ []) tokens.now at) }
{
    let (first, mid) = form_at(alloc, tokens, at, 5)?;
    let (others, end) = disjuncts(alloc, tokens, mid)?;
    Ok((any_of(first, others)?, end))
}

/// Each `||` with the form behind it.
#[cycle(expr)]
fn disjuncts(
    alloc: Global,
    tokens: &[Token],
    at: usize,
) -> Result<(Vec<Expr>, usize), Fail<ParseFault>>
    requires size { length tokens.now < 2 ^ 32 }
    requires within { at ≤ length tokens.now }
    ensures tree { IfOk result (λ r. Disjuncts (drop at tokens.now) (expressions r.0.items) (drop r.1 tokens.now)) }
    ensures ended { IfOk result (λ r. Ended (joins 6) (steps.tail 5 ∷ []) tokens.now at r.1) }
    ensures stopped { IfErr result (StopsBy (joins 6) (steps.tail 5 ∷ []) tokens.now at) }
{
    let mut found = Vec::new(alloc);
    let mut place = at;
    'parts: loop {
        let Lexeme::OrOr = lexeme_at(tokens, place) else {
            return Ok((found, place));
        };
        let (part, end) = form_at(alloc, tokens, place + 1, 5)?;
        found.push(part)?;
        place = end;
    }
}

// unary = ("-" | "+" | "!")* primary
#[cycle(expr)]
fn unary(alloc: Global, tokens: &[Token], at: usize) -> Result<(Expr, usize), Fail<ParseFault>>
    requires size { length tokens.now < 2 ^ 32 }
    requires within { at ≤ length tokens.now }
    ensures tree { IfOk result (λ r. Reads 0 (drop at tokens.now) (expression r.0) (drop r.1 tokens.now)) }
    ensures ended { IfOk result (λ r. Ended (joins 0) (form (steps.level 0) ∷ []) tokens.now at r.1) }
    ensures ahead { IfOk result (λ r. at < r.1) }
    ensures stopped { IfErr result (StopsBy (joins 0) (form (steps.level 0) ∷ []) tokens.now at) }
{
    let (signs, mid) = signs(alloc, tokens, at)?;
    let (part, end) = primary(alloc, tokens, mid)?;
    Ok((with_signs(alloc, signs, part)?, end))
}

// primary = NUMBER | WORD ["[" expr "]"] | WORD "->" WORD ["[" expr "]"] | WORD "(" ")" | "(" expr ")"
#[cycle(expr)]
fn primary(alloc: Global, tokens: &[Token], at: usize) -> Result<(Expr, usize), Fail<ParseFault>>
    requires size { length tokens.now < 2 ^ 32 }
    requires within { at ≤ length tokens.now }
    ensures tree { IfOk result (λ r. Primary (drop at tokens.now) (expression r.0) (drop r.1 tokens.now)) }
    ensures ended { IfOk result (λ r. Ended (joins 0) (form steps.primary ∷ []) tokens.now at r.1) }
    ensures ahead { IfOk result (λ r. at < r.1) }
    ensures stopped { IfErr result (StopsBy (joins 0) (form steps.primary ∷ []) tokens.now at) }
{
    match lexeme_at(tokens, at) {
        Lexeme::Number => Ok((Expr::Number(number_at(tokens, at)), at + 1)),
        Lexeme::Word => {
            let (tree, end) = word_form(alloc, tokens, at)?;
            Ok((tree, end))
        }
        Lexeme::Open => {
            let (tree, end) = closed(alloc, tokens, at + 1)?;
            Ok((tree, end))
        }
        _ => Err(syntax(at)),
    }
}

// expr ")"
#[cycle(expr)]
fn closed(alloc: Global, tokens: &[Token], at: usize) -> Result<(Expr, usize), Fail<ParseFault>>
    requires size { length tokens.now < 2 ^ 32 }
    requires within { at ≤ length tokens.now }
    ensures tree { IfOk result (λ r. Closed (drop at tokens.now) (expression r.0) (drop r.1 tokens.now)) }
    ensures ended { IfOk result (λ r. Ended [] (expr ∷ lexeme Close ∷ []) tokens.now at r.1) }
    ensures ahead { IfOk result (λ r. at < r.1) }
    ensures stopped { IfErr result (StopsBy [] (expr ∷ lexeme Close ∷ []) tokens.now at) }
{
    let (tree, close) = form_at(alloc, tokens, at, 6)?;
    let end = expect(tokens, close, Lexeme::Close)?;
    Ok((tree, end))
}

// WORD ["[" expr "]"] | WORD "->" WORD ["[" expr "]"] | WORD "(" ")"
#[cycle(expr)]
fn word_form(alloc: Global, tokens: &[Token], at: usize) -> Result<(Expr, usize), Fail<ParseFault>>
    requires size { length tokens.now < 2 ^ 32 }
    requires within { at < length tokens.now }
    requires word { first (drop at tokens.now) ≡ Lexeme.Word }
    ensures tree { IfOk result (λ r. Primary (drop at tokens.now) (expression r.0) (drop r.1 tokens.now)) }
    ensures ended { IfOk result (λ r. Ended (joins 0) (form steps.primary ∷ []) tokens.now at r.1) }
    ensures ahead { IfOk result (λ r. at < r.1) }
    ensures stopped { IfErr result (StopsBy (joins 0) (form steps.primary ∷ []) tokens.now at) }
{
    let line = line_at(tokens, at);
    let word = text_at(alloc, tokens, at)?;
    match lexeme_at(tokens, at + 1) {
        Lexeme::Arrow => {
            let mid = expect(tokens, at + 1 + 1, Lexeme::Word)?;
            let variable = text_at(alloc, tokens, at + 1 + 1)?;
            let (which, end) = subscript(alloc, tokens, mid)?;
            Ok((field_form(line, word, variable, which), end))
        }
        Lexeme::Open => {
            let end = expect(tokens, at + 1 + 1, Lexeme::Close)?;
            Ok((Expr::Get(line, word), end))
        }
        _ => {
            let (which, end) = subscript(alloc, tokens, at + 1)?;
            Ok((name_form(line, word, which), end))
        }
    }
}

/// A name, or one of its elements.
fn name_form(line: u32, word: Text, which: Option<Subscript>) -> Expr
    ensures { expression result ≡ named line word (option_map indexed which) }
{
    match which {
        Some(which) => Expr::At(line, word, which),
        None => Expr::Name(line, word),
    }
}

/// A field of a message, or one of its elements.
fn field_form(line: u32, word: Text, variable: Text, which: Option<Subscript>) -> Expr
    ensures { expression result ≡ field_of line word variable (option_map indexed which) }
{
    match which {
        Some(which) => Expr::FieldAt(line, word, variable, which),
        None => Expr::Field(line, word, variable),
    }
}

// ["[" expr "]"]
/// Which element, where a bracket stands at this place, and the place behind it; else Syntax before the first token
/// that it does not go on with. The stack that it takes grows with the brackets that are open at once.
#[cycle(expr)]
pub fn subscript(
    alloc: Global,
    tokens: &[Token],
    at: usize,
) -> Result<(Option<Subscript>, usize), Fail<ParseFault>>
    requires size { length tokens.now < 2 ^ 32 }
    requires within { at ≤ length tokens.now }
    ensures tree { IfOk result (λ r. Index (drop at tokens.now) (option_map indexed r.0) (drop r.1 tokens.now)) }
    ensures ended { IfOk result (λ r. Ended joins_index (index ∷ []) tokens.now at r.1) }
    ensures stopped { IfErr result (StopsBy joins_index (index ∷ []) tokens.now at) }
{
    let Lexeme::OpenBracket = lexeme_at(tokens, at) else {
        return Ok((None, at));
    };
    let (which, close) = form_at(alloc, tokens, at + 1, 6)?;
    let end = expect(tokens, close, Lexeme::CloseBracket)?;
    let index = Boxed::of(alloc, which)?;
    let line = line_at(tokens, at);
    Ok((Some(Subscript { line, index }), end))
}

/// The signs at this place.
fn signs(alloc: Global, tokens: &[Token], at: usize) -> Result<(Vec<Sign>, usize), NoMemory>
    requires size { length tokens.now < 2 ^ 32 }
    requires within { at ≤ length tokens.now }
    ensures tree { IfOk result (λ r. Signs (drop at tokens.now) r.0.items (drop r.1 tokens.now)) }
    ensures ended { IfOk result (λ r. Ended levels.signs (many (one_of levels.signs) ∷ []) tokens.now at r.1) }
{
    let mut found = Vec::new(alloc);
    let mut place = at;
    loop {
        let Some(kind) = sign(lexeme_at(tokens, place)) else {
            return Ok((found, place));
        };
        found.push(Sign {
            kind,
            line: line_at(tokens, place),
        })?;
        place += 1;
    }
}

/// The part under the signs, which is the part itself where there are none.
fn with_signs(alloc: Global, signs: Vec<Sign>, part: Expr) -> Result<Expr, NoMemory>
    ensures { IfOk result (λ e. expression e ≡ grammar.with_signs signs.items (expression part)) }
{
    if signs.is_empty() {
        return Ok(part);
    }
    let part = Boxed::of(alloc, part)?;
    Ok(Expr::Unary(Seq::of(signs), part))
}

/// The chain, which is its first part where it has no other.
fn chained(alloc: Global, first: Expr, more: Vec<Link>) -> Result<Expr, NoMemory>
    ensures { IfOk result (λ e. expression e ≡ grammar.chained (expression first) (links more.items)) }
{
    if more.is_empty() {
        return Ok(first);
    }
    let first = Boxed::of(alloc, first)?;
    let links = Seq::of(more);
    Ok(Expr::Chain(first, links))
}

/// All of the parts, which is the first where there is no other.
fn all_of(first: Expr, mut others: Vec<Expr>) -> Result<Expr, NoMemory>
    ensures { IfOk result (λ e. expression e ≡ all_parts (expression first) (expressions others.items)) }
{
    if others.is_empty() {
        return Ok(first);
    }
    others.insert(0, first)?;
    Ok(Expr::All(Seq::of(others)))
}

/// Any of the parts, which is the first where there is no other.
fn any_of(first: Expr, mut others: Vec<Expr>) -> Result<Expr, NoMemory>
    ensures { IfOk result (λ e. expression e ≡ any_parts (expression first) (expressions others.items)) }
{
    if others.is_empty() {
        return Ok(first);
    }
    others.insert(0, first)?;
    Ok(Expr::Any(Seq::of(others)))
}

// "(" expr ")"
/// An expression in brackets: its tree and the place behind the closing bracket, else Syntax before the first token
/// that it does not go on with. The stack that it takes grows with the brackets that are open at once.
pub fn bracketed(
    alloc: Global,
    tokens: &[Token],
    at: usize,
) -> Result<(Expr, usize), Fail<ParseFault>>
    requires size { length tokens.now < 2 ^ 32 }
    requires within { at ≤ length tokens.now }
    ensures tree { IfOk result (λ r. Bracketed (drop at tokens.now) (expression r.0) (drop r.1 tokens.now)) }
    ensures ended { IfOk result (λ r. Ended [] (lexeme Open ∷ expr ∷ lexeme Close ∷ []) tokens.now at r.1) }
    ensures ahead { IfOk result (λ r. at < r.1) }
    ensures stopped { IfErr result (StopsBy [] (lexeme Open ∷ expr ∷ lexeme Close ∷ []) tokens.now at) }
{
    let inside = expect(tokens, at, Lexeme::Open)?;
    let (tree, end) = closed(alloc, tokens, inside)?;
    Ok((tree, end))
}

// expr = and ("||" and)*
/// An expression: its tree and the place behind it, else Syntax before the first token that no expression goes on
/// with. The stack that it takes grows with the brackets that are open at once.
pub fn expression(
    alloc: Global,
    tokens: &[Token],
    at: usize,
) -> Result<(Expr, usize), Fail<ParseFault>>
    requires size { length tokens.now < 2 ^ 32 }
    requires within { at ≤ length tokens.now }
    ensures tree { IfOk result (λ r. Reads 6 (drop at tokens.now) (seen.expression r.0) (drop r.1 tokens.now)) }
    ensures ended { IfOk result (λ r. Ended (joins 6) (expr ∷ []) tokens.now at r.1) }
    ensures ahead { IfOk result (λ r. at < r.1) }
    ensures stopped { IfErr result (StopsBy (joins 6) (expr ∷ []) tokens.now at) }
{
    let (tree, end) = form_at(alloc, tokens, at, 6)?;
    Ok((tree, end))
}
