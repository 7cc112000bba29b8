//! The reader of statements. Each function begins with the production that it reads.

ghost use Rattle.std.specs.Prelude.{◌≡◌, ◌+◌, ◌<◌, ◌≤◌, ◌^◌, [], ◌∷◌, length, drop, map, option_map, IfOk, IfErr};
ghost use Rattle.flame_spec.specs.Seen.{expression, statement, statements, arms};
ghost use Rattle.flame_expr.specs.Lexemes.{first};
ghost use Rattle.flame_expr.specs.ViablePrefixes.{form, many, else_ifs, else_body, a_stmt, a_block, a_body};
ghost use Rattle.flame_expr.specs.ReadParts.{Ended, StopsBy};
ghost use Rattle.flame_parse.specs.AssignmentOperators.{joins_stmt, joins_stmts};
ghost use Rattle.flame_parse.specs.StatementGrammar.{Block, Stmts, Stmt as StmtRead, Elses, Body};

use crate::operators::starts_statement;
use crate::simple::{boxed_head, items, one, simple};
use flame_expr::{Lexeme, ParseFault, bracketed, expect, lexeme_at, line_at, text_at};
use flame_lex::Token;
use flame_rows::{Fail, Seq};
use flame_spec::{Arm, Stmt};
use std::alloc::Global;

// block = "{" stmt* "}"
/// A block: its statements and the place behind it.
#[cycle(stmts)]
pub(crate) fn block(
    alloc: Global,
    tokens: &[Token],
    at: usize,
) -> Result<(Vec<Stmt>, usize), Fail<ParseFault>>
    requires size { length tokens.now < 2 ^ 32 }
    requires within { at ≤ length tokens.now }
    ensures tree { IfOk result (λ r. Block (drop at tokens.now) (statements r.0.items) (drop r.1 tokens.now)) }
    ensures ended { IfOk result (λ r. Ended [] (form a_block ∷ []) tokens.now at r.1) }
    ensures ahead { IfOk result (λ r. at < r.1) }
    ensures stopped { IfErr result (StopsBy [] (form a_block ∷ []) tokens.now at) }
{
    let inside = expect(tokens, at, Lexeme::OpenBrace)?;
    let (found, close) = stmts(alloc, tokens, inside)?;
    let end = expect(tokens, close, Lexeme::CloseBrace)?;
    Ok((found, end))
}

// stmt*
#[cycle(stmts)]
fn stmts(alloc: Global, tokens: &[Token], at: usize) -> Result<(Vec<Stmt>, usize), Fail<ParseFault>>
    requires size { length tokens.now < 2 ^ 32 }
    requires within { at ≤ length tokens.now }
    ensures tree { IfOk result (λ r. Stmts (drop at tokens.now) (statements r.0.items) (drop r.1 tokens.now)) }
    ensures ended { IfOk result (λ r. Ended joins_stmts (many (form a_stmt) ∷ []) tokens.now at r.1) }
    ensures stopped { IfErr result (StopsBy joins_stmts (many (form a_stmt) ∷ []) tokens.now at) }
{
    let mut found = Vec::new(alloc);
    let mut place = at;
    'stmts: loop {
        if !starts_statement(lexeme_at(tokens, place)) {
            return Ok((found, place));
        }
        let (next, end) = stmt(alloc, tokens, place)?;
        found.push(next)?;
        place = end;
    }
}

// stmt = decl ";" | block | if | while | for | do | loop | simple
#[cycle(stmts)]
fn stmt(alloc: Global, tokens: &[Token], at: usize) -> Result<(Stmt, usize), Fail<ParseFault>>
    requires size { length tokens.now < 2 ^ 32 }
    requires within { at ≤ length tokens.now }
    ensures tree { IfOk result (λ r. StmtRead (drop at tokens.now) (statement r.0) (drop r.1 tokens.now)) }
    ensures ended { IfOk result (λ r. Ended joins_stmt (form a_stmt ∷ []) tokens.now at r.1) }
    ensures ahead { IfOk result (λ r. at < r.1) }
    ensures stopped { IfErr result (StopsBy joins_stmt (form a_stmt ∷ []) tokens.now at) }
{
    match lexeme_at(tokens, at) {
        Lexeme::Int => {
            let (items, mid) = items(alloc, tokens, at + 1)?;
            let end = expect(tokens, mid, Lexeme::Semicolon)?;
            Ok((Stmt::Declare(Seq::of(items)), end))
        }
        Lexeme::OpenBrace => {
            let (found, end) = block(alloc, tokens, at)?;
            Ok((Stmt::Block(Seq::of(found)), end))
        }
        Lexeme::If => branch(alloc, tokens, at),
        Lexeme::While => while_loop(alloc, tokens, at),
        Lexeme::For => for_loop(alloc, tokens, at),
        Lexeme::Do => do_loop(alloc, tokens, at),
        Lexeme::Start => message_loop(alloc, tokens, at),
        _ => {
            let (form, end) = simple(alloc, tokens, at)?;
            Ok((form, end))
        }
    }
}

// if = "if" "(" expr ")" body ("else" "if" "(" expr ")" body)* ["else" body]
#[cycle(stmts)]
fn branch(alloc: Global, tokens: &[Token], at: usize) -> Result<(Stmt, usize), Fail<ParseFault>>
    requires size { length tokens.now < 2 ^ 32 }
    requires within { at < length tokens.now }
    requires begun { first (drop at tokens.now) ≡ Lexeme.If }
    ensures tree { IfOk result (λ r. StmtRead (drop at tokens.now) (statement r.0) (drop r.1 tokens.now)) }
    ensures ended { IfOk result (λ r. Ended joins_stmt (form a_stmt ∷ []) tokens.now at r.1) }
    ensures ahead { IfOk result (λ r. at < r.1) }
    ensures stopped { IfErr result (StopsBy joins_stmt (form a_stmt ∷ []) tokens.now at) }
{
    let (test, mid) = bracketed(alloc, tokens, at + 1)?;
    let (first, place) = body(alloc, tokens, mid)?;
    let (mut arms, last, end) = elses(alloc, tokens, place)?;
    let body = Seq::of(first);
    arms.insert(0, Arm { test, body })?;
    Ok((Stmt::If(Seq::of(arms), Seq::of(last)), end))
}

// ("else" "if" "(" expr ")" body)* ["else" body]
#[cycle(stmts)]
fn elses(
    alloc: Global,
    tokens: &[Token],
    at: usize,
) -> Result<(Vec<Arm>, Vec<Stmt>, usize), Fail<ParseFault>>
    requires size { length tokens.now < 2 ^ 32 }
    requires within { at ≤ length tokens.now }
    ensures tree { IfOk result (λ r.
        Elses (drop at tokens.now) (arms r.0.items) (statements r.1.items) (drop r.2 tokens.now)) }
    ensures ended { IfOk result (λ r. Ended joins_stmt (else_ifs ∷ else_body ∷ []) tokens.now at r.2) }
    ensures stopped { IfErr result (StopsBy joins_stmt (else_ifs ∷ else_body ∷ []) tokens.now at) }
{
    let mut found = Vec::new(alloc);
    let mut place = at;
    'elses: loop {
        let Lexeme::Else = lexeme_at(tokens, place) else {
            return Ok((found, Vec::new(alloc), place));
        };
        let Lexeme::If = lexeme_at(tokens, place + 1) else {
            let (last, end) = body(alloc, tokens, place + 1)?;
            return Ok((found, last, end));
        };
        let (test, mid) = bracketed(alloc, tokens, place + 1 + 1)?;
        let (inside, end) = body(alloc, tokens, mid)?;
        let body = Seq::of(inside);
        found.push(Arm { test, body })?;
        place = end;
    }
}

// body = block | simple
#[cycle(stmts)]
fn body(alloc: Global, tokens: &[Token], at: usize) -> Result<(Vec<Stmt>, usize), Fail<ParseFault>>
    requires size { length tokens.now < 2 ^ 32 }
    requires within { at ≤ length tokens.now }
    ensures tree { IfOk result (λ r. Body (drop at tokens.now) (statements r.0.items) (drop r.1 tokens.now)) }
    ensures ended { IfOk result (λ r. Ended [] (form a_body ∷ []) tokens.now at r.1) }
    ensures ahead { IfOk result (λ r. at < r.1) }
    ensures stopped { IfErr result (StopsBy [] (form a_body ∷ []) tokens.now at) }
{
    match lexeme_at(tokens, at) {
        Lexeme::OpenBrace => {
            let (found, end) = block(alloc, tokens, at)?;
            Ok((found, end))
        }
        _ => {
            let (form, end) = simple(alloc, tokens, at)?;
            Ok((one(alloc, form)?, end))
        }
    }
}

// while = "while" "(" expr ")" body
#[cycle(stmts)]
fn while_loop(alloc: Global, tokens: &[Token], at: usize) -> Result<(Stmt, usize), Fail<ParseFault>>
    requires size { length tokens.now < 2 ^ 32 }
    requires within { at < length tokens.now }
    requires begun { first (drop at tokens.now) ≡ Lexeme.While }
    ensures tree { IfOk result (λ r. StmtRead (drop at tokens.now) (statement r.0) (drop r.1 tokens.now)) }
    ensures ended { IfOk result (λ r. Ended joins_stmt (form a_stmt ∷ []) tokens.now at r.1) }
    ensures ahead { IfOk result (λ r. at < r.1) }
    ensures stopped { IfErr result (StopsBy joins_stmt (form a_stmt ∷ []) tokens.now at) }
{
    let (test, mid) = bracketed(alloc, tokens, at + 1)?;
    let (found, end) = body(alloc, tokens, mid)?;
    Ok((Stmt::While(line_at(tokens, at), test, Seq::of(found)), end))
}

// for = "for" "(" [assign | decl] ";" [expr] ";" [assign] ")" body
#[cycle(stmts)]
fn for_loop(alloc: Global, tokens: &[Token], at: usize) -> Result<(Stmt, usize), Fail<ParseFault>>
    requires size { length tokens.now < 2 ^ 32 }
    requires within { at < length tokens.now }
    requires begun { first (drop at tokens.now) ≡ Lexeme.For }
    ensures tree { IfOk result (λ r. StmtRead (drop at tokens.now) (statement r.0) (drop r.1 tokens.now)) }
    ensures ended { IfOk result (λ r. Ended joins_stmt (form a_stmt ∷ []) tokens.now at r.1) }
    ensures ahead { IfOk result (λ r. at < r.1) }
    ensures stopped { IfErr result (StopsBy joins_stmt (form a_stmt ∷ []) tokens.now at) }
{
    let (head, mid) = boxed_head(alloc, tokens, at + 1)?;
    let (found, end) = body(alloc, tokens, mid)?;
    Ok((Stmt::For(line_at(tokens, at), head, Seq::of(found)), end))
}

// do = "do" body "while" "(" expr ")" ";"
#[cycle(stmts)]
fn do_loop(alloc: Global, tokens: &[Token], at: usize) -> Result<(Stmt, usize), Fail<ParseFault>>
    requires size { length tokens.now < 2 ^ 32 }
    requires within { at < length tokens.now }
    requires begun { first (drop at tokens.now) ≡ Lexeme.Do }
    ensures tree { IfOk result (λ r. StmtRead (drop at tokens.now) (statement r.0) (drop r.1 tokens.now)) }
    ensures ended { IfOk result (λ r. Ended joins_stmt (form a_stmt ∷ []) tokens.now at r.1) }
    ensures ahead { IfOk result (λ r. at < r.1) }
    ensures stopped { IfErr result (StopsBy joins_stmt (form a_stmt ∷ []) tokens.now at) }
{
    let (found, mid) = body(alloc, tokens, at + 1)?;
    let open = expect(tokens, mid, Lexeme::While)?;
    let (test, place) = bracketed(alloc, tokens, open)?;
    let end = expect(tokens, place, Lexeme::Semicolon)?;
    Ok((Stmt::Do(line_at(tokens, at), Seq::of(found), test), end))
}

// loop = START stmt* FINISH
#[cycle(stmts)]
fn message_loop(
    alloc: Global,
    tokens: &[Token],
    at: usize,
) -> Result<(Stmt, usize), Fail<ParseFault>>
    requires size { length tokens.now < 2 ^ 32 }
    requires within { at < length tokens.now }
    requires begun { first (drop at tokens.now) ≡ Lexeme.Start }
    ensures tree { IfOk result (λ r. StmtRead (drop at tokens.now) (statement r.0) (drop r.1 tokens.now)) }
    ensures ended { IfOk result (λ r. Ended joins_stmt (form a_stmt ∷ []) tokens.now at r.1) }
    ensures ahead { IfOk result (λ r. at < r.1) }
    ensures stopped { IfErr result (StopsBy joins_stmt (form a_stmt ∷ []) tokens.now at) }
{
    let name = text_at(alloc, tokens, at)?;
    let (found, finish) = stmts(alloc, tokens, at + 1)?;
    let end = expect(tokens, finish, Lexeme::Finish)?;
    let end_name = text_at(alloc, tokens, finish)?;
    let line = line_at(tokens, at);
    let end_line = line_at(tokens, finish);
    Ok((
        Stmt::Loop(line, name, Seq::of(found), end_line, end_name),
        end,
    ))
}
