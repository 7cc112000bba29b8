//! Cases of `parse_expr` and of `parse`: the section `text`; the trees, as `trees` prints them, or the fault, as
//! `Syntax at token 2`. An expression begins at the token whose number the section `from` has, at the first one
//! without it, and behind its tree stands the token at which it ends, as `to 3`. Where the section `print` has the word
//! `names`, only the names of the functions are printed.

use crate::lexing::fail_text;
use crate::sources::LONGEST;
use crate::trees::{print_definitions, print_expression, print_names};
use flame_case_files::Case;
use flame_expr::{ParseFault, is_counted, nests, parse_expr};
use flame_lex::{Token, lex};
use flame_parse::parse;
use flame_rows::{Fail, Seq};
use std::alloc::{AllocError, Global};

/// What was read.
#[derive(Drop)]
enum Found {
    /// The tokens.
    Tokens(Seq<Token>),
    /// Why there are none, as it is answered.
    Told(String),
}

/// The tokens of a case.
fn tokens_in(alloc: Global, case: &Case) -> Result<Found, AllocError> {
    let bytes = case.bytes("text");
    if bytes.len() > LONGEST {
        return Ok(Found::Told(String::from_str(alloc, "too large\n")?));
    }
    match lex(alloc, bytes) {
        Ok(tokens) => Ok(Found::Tokens(tokens)),
        Err(fail) => Ok(Found::Told(fail_text(alloc, &fail)?)),
    }
}

fn print_fail(out: &mut String, fail: &Fail<ParseFault>) -> Result<(), AllocError> {
    match fail {
        Fail::Fault(fault) => writeln!(out, "{} at token {}", fault.name(), fault.token()),
        Fail::NoMemory => writeln!(out, "no memory"),
    }
}

/// The expression from a place of the tokens.
fn print_place(
    alloc: Global,
    out: &mut String,
    tokens: &[Token],
    from: usize,
) -> Result<(), AllocError> {
    if from > tokens.len() || !is_counted(tokens) {
        return writeln!(out, "too large");
    }
    if !nests(tokens) {
        return writeln!(out, "too deep");
    }
    match parse_expr(alloc, tokens, from) {
        Ok((tree, end)) => {
            print_expression(out, 0, &tree)?;
            writeln!(out, "to {end}")
        }
        Err(fail) => print_fail(out, &fail),
    }
}

/// The expression from the case's place of the tokens.
fn expression_text(alloc: Global, case: &Case, tokens: &[Token]) -> Result<String, AllocError> {
    let from = case.text("from").trim().parse::<usize>().unwrap_or(0);
    let mut out = String::new(alloc);
    print_place(alloc, &mut out, tokens, from)?;
    Ok(out)
}

/// The answer to a case of the kind `expression`.
pub fn answer_expression(alloc: Global, case: &Case) -> Result<String, AllocError> {
    match tokens_in(alloc, case)? {
        Found::Told(told) => Ok(told),
        Found::Tokens(tokens) => expression_text(alloc, case, tokens.items()),
    }
}

/// The function file of the tokens.
fn print_file(
    alloc: Global,
    out: &mut String,
    tokens: &[Token],
    whole: bool,
) -> Result<(), AllocError> {
    if !is_counted(tokens) {
        return writeln!(out, "too large");
    }
    match parse(alloc, tokens) {
        Ok(unit) => {
            if whole {
                print_definitions(out, unit.functions.items())
            } else {
                print_names(out, unit.functions.items())
            }
        }
        Err(fail) => print_fail(out, &fail),
    }
}

/// The function file of the tokens, as the case wants it printed.
fn file_text(alloc: Global, case: &Case, tokens: &[Token]) -> Result<String, AllocError> {
    let whole = case.text("print").trim() != "names";
    let mut out = String::new(alloc);
    print_file(alloc, &mut out, tokens, whole)?;
    Ok(out)
}

/// The answer to a case of the kind `parse`.
pub fn answer_trees(alloc: Global, case: &Case) -> Result<String, AllocError> {
    match tokens_in(alloc, case)? {
        Found::Told(told) => Ok(told),
        Found::Tokens(tokens) => file_text(alloc, case, tokens.items()),
    }
}
