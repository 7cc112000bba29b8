//! Cases of `lex`: the section `text`; a token a line, as `Word x at 0 line 1`, or the fault, as `BadByte at byte 0`.

use crate::sources::LONGEST;
use flame_case_files::Case;
use flame_lex::{Kind, LexFault, Token, lex};
use flame_rows::Fail;
use std::alloc::{AllocError, Global};

/// The kind of a token, with what it holds.
fn print_kind(out: &mut String, kind: &Kind) -> Result<(), AllocError> {
    match kind {
        Kind::Word(name) => write!(out, "Word {name}"),
        Kind::Number(number) => write!(out, "Number {number}"),
        Kind::Mark(number) => write!(out, "Mark {number}"),
        Kind::Key(number) => write!(out, "Key {number}"),
        Kind::Start(name) => write!(out, "Start {name}"),
        Kind::Finish(name) => write!(out, "Finish {name}"),
    }
}

fn print_token(out: &mut String, token: &Token) -> Result<(), AllocError> {
    print_kind(out, &token.kind)?;
    writeln!(out, " at {} line {}", token.at, token.line)
}

/// The tokens, a line each.
fn tokens_text(alloc: Global, tokens: &[Token]) -> Result<String, AllocError> {
    let mut out = String::new(alloc);
    for token in tokens {
        print_token(&mut out, token)?;
    }
    Ok(out)
}

/// Why there are no tokens.
pub(crate) fn fail_text(alloc: Global, fail: &Fail<LexFault>) -> Result<String, AllocError> {
    match fail {
        Fail::Fault(fault) => format!(in alloc; "{} at byte {}\n", fault.name(), fault.offset()),
        Fail::NoMemory => String::from_str(alloc, "no memory\n"),
    }
}

/// The answer to a case of the kind `lex`: a token a line, or the fault.
pub fn answer_tokens(alloc: Global, case: &Case) -> Result<String, AllocError> {
    let bytes = case.bytes("text");
    if bytes.len() > LONGEST {
        return String::from_str(alloc, "too large\n");
    }
    match lex(alloc, bytes) {
        Ok(tokens) => tokens_text(alloc, tokens.items()),
        Err(fail) => fail_text(alloc, &fail),
    }
}
