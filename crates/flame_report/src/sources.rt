//! The lines of faults of function files: of their tokens, of their grammar, and of what they say.

ghost use Rattle.std.specs.Prelude.{◌≡◌, ◌++◌, IfOk, OnOk, codes, decimal, string_bytes};
ghost use Rattle.flame_report.specs.FaultLines.{lex_line, parse_line, check_line, location_part};
ghost use Rattle.flame_report.specs.LineParts.{function_file};

use crate::named::function_file;
use flame_expr::ParseFault;
use flame_lex::LexFault;
use flame_rows::{Blob, NoMemory};
use flame_spec::{CheckFault, CheckKind, Model};
use itoa::Buffer;
use std::alloc::Global;
use std::fmt::Write;

/// The line of a text that has no tokens: `lex: FILE: KIND at byte N`. The error is want of memory.
pub fn lex_text(alloc: Global, file: &str, fault: &LexFault) -> Result<Blob, NoMemory>
    ensures { IfOk result (λ line. line ≡ lex_line file.now fault.now) }
{
    let kind = fault.name();
    let mut digits = Buffer::new();
    let offset = digits.format(fault.offset());
    let text = format!(in alloc; "lex: {file}: {kind} at byte {offset}\n")?;
    Ok(Blob::of(text.into_bytes()))
}

/// The line of tokens that have no tree or nest too deep: `syntax: FILE: line L: KIND at token N`. L is given, the line of
/// that token, or at the end of the tokens that of the last one, and 1 where there is none. The error is want of memory.
pub fn parse_text(
    alloc: Global,
    file: &str,
    line: u32,
    fault: &ParseFault,
) -> Result<Blob, NoMemory>
    ensures { IfOk result (λ text. text ≡ parse_line file.now line fault.now) }
{
    let kind = fault.name();
    let mut digits = Buffer::new();
    let mut tokens = Buffer::new();
    let number = digits.format(line);
    let token = tokens.format(fault.token());
    let text = format!(in alloc; "syntax: {file}: line {number}: {kind} at token {token}\n")?;
    Ok(Blob::of(text.into_bytes()))
}

/// Adds where the fault stands: `FILE: line L: `. A function that the function files lack stands nowhere.
fn push_location(text: &mut String, model: &Model, fault: &CheckFault) -> Result<(), NoMemory>
    ensures { OnOk result (string_bytes text.new
        ≡ string_bytes text.old ++ location_part fault.now.kind
        (function_file model.now fault.now.file ++ codes ": line " ++ decimal fault.now.line ++ codes ": ")) }
{
    match fault.kind {
        CheckKind::MissingFunction => Ok(()),
        _ => {
            let file = function_file(model, fault.file);
            let mut digits = Buffer::new();
            let line = digits.format(fault.line);
            write!(text, "{file}: line {line}: ")?;
            Ok(())
        }
    }
}

/// The line of a fault of what the function files say: `check: FILE: line L: KIND: NAME`, or `check: MissingFunction: NAME`.
/// The error is want of memory.
pub fn check_text(alloc: Global, model: &Model, fault: &CheckFault) -> Result<Blob, NoMemory>
    ensures { IfOk result (λ line. line ≡ check_line model.now fault.now) }
{
    let kind = fault.kind.name();
    let name = fault.name.as_str();
    let mut text = String::from_str(alloc, "check: ")?;
    push_location(&mut text, model, fault)?;
    write!(text, "{kind}: {name}\n")?;
    Ok(Blob::of(text.into_bytes()))
}
