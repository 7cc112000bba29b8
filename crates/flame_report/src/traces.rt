//! The line of a trace that is refused.

ghost use Rattle.std.specs.Prelude.{◌≡◌, ◌++◌, IfOk, OnOk, codes, decimal, false, string_bytes};
ghost use Rattle.flame_report.specs.FaultLines.{trace_line, verdict_part};
ghost use Rattle.flame_world.specs.Verdicts.{is_yes};

use flame_rows::{Blob, NoMemory};
use flame_world::Verdict;
use itoa::Buffer;
use std::alloc::Global;
use std::fmt::Write;

/// Adds `KIND at line L`.
fn push_kind(text: &mut String, kind: &str, line: u32) -> Result<(), NoMemory>
    ensures { OnOk result (string_bytes text.new
        ≡ string_bytes text.old ++ (kind.now ++ codes " at line " ++ decimal line)) }
{
    let mut digits = Buffer::new();
    let number = digits.format(line);
    write!(text, "{kind} at line {number}")?;
    Ok(())
}

/// Adds why a trace is refused.
fn push_verdict(text: &mut String, verdict: &Verdict) -> Result<(), NoMemory>
    requires { is_yes verdict.now ≡ false }
    ensures { OnOk result (string_bytes text.new ≡ string_bytes text.old ++ verdict_part verdict.now) }
{
    match verdict {
        Verdict::Yes(_) => unreachable!(),
        Verdict::Form(line) => push_kind(text, "Form", *line),
        Verdict::OtherStart(line) => push_kind(text, "OtherStart", *line),
        Verdict::Illegal(line) => push_kind(text, "Illegal", *line),
        Verdict::Incomplete(line) => push_kind(text, "Incomplete", *line),
        Verdict::OtherEnd(line) => push_kind(text, "OtherEnd", *line),
    }
}

/// The line of a trace that is refused: `trace: FILE: KIND at line L`. The verdict is not Yes. The error is want of memory.
pub fn trace_fault_text(alloc: Global, file: &str, verdict: &Verdict) -> Result<Blob, NoMemory>
    requires { is_yes verdict.now ≡ false }
    ensures { IfOk result (λ line. line ≡ trace_line file.now verdict.now) }
{
    let mut text = format!(in alloc; "trace: {file}: ")?;
    push_verdict(&mut text, verdict)?;
    text.push_str("\n")?;
    Ok(Blob::of(text.into_bytes()))
}
