//! The lines of words and of files.

ghost use Rattle.std.specs.Prelude.{◌≡◌, ◌++◌, IfOk, OnOk, string_bytes, option_map};
ghost use Rattle.flame_report.specs.FaultLines.{usage_line, word_part, missing_part, file_line};

use flame_rows::{Blob, NoMemory};
use flame_words::Usage;
use itoa::Buffer;
use std::alloc::Global;
use std::fmt::Write;

/// Adds ` at word K`, where a word is at fault.
fn push_word(text: &mut String, word: Option<u32>) -> Result<(), NoMemory>
    ensures { OnOk result (string_bytes text.new ≡ string_bytes text.old ++ word_part word) }
{
    if let Some(word) = word {
        let mut digits = Buffer::new();
        let number = digits.format(word);
        write!(text, " at word {number}")?;
    }
    Ok(())
}

/// Adds ` WHAT`, where something is missing.
fn push_missing(text: &mut String, missing: Option<&str>) -> Result<(), NoMemory>
    ensures { OnOk result (string_bytes text.new
        ≡ string_bytes text.old ++ missing_part (option_map (λ what. what.now) missing.entry)) }
{
    if let Some(what) = missing {
        write!(text, " {what}")?;
    }
    Ok(())
}

/// The line of a fault of usage: `usage: NoCommand`, `usage: Missing WHAT` or `usage: KIND at word K`. The error is want
/// of memory.
pub fn usage_text(alloc: Global, fault: &Usage) -> Result<Blob, NoMemory>
    ensures { IfOk result (λ line. line ≡ usage_line fault.now) }
{
    let mut text = String::from_str(alloc, "usage: ")?;
    text.push_str(fault.name())?;
    push_word(&mut text, fault.word())?;
    push_missing(&mut text, fault.missing())?;
    text.push_str("\n")?;
    Ok(Blob::of(text.into_bytes()))
}

/// The line of a file, or of the output: `WORD: NAME`, where the word is `missing`, `too large`, `not JSON`, `too many`,
/// `read fault` or `write fault`, and the output's name is `output`. The error is want of memory.
pub fn file_text(alloc: Global, word: &str, name: &str) -> Result<Blob, NoMemory>
    ensures { IfOk result (λ line. line ≡ file_line word.now name.now) }
{
    let text = format!(in alloc; "{word}: {name}\n")?;
    Ok(Blob::of(text.into_bytes()))
}
