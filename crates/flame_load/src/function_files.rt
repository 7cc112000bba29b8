//! The function files of a model.

ghost use Rattle.std.specs.Prelude.{◌≡◌, ◌≤◌, ◌<◌, ◌^◌, length, Some, IfOk, IfErr};
ghost use Rattle.flame_outside.specs.Files.{Files};
ghost use Rattle.flame_outside.specs.Frames.{OnlyReads};
ghost use Rattle.flame_outside.specs.Failures.{ReadFailed};
ghost use Rattle.flame_load.specs.FileReads.{source_limit, file_in};
ghost use Rattle.flame_load.specs.FunctionFileReads.{spelled_in, unit_in, units_in};
ghost use Rattle.flame_load.specs.InputReads.{input};
ghost use Rattle.flame_load.specs.LoadAnswers.{Gives, IsTold, IsReadFault};
ghost use Rattle.flame_load.specs.LoadRefusals.{of_files, file_refusal, text_refusal};
ghost use Rattle.flame_load.specs.TextReads.{Reader, ReadsTexts, last_line, line_at};
ghost use Rattle.flame_load.specs.TextAnswers.{ReadsAs, LexesAs, ParsesAs};

use crate::faults::{LoadFail, LoadFault, TextFault};
use crate::files::{SOURCE_LIMIT, file_in, load_fail};
use crate::laws::one_text_reading;
use flame_lex::{Token, lex};
use flame_outside::Depot;
use flame_parse::parse;
use flame_rows::{Blob, Fail, NoMemory, Seq, Text};
use flame_spec::Unit;
use std::alloc::Global;

/// The line of the last of these tokens; 1 where there are none.
fn last_line(tokens: &[Token]) -> u32
    ensures { result ≡ last_line tokens.now }
{
    match tokens.last() {
        Some(token) => token.line,
        None => 1,
    }
}

/// The line of the token of this number; at their end that of the last one, or 1.
fn line_at(tokens: &[Token], number: u32) -> u32
    ensures { result ≡ line_at tokens.now number }
{
    match tokens.get(number as usize) {
        Some(token) => token.line,
        None => last_line(tokens),
    }
}

/// The tokens of a text.
fn tokens_of(alloc: Global, bytes: &[u8]) -> Result<Seq<Token>, Fail<TextFault>>
    requires { length bytes.now ≤ 4194304 }
    ensures lexes { LexesAs bytes.now result }
    ensures few { IfOk result (λ tokens. length tokens ≤ length bytes.now) }
{
    match lex(alloc, bytes) {
        Ok(tokens) => Ok(tokens),
        Err(Fail::Fault(fault)) => Err(Fail::Fault(TextFault::Lex(fault))),
        Err(Fail::NoMemory) => Err(Fail::NoMemory),
    }
}

/// The C functions that tokens spell.
fn parsed(alloc: Global, tokens: &[Token]) -> Result<Unit, Fail<TextFault>>
    requires { length tokens.now < 2 ^ 32 }
    ensures { ParsesAs tokens.now result }
{
    match parse(alloc, tokens) {
        Ok(unit) => Ok(unit),
        Err(Fail::Fault(fault)) => {
            let line = line_at(tokens, fault.token());
            Err(Fail::Fault(TextFault::Parse(line, fault)))
        }
        Err(Fail::NoMemory) => Err(Fail::NoMemory),
    }
}

/// The C functions that a text spells.
#[tactic(auto, using(crate::proofs::TextSteps::text_is_read, crate::proofs::TextSteps::text_is_not_lexed))]
fn unit_of(alloc: Global, bytes: &[u8]) -> Result<Unit, Fail<TextFault>>
    requires { length bytes.now ≤ 4194304 }
    ensures { ReadsAs bytes.now result }
{
    let tokens = tokens_of(alloc, bytes)?;
    parsed(alloc, tokens.items())
}

/// Why loading ends where the text of the function file of that name has this fault.
fn refusal(alloc: Global, name: &str, fault: TextFault) -> Result<LoadFault, NoMemory>
    ensures { IfOk result (λ told. told ≡ text_refusal name.now fault) }
{
    let name = Text::of(alloc, name)?;
    match fault {
        TextFault::Lex(fault) => Ok(LoadFault::Lex(name, fault)),
        TextFault::Parse(line, fault) => Ok(LoadFault::Parse(name, line, fault)),
    }
}

/// The C functions that the text of the function file of that name spells.
#[tactic(auto, using(crate::proofs::TextSteps::text_is_given, crate::proofs::TextSteps::text_is_refused))]
fn spelled(alloc: Global, name: &str, bytes: &[u8]) -> Result<Unit, LoadFail>
    requires { length bytes.now ≤ 4194304 }
    ensures gives { (read : Reader) → ReadsTexts read
        → Gives (λ unit. unit) result (spelled_in name.now (read bytes.now)) }
    ensures told { IfErr result IsTold }
    ensures calm { IfErr result (λ fail. ¬ IsReadFault fail) }
{
    one_text_reading();
    match unit_of(alloc, bytes) {
        Ok(unit) => Ok(unit),
        Err(Fail::Fault(fault)) => Err(LoadFail::Refused(refusal(alloc, name, fault)?)),
        Err(Fail::NoMemory) => Err(LoadFail::NoMemory),
    }
}

/// The bytes of the function file of that name.
fn source_bytes<D: Depot>(alloc: Global, depot: &mut D, name: &str) -> Result<Blob, LoadFail>
    ensures gives { (told : Files) → (D.seen depot.old).files ≡ Some told
        → Gives (λ bytes. bytes) result
        (input (λ fault. of_files (file_refusal name.now fault)) name.now (file_in told source_limit name.now)) }
    ensures short { IfOk result (λ bytes. length bytes ≤ 4194304) }
    ensures told { IfErr result IsTold }
    ensures read_fault { IfErr result (λ fail. IsReadFault fail
        → ReadFailed (D.seen depot.old) (D.seen depot.new)) }
    ensures reads { OnlyReads (D.seen depot.old) (D.seen depot.new) }
{
    match file_in(depot, name, SOURCE_LIMIT) {
        Ok(bytes) => Ok(bytes),
        Err(fail) => Err(load_fail(alloc, name, fail)),
    }
}

/// The C functions in the function file of that name.
#[tactic(auto, using(crate::proofs::Leftovers::passes_first, crate::proofs::Leftovers::gives_behind))]
fn unit_in<D: Depot>(alloc: Global, depot: &mut D, name: &str) -> Result<Unit, LoadFail>
    ensures gives { (told : Files) (read : Reader) → (D.seen depot.old).files ≡ Some told → ReadsTexts read
        → Gives (λ unit. unit) result (unit_in read told name.now) }
    ensures told { IfErr result IsTold }
    ensures read_fault { IfErr result (λ fail. IsReadFault fail
        → ReadFailed (D.seen depot.old) (D.seen depot.new)) }
    ensures reads { OnlyReads (D.seen depot.old) (D.seen depot.new) }
{
    let bytes = source_bytes(alloc, depot, name)?;
    spelled(alloc, name, bytes.bytes())
}

/// The C functions in the function files of these names, file by file. One file is held at a time.
pub(crate) fn units_in<D: Depot>(
    alloc: Global,
    depot: &mut D,
    names: &[Text],
) -> Result<Vec<Unit>, LoadFail>
    ensures gives { (told : Files) (read : Reader) → (D.seen depot.old).files ≡ Some told → ReadsTexts read
        → Gives (λ units. units.items) result (units_in read told names.now) }
    ensures paired { IfOk result (λ units. length units.items ≡ length names.now) }
    ensures told { IfErr result IsTold }
    ensures read_fault { IfErr result (λ fail. IsReadFault fail
        → ReadFailed (D.seen depot.old) (D.seen depot.new)) }
    ensures reads { OnlyReads (D.seen depot.old) (D.seen depot.new) }
{
    let mut units = Vec::new(alloc);
    for name in names {
        let unit = unit_in(alloc, depot, name.as_str())?;
        units.push(unit)?;
    }
    Ok(units)
}
