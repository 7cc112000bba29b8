//! Loops: their START and FINISH, and jumps out of them.

ghost use Rattle.std.specs.Prelude.{◌≡◌, [], IfErr, IfOk, OnOk};
ghost use Rattle.flame_spec.specs.FirstFaults.{FailsFirst};
ghost use Rattle.flame_spec.specs.LookUps.{message_looped};
ghost use Rattle.flame_spec.specs.Scopes.{messages_at, over_message};
ghost use Rattle.flame_spec.specs.StatementFaults.{start_faults, finish_faults, opened, jump_faults};
ghost use Rattle.flame_lookup.specs.Sources.{context_at};
ghost use Rattle.flame_body.specs.WordSlots.{input_looped};
ghost use Rattle.flame_numbering.specs.WordPlaces.{words_at};

use crate::fault::{fault, refuse};
use crate::spot::Spot;
use flame_lookup::Words;
use flame_rows::Fail;
use flame_spec::{CheckFault, CheckKind};
use std::alloc::Global;

/// `break` or `continue`.
pub(crate) fn jump(
    alloc: Global,
    words: &Words<'_, '_>,
    spot: &Spot<'_>,
    line: u32,
    keyword: &str,
) -> Result<(), Fail<CheckFault>>
    ensures clean { OnOk result (jump_faults (context_at words.now) spot.now line keyword.now ≡ []) }
    ensures first { IfErr result (FailsFirst (jump_faults (context_at words.now) spot.now line keyword.now)) }
{
    refuse(
        alloc,
        words,
        spot.is_outside(),
        CheckKind::StrayBreak,
        line,
        keyword,
    )
}

/// A message loop that opens.
#[derive(Clone, Copy)]
pub(crate) struct Opening<'a> {
    /// The number of the function's input.
    pub(crate) input: u32,
    /// The name of the message.
    pub(crate) over: &'a str,
}

/// START of a loop.
pub(crate) fn start<'a>(
    alloc: Global,
    words: &Words<'_, 'a>,
    spot: &Spot<'_>,
    line: u32,
    word: &str,
) -> Result<Opening<'a>, Fail<CheckFault>>
    ensures clean { OnOk result (start_faults (context_at words.now) spot.now
        (message_looped (messages_at (context_at words.now)) word.now) line word.now ≡ []) }
    ensures stands { IfOk result (λ start. start.input ≡ input_looped (words_at words.now) word.now) }
    ensures over { IfOk result (λ start.
        over_message start.over.now ≡ opened (message_looped (messages_at (context_at words.now)) word.now)) }
    ensures first { IfErr result (FailsFirst (start_faults (context_at words.now) spot.now
        (message_looped (messages_at (context_at words.now)) word.now) line word.now)) }
{
    let Some(message) = words.looped(word) else {
        let kind = CheckKind::UnknownName;
        return Err(fault(alloc, kind, words.file(), line, word));
    };
    let input = words.input(message.item);
    refuse(
        alloc,
        words,
        input.is_none(),
        CheckKind::NotInput,
        line,
        word,
    )?;
    refuse(
        alloc,
        words,
        spot.is_open_over(message.item),
        CheckKind::NestedSame,
        line,
        word,
    )?;
    Ok(Opening {
        input: match input {
            None => 0,
            Some(input) => input.at,
        },
        over: message.item.name.as_str(),
    })
}

/// FINISH of a loop, after START with this name.
pub(crate) fn finish(
    alloc: Global,
    words: &Words<'_, '_>,
    start: &str,
    line: u32,
    word: &str,
) -> Result<(), Fail<CheckFault>>
    ensures clean { OnOk result (finish_faults (context_at words.now) start.now line word.now ≡ []) }
    ensures first { IfErr result (FailsFirst (finish_faults (context_at words.now) start.now line word.now)) }
{
    let test = start != word;
    refuse(alloc, words, test, CheckKind::LoopMismatch, line, word)
}
