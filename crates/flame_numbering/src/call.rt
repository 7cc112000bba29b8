//! Calls and their arguments.

ghost use Rattle.std.specs.Prelude.{◌≡◌, ◌==◌, [], drop, not, IfErr, IfOk, OnOk, option_map};
ghost use Rattle.flame_spec.specs.CallFaults.{argument_faults, arguments_faults, whole_faults};
ghost use Rattle.flame_spec.specs.CallFaults.{call_faults, called_faults, deed_faults};
ghost use Rattle.flame_spec.specs.CallFaults.{count, is_length, length_of_argument, length_given, places_of};
ghost use Rattle.flame_spec.specs.CallFaults.{sends_no_output, sets_array, wanted};
ghost use Rattle.flame_spec.specs.FirstFaults.{FailsFirst};
ghost use Rattle.flame_spec.specs.Seen.{expression as seen, expressions};
ghost use Rattle.flame_spec.specs.Trees.{call as call_of, called as called_of};
ghost use Rattle.flame_lookup.specs.Sources.{context_at};
ghost use Rattle.flame_lookup.specs.WordsFound.{deed_found, given_found};
ghost use Rattle.flame_body.specs.NumberedTrees.{numbered, numbered_parts, numbered_statement, numbered_stored};
ghost use Rattle.flame_body.specs.WordSlots.{deed_slot, helper_at};
ghost use Rattle.flame_numbering.specs.Arguments.{next_length, number_called};
ghost use Rattle.flame_numbering.specs.WordPlaces.{words_at};

use crate::expression::expression;
use crate::fault::{fault, refuse};
use crate::name::{getter, input_read, row, slot, span_of, visible};
use crate::spot::Spot;
use flame_body::{SlotDeed, SlotExpr, SlotStmt, SlotValue};
use flame_lookup::{Act, Meant, Words};
use flame_rows::{Fail, Seq};
use flame_spec::{CheckFault, CheckKind, Expr, Variable};
use std::alloc::Global;
use std::slice;

// ---- arguments

/// The length of the array that the model gives, where it gives one.
fn length_given(given: Option<Meant<'_>>) -> Option<u32>
    ensures { result ≡ length_given (option_map given_found given.entry) }
{
    match given {
        None => None,
        Some(Meant::Memory(found)) => found.item.length,
        Some(Meant::Constant(_)) => None,
        Some(Meant::Iteration) => None,
    }
}

/// The length of the array that an argument is: an array of the memory in capitals, or one of a message's row.
fn length_of(words: &Words<'_, '_>, e: &Expr) -> Option<u32>
    ensures { result ≡ length_of_argument (context_at words.now) (seen e.now) }
{
    match e {
        Expr::Number(_) => None,
        Expr::Name(_, word) => length_given(words.given(word.as_str())),
        Expr::Field(_, word, variable) => match words.member(word.as_str(), variable.as_str()) {
            None => None,
            Some(found) => found.item.length,
        },
        Expr::Get(_, _) => None,
        Expr::At(_, _, _) => None,
        Expr::FieldAt(_, _, _, _) => None,
        Expr::Unary(_, _) => None,
        Expr::Chain(_, _) => None,
        Expr::All(_) => None,
        Expr::Any(_) => None,
    }
}

/// Whether it is that length.
fn is_length(length: u32, other: Option<u32>) -> bool
    ensures { result ≡ is_length length other }
{
    match other {
        None => false,
        Some(other) => other == length,
    }
}

/// An argument that may be an array without an index.
fn whole(
    alloc: Global,
    words: &Words<'_, '_>,
    spot: &Spot<'_>,
    e: &Expr,
) -> Result<SlotExpr, Fail<CheckFault>>
    ensures clean { OnOk result (whole_faults (context_at words.now) spot.now (seen e.now) ≡ []) }
    ensures stands { IfOk result (λ slots. slots ≡ numbered (words_at words.now) spot.now (seen e.now)) }
    ensures first { IfErr result (FailsFirst (whole_faults (context_at words.now) spot.now (seen e.now))) }
{
    match e {
        Expr::Name(line, word) => {
            visible(alloc, words, spot, *line, word.as_str())?;
            Ok(SlotExpr::Name(slot(words, spot, word.as_str())))
        }
        Expr::Field(line, word, variable) => {
            row(alloc, words, spot, *line, word.as_str(), variable.as_str())?;
            let span = span_of(words.member(word.as_str(), variable.as_str()));
            Ok(SlotExpr::Field(input_read(words, word.as_str()), span))
        }
        Expr::Get(line, word) => {
            let column = getter(alloc, words, *line, word.as_str())?;
            Ok(SlotExpr::Get(column))
        }
        Expr::Number(n) => Ok(SlotExpr::Number(*n)),
        Expr::At(_, _, _) => expression(alloc, words, spot, e),
        Expr::FieldAt(_, _, _, _) => expression(alloc, words, spot, e),
        Expr::Unary(_, _) => expression(alloc, words, spot, e),
        Expr::Chain(_, _) => expression(alloc, words, spot, e),
        Expr::All(_) => expression(alloc, words, spot, e),
        Expr::Any(_) => expression(alloc, words, spot, e),
    }
}

/// An argument of the call of this word, for a single variable or for an array of this length.
fn argument(
    alloc: Global,
    words: &Words<'_, '_>,
    spot: &Spot<'_>,
    line: u32,
    word: &str,
    length: Option<u32>,
    e: &Expr,
) -> Result<SlotExpr, Fail<CheckFault>>
    ensures clean { OnOk result
        (argument_faults (context_at words.now) spot.now line word.now length (seen e.now) ≡ []) }
    ensures stands { IfOk result (λ slots. slots ≡ numbered (words_at words.now) spot.now (seen e.now)) }
    ensures first { IfErr result
        (FailsFirst (argument_faults (context_at words.now) spot.now line word.now length (seen e.now))) }
{
    match length {
        None => expression(alloc, words, spot, e),
        Some(length) => {
            let slots = whole(alloc, words, spot, e)?;
            let test = !is_length(length, length_of(words, e));
            refuse(alloc, words, test, CheckKind::WrongLength, line, word)?;
            Ok(slots)
        }
    }
}

/// The length of the array that the argument of this number is for, where it is for one.
fn length_at(variables: &[Variable], number: usize) -> Option<u32>
    ensures { result ≡ next_length (drop number variables.now) }
{
    if number < variables.len() {
        return variables[number].length;
    }
    None
}

/// The arguments of the call of this word, each for its variable; those beyond the variables are values.
fn arguments(
    alloc: Global,
    words: &Words<'_, '_>,
    spot: &Spot<'_>,
    line: u32,
    word: &str,
    variables: &[Variable],
    es: &[Expr],
) -> Result<Seq<SlotExpr>, Fail<CheckFault>>
    ensures clean { OnOk result (arguments_faults (context_at words.now) spot.now line word.now
        variables.now (expressions es.now) ≡ []) }
    ensures stands { IfOk result (λ slots.
        slots ≡ numbered_parts (words_at words.now) spot.now (expressions es.now)) }
    ensures first { IfErr result (FailsFirst (arguments_faults (context_at words.now) spot.now line word.now
        variables.now (expressions es.now))) }
{
    let mut slots = Vec::new(alloc);
    for (i, e) in es.iter().enumerate() {
        let length = length_at(variables, i);
        let slot = argument(alloc, words, spot, line, word, length, e)?;
        slots.push(slot)?;
    }
    Ok(Seq::of(slots))
}

// ---- what is called

/// Whether it sets an array.
fn sets_array(act: Act<'_>) -> bool
    ensures { result ≡ sets_array (deed_found act.entry) }
{
    match act {
        Act::Sets(found) => found.item.length.is_some(),
        Act::Sends(_) => false,
        Act::Bears(_) => false,
        Act::Calls(_) => false,
    }
}

/// How many arguments it takes.
fn wanted(act: Act<'_>) -> usize
    ensures { result ≡ wanted (deed_found act.entry) }
{
    match act {
        Act::Sets(_) => 1,
        Act::Sends(found) => found.item.variables.len(),
        Act::Bears(found) => found.item.memory.len(),
        Act::Calls(helper) => helper.function.def.parameters.len(),
    }
}

/// Whether it takes another number of arguments.
fn has_wrong_count(act: Act<'_>, es: &[Expr]) -> bool
    ensures { result ≡ not (count (expressions es.now) == wanted (deed_found act.entry)) }
{
    es.len() != wanted(act)
}

/// Whether it sends a message that is no output of the function.
fn sends_no_output(words: &Words<'_, '_>, act: Act<'_>) -> bool
    ensures { result ≡ sends_no_output (context_at words.now) (deed_found act.entry) }
{
    match act {
        Act::Sets(_) => false,
        Act::Sends(found) => !words.is_output(found.item),
        Act::Bears(_) => false,
        Act::Calls(_) => false,
    }
}

/// The variables whose values the arguments are, where it sets or adds something.
fn places(act: Act<'_>) -> &[Variable]
    ensures { result.now ≡ places_of (deed_found act.entry) }
{
    match act {
        Act::Sets(found) => slice::from_ref(found.item),
        Act::Sends(found) => found.item.variables.items(),
        Act::Bears(found) => found.item.memory.items(),
        Act::Calls(_) => &[],
    }
}

/// What a call on this line does; of nothing a call of the first helper.
fn deed_slot(line: u32, found: Option<Act<'_>>) -> SlotDeed
    ensures { result ≡ deed_slot line (option_map deed_found found.entry) }
{
    match found {
        None => SlotDeed::Calls(line, 0),
        Some(Act::Sets(found)) => SlotDeed::Sets(found.at),
        Some(Act::Sends(found)) => SlotDeed::Sends(found.at),
        Some(Act::Bears(found)) => SlotDeed::Bears(found.at),
        Some(Act::Calls(helper)) => SlotDeed::Calls(line, helper.number),
    }
}

/// The number of the helper that is called; of nothing the first.
fn number_called(found: Option<Act<'_>>) -> u32
    ensures { result ≡ number_called (option_map deed_found found.entry) }
{
    match found {
        None => 0,
        Some(Act::Sets(_)) => 0,
        Some(Act::Sends(_)) => 0,
        Some(Act::Bears(_)) => 0,
        Some(Act::Calls(helper)) => helper.number,
    }
}

/// The number of the helper that is called as a value.
fn helper_number(words: &Words<'_, '_>, word: &str) -> u32
    ensures { result ≡ helper_at (words_at words.now) word.now }
{
    number_called(words.called(word))
}

// ---- calls

/// The arguments of a call of this word that does this.
fn acted(
    alloc: Global,
    words: &Words<'_, '_>,
    spot: &Spot<'_>,
    act: Act<'_>,
    line: u32,
    word: &str,
    es: &[Expr],
) -> Result<Seq<SlotExpr>, Fail<CheckFault>>
    ensures clean { OnOk result (deed_faults (context_at words.now) spot.now (Some (deed_found act.entry)) line word.now
        (expressions es.now) ≡ []) }
    ensures stands { IfOk result (λ slots.
        slots ≡ numbered_parts (words_at words.now) spot.now (expressions es.now)) }
    ensures first { IfErr result (FailsFirst (deed_faults (context_at words.now) spot.now
        (Some (deed_found act.entry)) line word.now (expressions es.now))) }
{
    let test = sets_array(act);
    refuse(alloc, words, test, CheckKind::NeedsIndex, line, word)?;
    let test = has_wrong_count(act, es);
    refuse(alloc, words, test, CheckKind::WrongCount, line, word)?;
    let test = sends_no_output(words, act);
    refuse(alloc, words, test, CheckKind::NotOutput, line, word)?;
    let slots = arguments(alloc, words, spot, line, word, places(act), es)?;
    Ok(slots)
}

/// The arguments of a call of this word that does this, or nothing.
fn done(
    alloc: Global,
    words: &Words<'_, '_>,
    spot: &Spot<'_>,
    found: Option<Act<'_>>,
    line: u32,
    word: &str,
    es: &[Expr],
) -> Result<Seq<SlotExpr>, Fail<CheckFault>>
    ensures clean { OnOk result (deed_faults (context_at words.now) spot.now (option_map deed_found found.entry) line
        word.now (expressions es.now) ≡ []) }
    ensures stands { IfOk result (λ slots.
        slots ≡ numbered_parts (words_at words.now) spot.now (expressions es.now)) }
    ensures first { IfErr result (FailsFirst (deed_faults (context_at words.now) spot.now
        (option_map deed_found found.entry) line word.now (expressions es.now))) }
{
    match found {
        None => {
            let kind = CheckKind::UnknownCall;
            Err(fault(alloc, kind, words.file(), line, word))
        }
        Some(act) => acted(alloc, words, spot, act, line, word, es),
    }
}

/// A call statement.
pub(crate) fn call(
    alloc: Global,
    words: &Words<'_, '_>,
    spot: &Spot<'_>,
    line: u32,
    word: &str,
    es: &[Expr],
) -> Result<SlotStmt, Fail<CheckFault>>
    ensures clean { OnOk result
        (call_faults (context_at words.now) spot.now line word.now (expressions es.now) ≡ []) }
    ensures stands { IfOk result (λ slots. slots
        ≡ numbered_statement (words_at words.now) spot.now (call_of line word.now (expressions es.now))) }
    ensures first { IfErr result
        (FailsFirst (call_faults (context_at words.now) spot.now line word.now (expressions es.now))) }
{
    let found = words.deed(word);
    let arguments = done(alloc, words, spot, found, line, word, es)?;
    Ok(SlotStmt::Call(deed_slot(line, found), arguments))
}

/// A call as a value.
pub(crate) fn called(
    alloc: Global,
    words: &Words<'_, '_>,
    spot: &Spot<'_>,
    line: u32,
    word: &str,
    es: &[Expr],
) -> Result<SlotValue, Fail<CheckFault>>
    ensures clean { OnOk result
        (called_faults (context_at words.now) spot.now line word.now (expressions es.now) ≡ []) }
    ensures stands { IfOk result (λ slots. slots
        ≡ numbered_stored (words_at words.now) spot.now (called_of line word.now (expressions es.now))) }
    ensures first { IfErr result
        (FailsFirst (called_faults (context_at words.now) spot.now line word.now (expressions es.now))) }
{
    let found = words.called(word);
    let arguments = done(alloc, words, spot, found, line, word, es)?;
    Ok(SlotValue::Call(line, helper_number(words, word), arguments))
}
