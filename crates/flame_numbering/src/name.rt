//! What names stand for.

ghost use Rattle.std.specs.Prelude.{◌≡◌, ◌++◌, [], IfErr, IfOk, OnOk, option_map};
ghost use Rattle.flame_spec.specs.ExpressionFaults.{unknown_faults, bare_faults, indexed_faults, names_array, get_faults, getter_faults};
ghost use Rattle.flame_spec.specs.ExpressionFaults.{row_faults, field_faults, field_at_faults, is_found_array};
ghost use Rattle.flame_spec.specs.FirstFaults.{FailsFirst};
ghost use Rattle.flame_spec.specs.LookUps.{memory_got};
ghost use Rattle.flame_spec.specs.Scopes.{memory_at};
ghost use Rattle.flame_lookup.specs.Sources.{context_at};
ghost use Rattle.flame_lookup.specs.WordsFound.{item_found};
ghost use Rattle.flame_body.specs.WordSlots.{slot_at, cells_at, span_found, cells_found, field_span, field_cells, got_column, input_read};
ghost use Rattle.flame_numbering.specs.WordPlaces.{words_at};

use crate::fault::{fault, refuse};
use crate::spot::Spot;
use flame_body::{Cells, Slot, Span};
use flame_lookup::{Found, Meant, Words};
use flame_rows::Fail;
use flame_spec::{CheckFault, CheckKind, Variable};
use std::alloc::Global;

/// Where the variable stands that was found; of none the first column.
pub(crate) fn span_of(found: Option<Found<'_, Variable>>) -> Span
    ensures { result ≡ span_found (option_map item_found found.entry) }
{
    match found {
        None => Span {
            column: 0,
            length: None,
        },
        Some(found) => Span {
            column: found.at,
            length: found.item.length,
        },
    }
}

/// Where the array stands that was found; of none no element.
pub(crate) fn cells_of(found: Option<Found<'_, Variable>>) -> Cells
    ensures { result ≡ cells_found (option_map item_found found.entry) }
{
    match found {
        None => Cells {
            column: 0,
            length: 0,
        },
        Some(found) => Cells {
            column: found.at,
            length: match found.item.length {
                None => 0,
                Some(length) => length,
            },
        },
    }
}

/// Whether an array was found.
pub(crate) fn is_array(found: Option<Found<'_, Variable>>) -> bool
    ensures { result ≡ is_found_array (option_map item_found found.entry) }
{
    match found {
        None => false,
        Some(found) => found.item.length.is_some(),
    }
}

/// The word stands for something there.
pub(crate) fn visible(
    alloc: Global,
    words: &Words<'_, '_>,
    spot: &Spot<'_>,
    line: u32,
    word: &str,
) -> Result<(), Fail<CheckFault>>
    ensures clean { OnOk result (unknown_faults (context_at words.now) spot.now line word.now ≡ []) }
    ensures first { IfErr result (FailsFirst (unknown_faults (context_at words.now) spot.now line word.now)) }
{
    let is_visible = !spot.is_own(word) && (words.given(word).is_some() || spot.is_local(word));
    refuse(
        alloc,
        words,
        !is_visible,
        CheckKind::UnknownName,
        line,
        word,
    )
}

/// Whether the word names an array of the memory, in capitals.
pub(crate) fn names_array(words: &Words<'_, '_>, word: &str) -> bool
    ensures { result ≡ names_array (context_at words.now) word.now }
{
    match words.given(word) {
        Some(Meant::Memory(found)) => found.item.length.is_some(),
        Some(Meant::Constant(_)) => false,
        Some(Meant::Iteration) => false,
        None => false,
    }
}

/// What the name stands for.
pub(crate) fn slot(words: &Words<'_, '_>, spot: &Spot<'_>, word: &str) -> Slot
    ensures { result ≡ slot_at (words_at words.now) spot.now word.now }
{
    if let Some(number) = spot.number(word) {
        return Slot::Local(number);
    }
    match words.given(word) {
        Some(Meant::Memory(found)) => Slot::Memory(Span {
            column: found.at,
            length: found.item.length,
        }),
        Some(Meant::Constant(number)) => Slot::Constant(number),
        Some(Meant::Iteration) => Slot::Iteration,
        None => Slot::Iteration,
    }
}

/// Where the array of the memory stands that a name with an index names.
pub(crate) fn cells(words: &Words<'_, '_>, word: &str) -> Cells
    ensures { result ≡ cells_at (words_at words.now) word.now }
{
    match words.given(word) {
        Some(Meant::Memory(found)) => cells_of(Some(found)),
        Some(Meant::Constant(_)) => cells_of(None),
        Some(Meant::Iteration) => cells_of(None),
        None => cells_of(None),
    }
}

/// A name without an index.
pub(crate) fn single(
    alloc: Global,
    words: &Words<'_, '_>,
    spot: &Spot<'_>,
    line: u32,
    word: &str,
) -> Result<Slot, Fail<CheckFault>>
    ensures clean { OnOk result (unknown_faults (context_at words.now) spot.now line word.now
        ++ bare_faults (context_at words.now) line word.now ≡ []) }
    ensures stands { IfOk result (λ slot. slot ≡ slot_at (words_at words.now) spot.now word.now) }
    ensures first { IfErr result (FailsFirst (unknown_faults (context_at words.now) spot.now line word.now
        ++ bare_faults (context_at words.now) line word.now)) }
{
    visible(alloc, words, spot, line, word)?;
    refuse(
        alloc,
        words,
        names_array(words, word),
        CheckKind::NeedsIndex,
        line,
        word,
    )?;
    Ok(slot(words, spot, word))
}

/// A name with an index, but for the index itself.
pub(crate) fn array(
    alloc: Global,
    words: &Words<'_, '_>,
    spot: &Spot<'_>,
    line: u32,
    word: &str,
) -> Result<Cells, Fail<CheckFault>>
    ensures clean { OnOk result (unknown_faults (context_at words.now) spot.now line word.now
        ++ indexed_faults (context_at words.now) line word.now ≡ []) }
    ensures stands { IfOk result (λ cells. cells ≡ cells_at (words_at words.now) word.now) }
    ensures first { IfErr result (FailsFirst (unknown_faults (context_at words.now) spot.now line word.now
        ++ indexed_faults (context_at words.now) line word.now)) }
{
    visible(alloc, words, spot, line, word)?;
    refuse(
        alloc,
        words,
        !names_array(words, word),
        CheckKind::NotArray,
        line,
        word,
    )?;
    Ok(cells(words, word))
}

/// The form `get_x()`, where x may be an array: the column of the memory variable.
pub(crate) fn getter(
    alloc: Global,
    words: &Words<'_, '_>,
    line: u32,
    word: &str,
) -> Result<u32, Fail<CheckFault>>
    ensures clean { OnOk result (getter_faults (context_at words.now)
        (memory_got (memory_at (context_at words.now)) word.now) line word.now ≡ []) }
    ensures stands { IfOk result (λ column. column ≡ got_column (words_at words.now) word.now) }
    ensures first { IfErr result (FailsFirst (getter_faults (context_at words.now)
        (memory_got (memory_at (context_at words.now)) word.now) line word.now)) }
{
    let found = words.got(word);
    refuse(
        alloc,
        words,
        found.is_none(),
        CheckKind::UnknownCall,
        line,
        word,
    )?;
    Ok(span_of(found).column)
}

/// The form `get_x()`: the column of the memory variable.
pub(crate) fn got(
    alloc: Global,
    words: &Words<'_, '_>,
    line: u32,
    word: &str,
) -> Result<u32, Fail<CheckFault>>
    ensures clean { OnOk result (get_faults (context_at words.now) line word.now ≡ []) }
    ensures stands { IfOk result (λ column. column ≡ got_column (words_at words.now) word.now) }
    ensures first { IfErr result (FailsFirst (get_faults (context_at words.now) line word.now)) }
{
    let column = getter(alloc, words, line, word)?;
    refuse(
        alloc,
        words,
        is_array(words.got(word)),
        CheckKind::NeedsIndex,
        line,
        word,
    )?;
    Ok(column)
}

/// The number of the input whose row the word reads.
pub(crate) fn input_read(words: &Words<'_, '_>, word: &str) -> u32
    ensures { result ≡ input_read (words_at words.now) word.now }
{
    match words.read(word) {
        None => 0,
        Some(message) => match words.input(message.item) {
            None => 0,
            Some(input) => input.at,
        },
    }
}

/// The form `word->variable`, but for an index.
pub(crate) fn row(
    alloc: Global,
    words: &Words<'_, '_>,
    spot: &Spot<'_>,
    line: u32,
    word: &str,
    variable: &str,
) -> Result<(), Fail<CheckFault>>
    ensures clean { OnOk result (row_faults (context_at words.now) spot.now line word.now variable.now ≡ []) }
    ensures first { IfErr result
        (FailsFirst (row_faults (context_at words.now) spot.now line word.now variable.now)) }
{
    let Some(message) = words.read(word) else {
        return Err(fault(alloc, CheckKind::UnknownName, words.file(), line, word));
    };
    refuse(
        alloc,
        words,
        !spot.is_open_over(message.item),
        CheckKind::OutsideLoop,
        line,
        word,
    )?;
    refuse(
        alloc,
        words,
        words.member(word, variable).is_none(),
        CheckKind::UnknownName,
        line,
        variable,
    )
}

/// The form `word->variable` without an index: where the variable stands in the row.
pub(crate) fn field(
    alloc: Global,
    words: &Words<'_, '_>,
    spot: &Spot<'_>,
    line: u32,
    word: &str,
    variable: &str,
) -> Result<Span, Fail<CheckFault>>
    ensures clean { OnOk result (field_faults (context_at words.now) spot.now line word.now variable.now ≡ []) }
    ensures stands { IfOk result (λ span. span ≡ field_span (words_at words.now) word.now variable.now) }
    ensures first { IfErr result
        (FailsFirst (field_faults (context_at words.now) spot.now line word.now variable.now)) }
{
    row(alloc, words, spot, line, word, variable)?;
    let found = words.member(word, variable);
    refuse(
        alloc,
        words,
        is_array(found),
        CheckKind::NeedsIndex,
        line,
        variable,
    )?;
    Ok(span_of(found))
}

/// The form `word->variable` with an index, but for the index itself: where the array stands in the row.
pub(crate) fn field_array(
    alloc: Global,
    words: &Words<'_, '_>,
    spot: &Spot<'_>,
    line: u32,
    word: &str,
    variable: &str,
) -> Result<Cells, Fail<CheckFault>>
    ensures clean { OnOk result (field_at_faults (context_at words.now) spot.now line word.now variable.now ≡ []) }
    ensures stands { IfOk result (λ cells. cells ≡ field_cells (words_at words.now) word.now variable.now) }
    ensures first { IfErr result
        (FailsFirst (field_at_faults (context_at words.now) spot.now line word.now variable.now)) }
{
    row(alloc, words, spot, line, word, variable)?;
    let found = words.member(word, variable);
    refuse(
        alloc,
        words,
        !is_array(found),
        CheckKind::NotArray,
        line,
        variable,
    )?;
    Ok(cells_of(found))
}
