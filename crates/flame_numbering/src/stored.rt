//! What is assigned to and stored, and names that are declared.

ghost use Rattle.std.specs.Prelude.{◌≡◌, ◌++◌, [], IfErr, IfOk, OnOk, map, option_map};
ghost use Rattle.flame_spec.specs.ExpressionFaults.{fault_where, unknown_faults};
ghost use Rattle.flame_spec.specs.FirstFaults.{FailsFirst};
ghost use Rattle.flame_spec.specs.Scopes.{after_items, after_name, after_parameters};
ghost use Rattle.flame_spec.specs.Seen.{assigned, declared, indexed, stored as stored_seen};
ghost use Rattle.flame_spec.specs.StatementFaults.{is_read_only as read_only, subscript_faults, declared_faults};
ghost use Rattle.flame_spec.specs.StatementFaults.{assignment_faults, optional_assignment_faults, stored_faults};
ghost use Rattle.flame_spec.specs.StatementFaults.{item_faults, items_faults};
ghost use Rattle.flame_spec.specs.StatementFaults.{optional_stored_faults, parameters_faults};
ghost use Rattle.flame_spec.specs.declared.faults.CheckKind.TheVariants.{ReadOnly};
ghost use Rattle.flame_lookup.specs.Sources.{context_at};
ghost use Rattle.flame_body.specs.NumberedTrees.{numbered_assignment, numbered_item, numbered_items};
ghost use Rattle.flame_body.specs.NumberedTrees.{numbered_stored, numbered_target};
ghost use Rattle.flame_body.specs.WordSlots.{target_at as target_there};
ghost use Rattle.flame_numbering.specs.WordPlaces.{words_at};

use crate::call::called;
use crate::expression::{expression, index};
use crate::fault::refuse;
use crate::name::{cells, names_array, visible};
use crate::spot::Spot;
use flame_body::{SlotAssign, SlotItem, SlotTarget, SlotValue};
use flame_lookup::{Meant, Words};
use flame_rows::{Fail, Seq};
use flame_spec::{Assign, CheckFault, CheckKind, Item, Parameter, Subscript, Value};
use std::alloc::Global;

/// Whether the word can only be read: a constant in capitals, or `iteration_loop`.
fn is_read_only(words: &Words<'_, '_>, word: &str) -> bool
    ensures { result ≡ read_only (context_at words.now) word.now }
{
    match words.given(word) {
        None => false,
        Some(Meant::Memory(_)) => false,
        Some(Meant::Constant(_)) => true,
        Some(Meant::Iteration) => true,
    }
}

/// What a name without an index is, as the target of an assignment.
fn target_at(words: &Words<'_, '_>, spot: &Spot<'_>, word: &str) -> SlotTarget
    ensures { result ≡ target_there (words_at words.now) spot.now word.now }
{
    if let Some(number) = spot.number(word) {
        return SlotTarget::Local(number);
    }
    match words.given(word) {
        Some(Meant::Memory(found)) => SlotTarget::Memory(found.at),
        Some(Meant::Constant(_)) => SlotTarget::Memory(0),
        Some(Meant::Iteration) => SlotTarget::Memory(0),
        None => SlotTarget::Memory(0),
    }
}

/// The index of the name that is assigned to, or that it has none.
fn target(
    alloc: Global,
    words: &Words<'_, '_>,
    spot: &Spot<'_>,
    line: u32,
    word: &str,
    subscript: &Option<Subscript>,
) -> Result<SlotTarget, Fail<CheckFault>>
    ensures clean { OnOk result
        (subscript_faults (context_at words.now) spot.now line word.now (option_map indexed subscript.now) ≡ []) }
    ensures stands { IfOk result (λ slots.
        slots ≡ numbered_target (words_at words.now) spot.now word.now (option_map indexed subscript.now)) }
    ensures first { IfErr result
        (FailsFirst (subscript_faults (context_at words.now) spot.now line word.now (option_map indexed subscript.now))) }
{
    match subscript {
        None => {
            let test = names_array(words, word);
            refuse(alloc, words, test, CheckKind::NeedsIndex, line, word)?;
            Ok(target_at(words, spot, word))
        }
        Some(subscript) => {
            let test = !names_array(words, word);
            refuse(alloc, words, test, CheckKind::NotArray, line, word)?;
            let index = index(alloc, words, spot, subscript)?;
            Ok(SlotTarget::Element(cells(words, word), index))
        }
    }
}

/// What an assignment or a declaration stores.
fn stored(
    alloc: Global,
    words: &Words<'_, '_>,
    spot: &Spot<'_>,
    value: &Value,
) -> Result<SlotValue, Fail<CheckFault>>
    ensures clean { OnOk result (stored_faults (context_at words.now) spot.now (stored_seen value.now) ≡ []) }
    ensures stands { IfOk result (λ slots.
        slots ≡ numbered_stored (words_at words.now) spot.now (stored_seen value.now)) }
    ensures first { IfErr result
        (FailsFirst (stored_faults (context_at words.now) spot.now (stored_seen value.now))) }
{
    match value {
        Value::Plain(e) => {
            let e = expression(alloc, words, spot, e)?;
            Ok(SlotValue::Plain(e))
        }
        Value::Call(line, word, es) => {
            called(alloc, words, spot, *line, word.as_str(), es.items())
        }
    }
}

// ---- assignments

/// The name that is assigned to, and its index.
fn assignee(
    alloc: Global,
    words: &Words<'_, '_>,
    spot: &Spot<'_>,
    line: u32,
    word: &str,
    subscript: &Option<Subscript>,
) -> Result<SlotTarget, Fail<CheckFault>>
    ensures clean { OnOk result (unknown_faults (context_at words.now) spot.now line word.now
        ++ fault_where (read_only (context_at words.now) word.now) (context_at words.now) ReadOnly line word.now
        ++ subscript_faults (context_at words.now) spot.now line word.now (option_map indexed subscript.now) ≡ []) }
    ensures stands { IfOk result (λ slots.
        slots ≡ numbered_target (words_at words.now) spot.now word.now (option_map indexed subscript.now)) }
    ensures first { IfErr result (FailsFirst (unknown_faults (context_at words.now) spot.now line word.now
        ++ fault_where (read_only (context_at words.now) word.now) (context_at words.now) ReadOnly line word.now
        ++ subscript_faults (context_at words.now) spot.now line word.now (option_map indexed subscript.now))) }
{
    visible(alloc, words, spot, line, word)?;
    let test = is_read_only(words, word);
    refuse(alloc, words, test, CheckKind::ReadOnly, line, word)?;
    let target = target(alloc, words, spot, line, word, subscript)?;
    Ok(target)
}

/// An assignment.
pub(crate) fn assignment(
    alloc: Global,
    words: &Words<'_, '_>,
    spot: &Spot<'_>,
    a: &Assign,
) -> Result<SlotAssign, Fail<CheckFault>>
    ensures clean { OnOk result (assignment_faults (context_at words.now) spot.now (assigned a.now) ≡ []) }
    ensures stands { IfOk result (λ slots.
        slots ≡ numbered_assignment (words_at words.now) spot.now (assigned a.now)) }
    ensures first { IfErr result (FailsFirst (assignment_faults (context_at words.now) spot.now (assigned a.now))) }
{
    let target = assignee(alloc, words, spot, a.line, a.name.as_str(), &a.subscript)?;
    let value = stored(alloc, words, spot, &a.value)?;
    Ok(SlotAssign {
        target,
        op: a.op,
        op_line: a.op_line,
        value,
    })
}

/// An assignment that may be missing.
pub(crate) fn optional_assignment(
    alloc: Global,
    words: &Words<'_, '_>,
    spot: &Spot<'_>,
    a: &Option<Assign>,
) -> Result<Option<SlotAssign>, Fail<CheckFault>>
    ensures clean { OnOk result
        (optional_assignment_faults (context_at words.now) spot.now (option_map assigned a.now) ≡ []) }
    ensures stands { IfOk result (λ slots.
        slots ≡ option_map (numbered_assignment (words_at words.now) spot.now) (option_map assigned a.now)) }
    ensures first { IfErr result
        (FailsFirst (optional_assignment_faults (context_at words.now) spot.now (option_map assigned a.now))) }
{
    match a {
        None => Ok(None),
        Some(a) => {
            let a = assignment(alloc, words, spot, a)?;
            Ok(Some(a))
        }
    }
}

// ---- declarations

/// A name that is declared.
fn fresh(
    alloc: Global,
    words: &Words<'_, '_>,
    spot: &Spot<'_>,
    line: u32,
    word: &str,
) -> Result<(), Fail<CheckFault>>
    ensures clean { OnOk result (declared_faults (context_at words.now) spot.now line word.now ≡ []) }
    ensures first { IfErr result (FailsFirst (declared_faults (context_at words.now) spot.now line word.now)) }
{
    let is_taken = spot.is_declared(word) || words.given(word).is_some();
    refuse(alloc, words, is_taken, CheckKind::Redeclared, line, word)
}

/// What an item stores, if it does.
fn initial(
    alloc: Global,
    words: &Words<'_, '_>,
    spot: &Spot<'_>,
    value: &Option<Value>,
) -> Result<Option<SlotValue>, Fail<CheckFault>>
    ensures clean { OnOk result
        (optional_stored_faults (context_at words.now) spot.now (option_map stored_seen value.now) ≡ []) }
    ensures stands { IfOk result (λ slots.
        slots ≡ option_map (numbered_stored (words_at words.now) spot.now) (option_map stored_seen value.now)) }
    ensures first { IfErr result
        (FailsFirst (optional_stored_faults (context_at words.now) spot.now (option_map stored_seen value.now))) }
{
    match value {
        None => Ok(None),
        Some(value) => {
            let value = stored(alloc, words, spot, value)?;
            Ok(Some(value))
        }
    }
}

/// A local that a declaration declares.
fn declaration<'a>(
    alloc: Global,
    words: &Words<'_, '_>,
    spot: &mut Spot<'a>,
    item: &'a Item,
) -> Result<SlotItem, Fail<CheckFault>>
    ensures clean { OnOk result (item_faults (context_at words.now) spot.old (declared item.now) ≡ []) }
    ensures stands { IfOk result (λ slots. slots ≡ numbered_item (words_at words.now) spot.old (declared item.now)) }
    ensures after { OnOk result (spot.new ≡ after_name spot.old item.now.name) }
    ensures first { IfErr result (FailsFirst (item_faults (context_at words.now) spot.old (declared item.now))) }
{
    let name = item.name.as_str();
    fresh(alloc, words, spot, item.line, name)?;
    let local = spot.count();
    let before = spot.swap_own(Some(name));
    let value = initial(alloc, words, spot, &item.value)?;
    spot.swap_own(before);
    spot.declare(name)?;
    Ok(SlotItem { local, value })
}

/// The items of a declaration, each of which sees those before it.
pub(crate) fn items<'a>(
    alloc: Global,
    words: &Words<'_, '_>,
    spot: &mut Spot<'a>,
    items: &'a [Item],
) -> Result<Seq<SlotItem>, Fail<CheckFault>>
    ensures clean { OnOk result (items_faults (context_at words.now) spot.old (map declared items.now) ≡ []) }
    ensures stands { IfOk result (λ slots.
        slots ≡ numbered_items (words_at words.now) spot.old (map declared items.now)) }
    ensures after { OnOk result (spot.new ≡ after_items spot.old (map declared items.now)) }
    ensures first { IfErr result
        (FailsFirst (items_faults (context_at words.now) spot.old (map declared items.now))) }
{
    let mut slots = Vec::new(alloc);
    for item in items {
        let slot = declaration(alloc, words, spot, item)?;
        slots.push(slot)?;
    }
    Ok(Seq::of(slots))
}

/// The parameters of a function, each of which sees those before it.
pub(crate) fn parameters<'a>(
    alloc: Global,
    words: &Words<'_, '_>,
    spot: &mut Spot<'a>,
    parameters: &'a [Parameter],
) -> Result<(), Fail<CheckFault>>
    ensures clean { OnOk result (parameters_faults (context_at words.now) spot.old parameters.now ≡ []) }
    ensures after { OnOk result (spot.new ≡ after_parameters spot.old parameters.now) }
    ensures first { IfErr result (FailsFirst (parameters_faults (context_at words.now) spot.old parameters.now)) }
{
    for parameter in parameters {
        let name = parameter.name.as_str();
        fresh(alloc, words, spot, parameter.line, name)?;
        spot.declare(name)?;
    }
    Ok(())
}
