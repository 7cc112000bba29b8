//! Which helpers a helper's body calls: in the list of each of them the helper is marked.

ghost use Rattle.std.specs.Prelude.{◌≡◌, ℕ, ◌<◌, IfSome, OnOk, length, map, option_map};
ghost use Rattle.flame_spec.specs.CallFaults.{deed_of, called_by};
ghost use Rattle.flame_spec.specs.Definitions.{helper_named};
ghost use Rattle.flame_spec.specs.HelperFaults.{is_call_of, stored_calls, optional_calls, items_call, step_calls};
ghost use Rattle.flame_spec.specs.HelperFaults.{statement_calls, statements_call, arms_call};
ghost use Rattle.flame_spec.specs.Seen.{stored, declared, assigned, statement, statements, arms};
ghost use Rattle.flame_calls.specs.CallMarks.{AreMarked, called_number};
ghost use Rattle.flame_graph.specs.Marks.{is_it};
ghost use Rattle.flame_lookup.specs.Sources.{context_at};
ghost use Rattle.flame_lookup.specs.WordsFound.{deed_found};

use flame_graph::Successors;
use flame_lookup::{Act, Words};
use flame_rows::NoMemory;
use flame_spec::{Arm, Assign, Item, Stmt, Value};

/// The number of the helper that is called, if one is.
fn number_of(act: Option<Act<'_>>) -> Option<u32>
    ensures { result ≡ called_number (option_map deed_found act.entry) }
{
    match act {
        Some(Act::Calls(helper)) => Some(helper.number),
        _ => None,
    }
}

/// The number of the helper that a call statement of the word calls, if it calls one.
fn deed_number(word: &str, words: &Words<'_, '_>) -> Option<u32>
    ensures { result ≡ called_number (deed_of (context_at words.now) word.now) }
{
    number_of(words.deed(word))
}

/// The number of the helper that a call of the word as a value calls, if it calls one.
fn value_number(word: &str, words: &Words<'_, '_>) -> Option<u32>
    ensures { result ≡ called_number (called_by (helper_named (context_at words.now).helpers word.now)) }
{
    number_of(words.called(word))
}

/// Marks the caller in the list of the helper of this number, if there is one.
fn mark(called: Option<u32>, caller: u32, lists: &mut [Successors]) -> Result<(), NoMemory>
    requires { IfSome called (λ h. h < length lists.old) }
    ensures { OnOk result (AreMarked caller (λ h. is_it h called) lists.old lists.new) }
{
    match called {
        None => Ok(()),
        Some(helper) => {
            lists[helper as usize].mark(caller)?;
            Ok(())
        }
    }
}

/// Marks what a call statement of the word calls.
fn mark_word(
    word: &str,
    words: &Words<'_, '_>,
    caller: u32,
    lists: &mut [Successors],
) -> Result<(), NoMemory>
    requires { length lists.old ≡ length (context_at words.now).helpers }
    ensures { OnOk result (
        AreMarked caller (λ h. is_call_of h (deed_of (context_at words.now) word.now)) lists.old lists.new) }
{
    mark(deed_number(word, words), caller, lists)
}

/// Marks what the value calls.
fn mark_value(
    value: &Value,
    words: &Words<'_, '_>,
    caller: u32,
    lists: &mut [Successors],
) -> Result<(), NoMemory>
    requires { length lists.old ≡ length (context_at words.now).helpers }
    ensures { OnOk result (
        AreMarked caller (λ h. stored_calls (context_at words.now) h (stored value.now)) lists.old lists.new) }
{
    match value {
        Value::Plain(_) => Ok(()),
        Value::Call(_, word, _) => mark(value_number(word.as_str(), words), caller, lists),
    }
}

/// Marks what the value calls, if there is one.
fn mark_optional(
    value: &Option<Value>,
    words: &Words<'_, '_>,
    caller: u32,
    lists: &mut [Successors],
) -> Result<(), NoMemory>
    requires { length lists.old ≡ length (context_at words.now).helpers }
    ensures { OnOk result (
        AreMarked caller
        (λ h. optional_calls (context_at words.now) h (option_map stored value.now)) lists.old lists.new) }
{
    match value {
        None => Ok(()),
        Some(value) => mark_value(value, words, caller, lists),
    }
}

/// Marks what the items' values call.
fn mark_items(
    items: &[Item],
    words: &Words<'_, '_>,
    caller: u32,
    lists: &mut [Successors],
) -> Result<(), NoMemory>
    requires { length lists.old ≡ length (context_at words.now).helpers }
    ensures { OnOk result (
        AreMarked caller (λ h. items_call (context_at words.now) h (map declared items.now)) lists.old lists.new) }
{
    for item in items {
        mark_optional(&item.value, words, caller, lists)?;
    }
    Ok(())
}

/// Marks what the step calls, if there is one.
fn mark_step(
    step: &Option<Assign>,
    words: &Words<'_, '_>,
    caller: u32,
    lists: &mut [Successors],
) -> Result<(), NoMemory>
    requires { length lists.old ≡ length (context_at words.now).helpers }
    ensures { OnOk result (
        AreMarked caller
        (λ h. step_calls (context_at words.now) h (option_map assigned step.now)) lists.old lists.new) }
{
    match step {
        None => Ok(()),
        Some(a) => mark_value(&a.value, words, caller, lists),
    }
}

/// Marks what the statement calls.
#[cycle(tree)]
fn mark_statement(
    one: &Stmt,
    words: &Words<'_, '_>,
    caller: u32,
    lists: &mut [Successors],
) -> Result<(), NoMemory>
    requires { length lists.old ≡ length (context_at words.now).helpers }
    ensures { OnOk result (
        AreMarked caller (λ h. statement_calls (context_at words.now) h (statement one.now)) lists.old lists.new) }
{
    match one {
        Stmt::Empty => Ok(()),
        Stmt::Declare(items) => mark_items(items.items(), words, caller, lists),
        Stmt::Assign(a) => mark_value(&a.value, words, caller, lists),
        Stmt::Call(_, word, _) => mark_word(word.as_str(), words, caller, lists),
        Stmt::Block(body) => mark_statements(body.items(), words, caller, lists),
        Stmt::If(arms, otherwise) => {
            mark_arms(arms.items(), words, caller, lists)?;
            mark_statements(otherwise.items(), words, caller, lists)?;
            Ok(())
        }
        Stmt::While(_, _, body) => mark_statements(body.items(), words, caller, lists),
        Stmt::For(_, head, body) => {
            let head = head.get();
            mark_statements(head.first.items(), words, caller, lists)?;
            mark_step(&head.step, words, caller, lists)?;
            mark_statements(body.items(), words, caller, lists)?;
            Ok(())
        }
        Stmt::Do(_, body, _) => mark_statements(body.items(), words, caller, lists),
        Stmt::Loop(_, _, body, _, _) => mark_statements(body.items(), words, caller, lists),
        Stmt::Return(_) => Ok(()),
        Stmt::Break(_) => Ok(()),
        Stmt::Continue(_) => Ok(()),
    }
}

/// Marks what the statements call.
#[cycle(tree)]
pub fn mark_statements(
    body: &[Stmt],
    words: &Words<'_, '_>,
    caller: u32,
    lists: &mut [Successors],
) -> Result<(), NoMemory>
    requires { length lists.old ≡ length (context_at words.now).helpers }
    ensures { OnOk result (
        AreMarked caller (λ h. statements_call (context_at words.now) h (statements body.now)) lists.old lists.new) }
{
    for one in body {
        mark_statement(one, words, caller, lists)?;
    }
    Ok(())
}

/// Marks what the bodies call.
#[cycle(tree)]
fn mark_arms(
    bodies: &[Arm],
    words: &Words<'_, '_>,
    caller: u32,
    lists: &mut [Successors],
) -> Result<(), NoMemory>
    requires { length lists.old ≡ length (context_at words.now).helpers }
    ensures { OnOk result (
        AreMarked caller (λ h. arms_call (context_at words.now) h (arms bodies.now)) lists.old lists.new) }
{
    for arm in bodies {
        mark_statements(arm.body.items(), words, caller, lists)?;
    }
    Ok(())
}
