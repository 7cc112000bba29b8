//! Tables from words to what they stand for.

ghost use Rattle.std.specs.Prelude.{◌≡◌, ℕ, List, Some, IfOk, OnOk, option_map, map, if◌then◌else◌, string_bytes};
ghost use Rattle.std.specs.HashMap.{get_by_text};
ghost use Rattle.std.specs.Str.{bytes_eq};
ghost use Rattle.flame_spec.specs.Columns.{width, columned_where};
ghost use Rattle.flame_spec.specs.Lists.{numbered_where};
ghost use Rattle.flame_lookup.specs.WordsFound.{item_found, helper_found, definition_found};
ghost use Rattle.flame_lookup.specs.WrittenForms.{written};

use crate::forms::Form;
use crate::found::{CFunction, Found, Helper};
use flame_rows::{NoMemory, Text, number};
use flame_spec::{AgentType, Input, MessageType, Variable};
use std::alloc::Global;
use std::collections::HashMap;

/// For each word what it stands for.
pub type Table<V> = HashMap<String, V>;

/// What words name.
pub(crate) trait Named {
    ghost name: { Self → List ℕ };

    /// The name that words give it.
    fn name(&self) -> &str
        ensures { result.now ≡ name self.now };
}

impl Named for Text {
    ghost name = { λ text. text };

    fn name(&self) -> &str {
        self.as_str()
    }
}

impl Named for MessageType {
    ghost name = { λ message. message.name };

    fn name(&self) -> &str {
        self.name.as_str()
    }
}

impl Named for AgentType {
    ghost name = { λ agent. agent.name };

    fn name(&self) -> &str {
        self.name.as_str()
    }
}

impl Named for Input {
    ghost name = { λ input. input.message };

    fn name(&self) -> &str {
        self.message.as_str()
    }
}

/// From now on the word stands for the value.
pub fn put<V: Drop>(table: &mut Table<V>, word: String, value: V) -> Result<(), NoMemory>
    ensures { OnOk result ((q : List ℕ)
        → get_by_text table.new q ≡ (if bytes_eq (string_bytes word) q then Some value else get_by_text table.old q)) }
{
    table.insert(word, value)?;
    Ok(())
}

/// What the word stands for.
pub(crate) fn look<V: Copy>(table: &Table<V>, word: &str) -> Option<V>
    ensures { result ≡ get_by_text table.now word.now }
{
    match table.get(word) {
        Some(value) => Some(*value),
        None => None,
    }
}

/// For each word the first item that it names in this way, with its number.
pub(crate) fn numbered<'a, T: Named>(
    alloc: Global,
    form: Form,
    items: &'a [T],
) -> Result<Table<Found<'a, T>>, NoMemory>
    ensures { IfOk result (λ table. (word : List ℕ)
        → option_map item_found (get_by_text table word)
        ≡ numbered_where (λ item. bytes_eq (written form (T.name item)) word) items.now) }
{
    let mut table = HashMap::new(alloc);
    let mut left = items.len();
    while left > 0 {
        left -= 1;
        let item = &items[left];
        let at = number(left)?;
        let word = form.written(alloc, item.name())?;
        put(&mut table, word, Found { at, item })?;
    }
    Ok(table)
}

/// For each name the first of these messages that has it, with its number.
pub fn messages_by_name<'a>(
    alloc: Global,
    messages: &'a [MessageType],
) -> Result<Table<Found<'a, MessageType>>, NoMemory>
    ensures { IfOk result (λ table. (name : List ℕ)
        → option_map item_found (get_by_text table name)
        ≡ numbered_where (λ message. bytes_eq message.name name) messages.now) }
{
    numbered(alloc, Form::Same, messages)
}

/// The width of a row of these variables. `NoMemory` comes where it has more than 32 bits.
pub fn width(variables: &[Variable]) -> Result<u32, NoMemory>
    ensures { IfOk result (λ total. total ≡ width variables.now) }
{
    let mut total = 0u32;
    for variable in variables {
        match total.checked_add(variable.width()) {
            Some(more) => total = more,
            None => return Err(NoMemory),
        }
    }
    Ok(total)
}

/// For each word the first variable that it names in this way, with its column.
pub(crate) fn columned<'a>(
    alloc: Global,
    form: Form,
    variables: &'a [Variable],
) -> Result<Table<Found<'a, Variable>>, NoMemory>
    ensures { IfOk result (λ table. (word : List ℕ)
        → option_map item_found (get_by_text table word)
        ≡ columned_where (λ variable. bytes_eq (written form variable.name) word) variables.now) }
{
    let mut table = HashMap::new(alloc);
    let mut at = width(variables)?;
    let mut left = variables.len();
    while left > 0 {
        left -= 1;
        let item = &variables[left];
        at -= item.width();
        let word = form.written(alloc, item.name.as_str())?;
        put(&mut table, word, Found { at, item })?;
    }
    Ok(table)
}

/// For each name the first C function that has it, with its number among these.
pub(crate) fn c_function_table<'a>(
    alloc: Global,
    functions: &[CFunction<'a>],
) -> Result<Table<Helper<'a>>, NoMemory>
    ensures { IfOk result (λ table. (word : List ℕ)
        → option_map helper_found (get_by_text table word)
        ≡ numbered_where (λ d. bytes_eq d.name word) (map definition_found functions.now)) }
{
    let mut table = HashMap::new(alloc);
    let mut left = functions.len();
    while left > 0 {
        left -= 1;
        let function = functions[left];
        let number = number(left)?;
        let word = String::from_str(alloc, function.def.name.as_str())?;
        put(&mut table, word, Helper { number, function })?;
    }
    Ok(table)
}
