//! The memories of agents in version 1.

ghost use Rattle.std.specs.Prelude.{◌≡◌, ◌++◌, ◌+◌, ◌∷◌, length, drop, IfSome, OnSome};
ghost use Rattle.json.specs.Token.{key, begin_object, end_object};
ghost use Rattle.json.specs.Tree.{json_tokens};
ghost use Rattle.flame_spec.specs.Columns.{width, width_by};
ghost use Rattle.flame_tokens.specs.MemberTrees.{keyed, variable_tree, variable_trees, memory_tree, AllInts, IsWide};

use crate::numbers::{list, number};
use flame_spec::Variable;
use json::{Reader, Token};
use std::alloc::Global;

/// Passes the key that comes next, where it is this one.
pub(crate) fn passes(reader: &mut Reader<'_>, name: &str) -> Option<()>
    ensures { OnSome result (reader.old ≡ key name.now ∷ reader.new) }
{
    match reader.next()? {
        Token::Key(key) => if key == name { Some(()) } else { None },
        _ => None,
    }
}

/// Passes the brace that opens an object, where it comes next.
pub(crate) fn opens(reader: &mut Reader<'_>) -> Option<()>
    ensures { OnSome result (reader.old ≡ begin_object ∷ reader.new) }
{
    match reader.next()? {
        Token::BeginObject => Some(()),
        _ => None,
    }
}

/// Passes the brace that closes an object, where it comes next.
pub(crate) fn closes(reader: &mut Reader<'_>) -> Option<()>
    ensures { OnSome result (reader.old ≡ end_object ∷ reader.new) }
{
    match reader.next()? {
        Token::EndObject => Some(()),
        _ => None,
    }
}

/// Adds the numbers of a variable without a length, or of this length, that come next.
fn add_value(
    alloc: Global,
    reader: &mut Reader<'_>,
    array: Option<u32>,
    row: &mut Vec<i32>,
) -> Option<()>
    ensures tokens { OnSome result (
        reader.old ≡ json_tokens (variable_tree array (drop (length row.old.items) row.new.items)) ++ reader.new) }
    ensures added { OnSome result (
        row.new.items ≡ row.old.items ++ drop (length row.old.items) row.new.items) }
    ensures count { OnSome result (
        length row.new.items ≡ length row.old.items + width_by array) }
    ensures ints { OnSome result (AllInts row.old.items → AllInts row.new.items) }
{
    match array {
        None => {
            let value = number(reader)?;
            row.push(value).ok()?;
            Some(())
        }
        Some(count) => {
            let values = list(alloc, reader, count as usize)?;
            row.extend_from_slice(values.as_slice()).ok()?;
            Some(())
        }
    }
}

/// The numbers of these variables, each behind its name, that come next.
fn values(alloc: Global, reader: &mut Reader<'_>, variables: &[Variable]) -> Option<Vec<i32>>
    ensures tokens { IfSome result (λ row.
        reader.old ≡ keyed (variable_trees variables.now row.items) ++ reader.new) }
    ensures wide { IfSome result (λ row. IsWide (width variables.now) row.items) }
{
    let mut row = Vec::new(alloc);
    for variable in variables {
        passes(reader, variable.name.as_str())?;
        add_value(alloc, reader, variable.length, &mut row)?;
    }
    Some(row)
}

/// The memory of these variables, in declared order, that comes next.
#[tactic(auto, using(crate::proofs::TokenLists::object_closed))]
pub(crate) fn memory(
    alloc: Global,
    reader: &mut Reader<'_>,
    variables: &[Variable],
) -> Option<Vec<i32>>
    ensures tokens { IfSome result (λ row.
        reader.old ≡ json_tokens (memory_tree variables.now row.items) ++ reader.new) }
    ensures wide { IfSome result (λ row. IsWide (width variables.now) row.items) }
{
    opens(reader)?;
    let row = values(alloc, reader, variables)?;
    closes(reader)?;
    Some(row)
}
