//! The agents of a population of version 2.

ghost use Rattle.std.specs.Prelude.{◌≡◌, ◌++◌, ◌∷◌, [], codes, true, IfSome, OnSome, All};
ghost use Rattle.std.specs.List.{AllZip};
ghost use Rattle.json.specs.Token.{key, string};
ghost use Rattle.json.specs.Tree.{json_tokens};
ghost use Rattle.flame_tokens.specs.NumberTrees.{row_tree, begun};
ghost use Rattle.flame_tokens.specs.MemberTrees.{IsWide};
ghost use Rattle.flame_rows.specs.RowVectors.{rows_of};
ghost use Rattle.flame_tokens.specs.BagTrees.{rows_tree, bag_tree, bag_trees, AreWide};
ghost use Rattle.flame_tokens.specs.PopulationTrees.{HasAgents};

use crate::members::name;
use crate::memories::{closes, opens, passes};
use crate::numbers::{begins, ends, fill};
use flame_lookup::width;
use flame_rows::Row;
use flame_spec::AgentType;
use json::Reader;
use std::alloc::Global;

/// The row of this width that comes next. Its numbers are gathered in the vector, whose others they replace.
#[inline(always)]
fn row(alloc: Global, reader: &mut Reader<'_>, wide: usize, numbers: &mut Vec<i32>) -> Option<Row>
    ensures tokens { IfSome result (λ row. reader.old ≡ json_tokens (row_tree row) ++ reader.new) }
    ensures wide { IfSome result (λ row. IsWide wide row) }
{
    numbers.clear();
    fill(reader, wide, numbers)?;
    Row::of_slice(alloc, numbers.as_slice()).ok()
}

/// The list of rows of this width that comes next.
fn rows(alloc: Global, reader: &mut Reader<'_>, wide: usize) -> Option<Vec<Row>>
    ensures tokens { IfSome result (λ rows. reader.old ≡ json_tokens (rows_tree rows.items) ++ reader.new) }
    ensures wide { IfSome result (λ rows. All (IsWide wide) rows.items) }
{
    begins(reader)?;
    let mut numbers = Vec::new(alloc);
    let mut rows = Vec::new(alloc);
    for _turn in 0..u64::MAX {
        if reader.take_end_array() {
            return Some(rows);
        }
        rows.push(row(alloc, reader, wide, &mut numbers)?).ok()?;
    }
    None
}

/// Passes the name that comes next, behind its key, where it is this one.
fn is_called(reader: &mut Reader<'_>, called: &str) -> Option<()>
    ensures { OnSome result (reader.old ≡ key (codes "name") ∷ string called.now ∷ reader.new) }
{
    if name(reader)? == called {
        Some(())
    } else {
        None
    }
}

/// The rows of the type's agents that come next behind the brace.
fn bag(alloc: Global, reader: &mut Reader<'_>, kind: &AgentType) -> Option<Vec<Row>>
    ensures tokens { IfSome result (λ rows. reader.old ≡ json_tokens (bag_tree kind.now rows.items) ++ reader.new) }
    ensures wide { IfSome result (λ rows. AreWide kind.now rows.items) }
{
    let wide = width(kind.memory.items()).ok()?;
    opens(reader)?;
    is_called(reader, kind.name.as_str())?;
    passes(reader, "rows")?;
    let rows = rows(alloc, reader, wide as usize)?;
    closes(reader)?;
    Some(rows)
}

/// Adds the rows of a type.
fn add_bag(dealt: &mut Vec<Vec<Row>>, rows: Vec<Row>) -> Option<()>
    ensures { OnSome result (rows_of dealt.new ≡ rows_of dealt.old ++ rows.items ∷ []) }
{
    match dealt.push(rows) {
        Ok(()) => Some(()),
        Err(_) => None,
    }
}

/// The rows of the agents of each of these types that come next.
fn bags_in(alloc: Global, reader: &mut Reader<'_>, types: &[AgentType]) -> Option<Vec<Vec<Row>>>
    ensures tokens { IfSome result (λ dealt.
        reader.old ≡ begun (bag_trees types.now (rows_of dealt)) ++ reader.new) }
    ensures wide { IfSome result (λ dealt. AllZip AreWide types.now (rows_of dealt)) }
{
    let mut dealt = Vec::new(alloc);
    for kind in types {
        let rows = bag(alloc, reader, kind)?;
        add_bag(&mut dealt, rows)?;
    }
    Some(dealt)
}

/// The agents of each type that the list that comes next holds by their rows, each type once and in order.
pub(crate) fn bags(
    alloc: Global,
    reader: &mut Reader<'_>,
    types: &[AgentType],
) -> Option<Vec<Vec<Row>>>
    ensures { IfSome result (λ dealt.
        HasAgents true types.now reader.old reader.new (rows_of dealt)) }
{
    begins(reader)?;
    let dealt = bags_in(alloc, reader, types)?;
    ends(reader)?;
    Some(dealt)
}
