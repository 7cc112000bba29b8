//! The agents of a population.

ghost use Rattle.std.specs.Prelude.{◌≡◌, ◌<◌, [], length, replicate, IfSome, OnSome};
ghost use Rattle.flame_tokens.specs.AgentTrees.{IsDealt, IsAdded, AreRead};
ghost use Rattle.flame_rows.specs.RowVectors.{rows_of};

use crate::members::{agent, name};
use crate::memories::opens;
use crate::numbers::begins;
use crate::types::Types;
use flame_rows::Row;
use json::Reader;
use std::alloc::Global;

/// No agents, for so many types.
fn nobody(alloc: Global, types: usize) -> Option<Vec<Vec<Row>>>
    ensures { IfSome result (λ dealt. rows_of dealt ≡ replicate types []) }
{
    let mut dealt = Vec::new(alloc);
    for _turn in 0..types {
        dealt.push(Vec::new(alloc)).ok()?;
    }
    Some(dealt)
}

/// Adds a row to those of the type of this number.
fn add_row(dealt: &mut Vec<Vec<Row>>, number: usize, row: Row) -> Option<()>
    requires { number < length dealt.old.items }
    ensures { OnSome result (IsDealt number row (rows_of dealt.old) (rows_of dealt.new)) }
{
    let Ok(()) = dealt[number].push(row) else {
        return None;
    };
    Some(())
}

/// Adds the agent that comes next behind its opening brace to those of its type, whose number it gives; that is looked for
/// at a place first.
fn add_agent(
    alloc: Global,
    reader: &mut Reader<'_>,
    types: &Types<'_>,
    place: usize,
    dealt: &mut Vec<Vec<Row>>,
) -> Option<usize>
    requires { length dealt.old.items ≡ length types.now }
    ensures { OnSome result
        (IsAdded types.now reader.old reader.new (rows_of dealt.old) (rows_of dealt.new)) }
{
    let named = name(reader)?;
    let (number, kind) = types.find(named, place)?;
    let row = agent(alloc, reader, kind)?;
    add_row(dealt, number, row)?;
    Some(number)
}

/// The agents of each type that the list that comes next holds.
pub(crate) fn agents(
    alloc: Global,
    reader: &mut Reader<'_>,
    types: &Types<'_>,
) -> Option<Vec<Vec<Row>>>
    ensures { IfSome result (λ dealt. AreRead types.now reader.old reader.new (rows_of dealt)) }
{
    begins(reader)?;
    let mut dealt = nobody(alloc, types.count())?;
    let mut place = 0;
    for _turn in 0..u64::MAX {
        if reader.take_end_array() {
            return Some(dealt);
        }
        opens(reader)?;
        place = add_agent(alloc, reader, types, place, &mut dealt)?;
    }
    None
}
