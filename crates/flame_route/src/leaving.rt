//! Functions by the state that they leave.

ghost use Rattle.std.specs.Prelude.{◌≡◌, ◌++◌, ℕ, List, [], ◌∷◌, IfOk, OnOk, length, map, if◌then◌else◌};
ghost use Rattle.std.specs.Str.{bytes_eq};
ghost use Rattle.flame_lookup.specs.WordTables.{numbers_under};

use flame_lookup::Table;
use flame_rows::{NoMemory, Seq, number};
use std::alloc::Global;

/// Notes the function under the state.
fn note(
    alloc: Global,
    table: &mut Table<Vec<u32>>,
    state: &str,
    function: u32,
) -> Result<(), NoMemory>
    ensures { OnOk result ((q : List ℕ) → numbers_under table.new q
        ≡ (if bytes_eq state.now q then numbers_under table.old q ++ function ∷ [] else numbers_under table.old q)) }
{
    let key = String::from_str(alloc, state)?;
    table.entry(key)?.or_default().push(function)?;
    Ok(())
}

/// The functions under the state.
fn under<'t>(table: &'t Table<Vec<u32>>, state: &str) -> &'t [u32]
    ensures { result.now ≡ numbers_under table.now state.now }
{
    match table.get(state) {
        Some(numbers) => numbers.as_slice(),
        None => &[],
    }
}

/// Notes the function under the state, and gives its choice: how many were noted there before.
pub(crate) fn next_choice(
    alloc: Global,
    table: &mut Table<Vec<u32>>,
    state: &str,
    function: u32,
) -> Result<u32, NoMemory>
    ensures choice { IfOk result (λ choice. choice ≡ length (numbers_under table.old state.now)) }
    ensures noted { OnOk result ((q : List ℕ) → numbers_under table.new q
        ≡ (if bytes_eq state.now q then numbers_under table.old q ++ function ∷ [] else numbers_under table.old q)) }
{
    let choice = number(under(table, state).len())?;
    note(alloc, table, state, function)?;
    Ok(choice)
}

/// A copy of the numbers.
fn copied(alloc: Global, numbers: &[u32]) -> Result<Seq<u32>, NoMemory>
    ensures { IfOk result (λ copy. copy ≡ numbers.now) }
{
    let mut copy = Vec::new(alloc);
    copy.extend_from_slice(numbers)?;
    Ok(Seq::of(copy))
}

/// For each of these states the functions under it.
pub(crate) fn lists_of(
    alloc: Global,
    table: &Table<Vec<u32>>,
    states: &[&str],
) -> Result<Vec<Seq<u32>>, NoMemory>
    ensures { IfOk result (λ lists.
        lists.items ≡ map (λ state. numbers_under table.now state.now) states.now) }
{
    let mut lists = Vec::new(alloc);
    for state in states {
        lists.push(copied(alloc, under(table, *state))?)?;
    }
    Ok(lists)
}
