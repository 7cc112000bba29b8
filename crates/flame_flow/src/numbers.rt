//! Lists of numbers.

ghost use Rattle.std.specs.Prelude.{◌≡◌, ℕ, nat_lt, length, IfOk, [], map, slice_index, slice_index_or};
ghost use Rattle.flame_spec.specs.Below.{is_in};

use flame_rows::{NoMemory, number};
use std::alloc::Global;

/// `count` zeros.
pub(crate) fn zeros(alloc: Global, count: usize) -> Result<Vec<u32>, NoMemory>
    ensures long { IfOk result (λ numbers. length numbers.items ≡ count) }
    ensures zero { IfOk result (λ numbers. (place : ℕ) → slice_index numbers.items place ≡ 0) }
{
    let numbers = vec![in alloc; 0u32; count]?;
    Ok(numbers)
}

/// The numbers below this one, in order. `NoMemory` comes also where 32 bits cannot number them.
pub(crate) fn numbers_below(alloc: Global, count: usize) -> Result<Vec<u32>, NoMemory>
    ensures { IfOk result (λ numbers. (place : ℕ) → is_in place numbers.items ≡ nat_lt place count) }
{
    let mut numbers = Vec::new(alloc);
    for place in 0..count {
        let next = number(place)?;
        numbers.push(next)?;
    }
    Ok(numbers)
}

/// The number at this place; 0 where the list has no such place.
pub(crate) fn number_at(numbers: &[u32], place: u32) -> u32
    ensures { result ≡ slice_index numbers.now place }
{
    match numbers.get(place as usize) {
        Some(found) => *found,
        None => 0,
    }
}

/// The list at this place; none where there is no such place.
pub(crate) fn list_at(lists: &[Vec<u32>], place: u32) -> &[u32]
    ensures { result.now ≡ slice_index_or (map (λ list. list.items) lists.now) place [] }
{
    match lists.get(place as usize) {
        Some(list) => list.as_slice(),
        None => &[],
    }
}
