//! The two faults.

ghost use Rattle.std.specs.Prelude.{◌≡◌, ℕ, [], ◌∷◌, ◌++◌, ◌+◌, ◌<◌, ◌^◌, nat_lt, IfOk, OnOk, Some};
ghost use Rattle.std.specs.Prelude.{length, map, slice_get, slice_index, string_bytes};
ghost use Rattle.std.specs.List.{All};
ghost use Rattle.flame_spec.specs.Below.{first_below};
ghost use Rattle.flame_spec.specs.HelperFaults.{arrows, cycle_text, recursive_at, deepest_calls, fault_at, deep_at};
ghost use Rattle.flame_lookup.specs.WordsFound.{definition_found};

use flame_lookup::CFunction;
use flame_rows::{NoMemory, Text};
use flame_spec::{CheckFault, CheckKind};
use std::alloc::Global;

/// Writes the names of these helpers, with ` -> ` behind each.
fn write_arrows(
    helpers: &[CFunction<'_>],
    numbers: &[u32],
    text: &mut String,
) -> Result<(), NoMemory>
    requires { All (λ h. h < length helpers.now) numbers.now }
    ensures { OnOk result (
        string_bytes text.new
        ≡ string_bytes text.old ++ arrows (map definition_found helpers.now) numbers.now) }
{
    for number in numbers {
        let helper = helpers[*number as usize];
        text.push_str(helper.def.name.as_str())?;
        text.push_str(" -> ")?;
    }
    Ok(())
}

/// The cycle written out, with its first helper again at its end.
fn write_cycle(alloc: Global, helpers: &[CFunction<'_>], cycle: &[u32]) -> Result<Text, NoMemory>
    requires some { 0 < length cycle.now }
    requires below { All (λ h. h < length helpers.now) cycle.now }
    ensures { IfOk result (λ text. text ≡ cycle_text (map definition_found helpers.now) cycle.now) }
{
    let mut text = String::new(alloc);
    write_arrows(helpers, cycle, &mut text)?;
    let first = helpers[cycle[0] as usize];
    text.push_str(first.def.name.as_str())?;
    Ok(Text::from(text))
}

/// The fault of a cycle, which stands at its first helper.
pub fn recursive_fault(
    alloc: Global,
    helpers: &[CFunction<'_>],
    cycle: &[u32],
) -> Result<CheckFault, NoMemory>
    requires some { 0 < length cycle.now }
    requires below { All (λ h. h < length helpers.now) cycle.now }
    ensures { IfOk result (λ fault. recursive_at (map definition_found helpers.now) cycle.now ≡ fault ∷ []) }
{
    let helper = helpers[cycle[0] as usize];
    Ok(CheckFault {
        kind: CheckKind::Recursive,
        file: helper.file,
        line: helper.def.line,
        name: write_cycle(alloc, helpers, cycle)?,
    })
}

/// The first helper that is more than 64 levels of calls high, where heights count from 0.
pub fn find_deep(heights: &[u32]) -> Option<u32>
    requires { length heights.now < 2 ^ 32 }
    ensures { result
        ≡ first_below (λ h. nat_lt deepest_calls (slice_index heights.now h + 1)) (length heights.now) }
{
    for (h, height) in heights.iter().enumerate() {
        if *height >= 64 {
            return Some(h as u32);
        }
    }
    None
}

/// The fault of a helper whose calls are too deep.
pub fn deep_fault(
    alloc: Global,
    helpers: &[CFunction<'_>],
    number: u32,
) -> Result<CheckFault, NoMemory>
    requires { number < length helpers.now }
    ensures { IfOk result (λ fault. deep_at (map definition_found helpers.now) (Some number) ≡ fault ∷ []) }
{
    let helper = helpers[number as usize];
    Ok(CheckFault {
        kind: CheckKind::DeepCalls,
        file: helper.file,
        line: helper.def.line,
        name: Text::of(alloc, helper.def.name.as_str())?,
    })
}
