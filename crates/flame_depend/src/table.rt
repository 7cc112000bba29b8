//! Tables from names to the functions that have to do with them.

ghost use Rattle.std.specs.Prelude.{◌≡◌, ℕ, List, [], ◌∷◌, ◌++◌, OnOk, if◌then◌else◌};
ghost use Rattle.std.specs.Str.{bytes_eq};
ghost use Rattle.flame_depend.specs.FunctionTables.{listed};

use flame_rows::NoMemory;
use std::alloc::Global;
use std::collections::HashMap;

/// For each name some functions.
pub type Table = HashMap<String, Vec<u32>>;

/// Notes the function under the name.
pub fn note(alloc: Global, table: &mut Table, name: &str, function: u32) -> Result<(), NoMemory>
    ensures { OnOk result (
        (q : List ℕ)
        → listed table.new q
        ≡ (if bytes_eq q name.now then listed table.old q ++ function ∷ [] else listed table.old q)) }
{
    let key = String::from_str(alloc, name)?;
    table.entry(key)?.or_default().push(function)?;
    Ok(())
}

/// The functions under the name.
pub fn under<'t>(table: &'t Table, name: &str) -> &'t [u32]
    ensures { result.now ≡ listed table.now name.now }
{
    match table.get(name) {
        Some(functions) => functions.as_slice(),
        None => &[],
    }
}
