//! Names of files.

ghost use Rattle.std.specs.Prelude.{◌≡◌, IfOk, string_bytes};
ghost use Rattle.flame_driver.specs.RunScripts.{file_name};

use flame_rows::NoMemory;
use itoa::Buffer;
use std::alloc::Global;
use std::fmt::Write;

/// The name of the file of the iteration of this number: the prefix, the number and `.json`. The error is want of
/// memory.
pub fn file_name(alloc: Global, prefix: &str, itno: i32) -> Result<String, NoMemory>
    ensures { IfOk result (λ name. string_bytes name ≡ file_name prefix.now itno) }
{
    let mut numbers = Buffer::new();
    let number = numbers.format(itno);
    Ok(format!(in alloc; "{prefix}{number}.json")?)
}
