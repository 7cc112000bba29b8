//! Instructions that are written one behind another, and places of a code.

ghost use Rattle.std.specs.Prelude.{◌≡◌, ◌+◌, length, IfOk};
ghost use Rattle.flame_compile.specs.Pieces.{one, written};

use flame_code::Instr;
use flame_rows::NoMemory;

/// The sum, where it is a place of a code.
pub(crate) fn sum(a: u32, b: u32) -> Result<u32, NoMemory>
    ensures { IfOk result (λ n. n ≡ a + b) }
{
    match a.checked_add(b) {
        Some(n) => Ok(n),
        None => Err(NoMemory),
    }
}

/// The sum of three, where it is a place of a code.
pub(crate) fn sum3(a: u32, b: u32, c: u32) -> Result<u32, NoMemory>
    ensures { IfOk result (λ n. n ≡ a + b + c) }
{
    sum(sum(a, b)?, c)
}

/// The place behind what is written.
pub(crate) fn here(out: &Vec<Instr>) -> Result<u32, NoMemory>
    ensures { IfOk result (λ n. n ≡ length out.now.items) }
{
    match u32::try_from(out.len()) {
        Ok(n) => Ok(n),
        Err(_) => Err(NoMemory),
    }
}

/// Writes one instruction.
#[tactic(auto, using(crate::proofs::Writing::written_one))]
pub(crate) fn put(out: &mut Vec<Instr>, instr: Instr) -> Result<(), NoMemory>
    ensures { IfOk result (λ _. out.new.items ≡ written (one instr) out.old.items) }
{
    out.push(instr)?;
    Ok(())
}
