//! The instructions of a body.

ghost use Rattle.std.specs.Prelude.{◌≡◌, ◌<◌, ◌^◌, length, IfOk};
ghost use Rattle.flame_compile.specs.Emit.{emitted};

use crate::block_size::block_size;
use crate::places::{here, put};
use crate::statement::write_block;
use flame_body::SlotStmt;
use flame_code::Instr;
use flame_rows::{NoMemory, Seq};
use std::alloc::Global;

/// The instructions of these statements and of the end of the function, fewer than 2^32. There is NoMemory where they
/// would be more, or where no memory is found.
pub(crate) fn emit(alloc: Global, tree: &[SlotStmt]) -> Result<Seq<Instr>, NoMemory>
    ensures code { IfOk result (λ code. code ≡ emitted tree.now) }
    ensures few { IfOk result (λ code. length code < 2 ^ 32) }
{
    let end = block_size(tree)?;
    let mut out = Vec::new(alloc);
    write_block(&mut out, tree, end, end)?;
    put(&mut out, Instr::Push(0))?;
    put(&mut out, Instr::Return)?;
    here(&out)?;
    Ok(Seq::of(out))
}
