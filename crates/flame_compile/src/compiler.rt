//! Checked bodies become valid code.

ghost use Rattle.std.specs.Prelude.{◌≡◌, IfOk};
ghost use Rattle.flame_compile.specs.Emit.{emitted};

use crate::emitter::emit;
use flame_body::Body;
use flame_code::Code;
use flame_rows::NoMemory;
use std::alloc::Global;

/// The code of a checked body, with the widths of the rows that it sees. There is NoMemory where it would have 2^32
/// instructions or more, or where no memory is found.
pub fn compile(alloc: Global, body: Body) -> Result<Code, NoMemory>
    ensures { IfOk result (λ code. code ≡ record { instrs = emitted body.tree; widths = body.widths }) }
{
    let instrs = emit(alloc, body.tree().items())?;
    Ok(Code::make(instrs, body.into_widths()))
}
