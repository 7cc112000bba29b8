//! Valid codes.

ghost use Rattle.std.specs.Prelude.{◌≡◌, ◌<◌, ◌^◌, length};
ghost use Rattle.flame_code.specs.Routines.{locals_of, locals_for as needs};
ghost use Rattle.flame_code.specs.Validity.{IsValid};

use crate::instrs::Instr;
use flame_rows::Seq;
use flame_spec::Widths;
use std::marker::Model;

/// The code of a function or a helper, with the widths of the rows that it sees. Its runs miss no operand, never leave
/// it, read rows in their loops alone and spend fuel in each turn.
#[derive(Debug, Drop)]
pub struct Code {
    instrs: Seq<Instr>,
    widths: Widths,
    locals: usize,
}

impl Model for Code {
    ghost use Rattle.std.specs.Prelude.{◌≡◌, ◌<◌, ◌^◌, length};
    ghost use Rattle.flame_code.specs.Routines.{Routine, locals_of};
    ghost use Rattle.flame_code.specs.Validity.{IsValid};

    ghost Value = { Routine };

    ghost view = { λ c. record { instrs = c.instrs; widths = c.widths } };

    ghost invariant = { λ c. IsValid (record { instrs = c.instrs; widths = c.widths })
        × (length c.instrs < 2 ^ 32) × (c.locals ≡ locals_of c.instrs) };
}

/// How many locals there have to be for the instruction.
fn locals_for(instr: &Instr) -> usize
    ensures { result ≡ needs instr.now }
{
    match instr {
        Instr::Loc(local) => *local as usize + 1,
        Instr::SetLoc(local) => *local as usize + 1,
        _ => 0,
    }
}

/// How many locals there have to be for the instructions.
fn locals_in(instrs: &[Instr]) -> usize
    ensures { result ≡ locals_of instrs.now }
{
    let mut most = 0;
    for instr in instrs {
        most = locals_for(instr).max(most);
    }
    most
}

impl Code {
    /// The code of these instructions, which are valid and fewer than 2^32, with these widths. It takes no memory.
    pub fn make(instrs: Seq<Instr>, widths: Widths) -> Code
        requires valid { IsValid (record { instrs = instrs; widths = widths }) }
        requires few { length instrs < 2 ^ 32 }
        ensures { result ≡ record { instrs = instrs; widths = widths } }
    {
        let locals = locals_in(instrs.items());
        Code {
            instrs,
            widths,
            locals,
        }
    }

    /// The instructions in order, which are valid and fewer than 2^32.
    pub fn instrs(&self) -> &[Instr]
        ensures same { result.now ≡ self.now.instrs }
        ensures valid { IsValid self.now }
        ensures few { length self.now.instrs < 2 ^ 32 }
    {
        self.instrs.items()
    }

    /// The widths of the rows that it sees.
    pub fn widths(&self) -> &Widths
        ensures { result.now ≡ self.now.widths }
    {
        &self.widths
    }

    /// How many locals it has: one more than the greatest number of a local that it names, 0 without one.
    pub fn locals(&self) -> usize
        ensures { result ≡ locals_of self.now.instrs }
    {
        self.locals
    }
}
