//! The listings of codes.

ghost use Rattle.std.specs.Prelude.{◌≡◌, ◌++◌, OnOk, codes, string_bytes};
ghost use Rattle.std.specs.Fmt.{signed_decimal};
ghost use Rattle.flame_spec.specs.Lists.{each};
ghost use Rattle.flame_report.specs.CodeListings.{after_blanks, arguments, instr_line};

use flame_code::Instr;
use flame_rows::NoMemory;
use itoa::Buffer;
use std::fmt::Write;

/// Adds these numbers, each after a blank.
fn push_after_blanks(text: &mut String, numbers: &[u32]) -> Result<(), NoMemory>
    ensures { OnOk result (string_bytes text.new ≡ string_bytes text.old ++ after_blanks numbers.now) }
{
    for number in numbers {
        let mut digits = Buffer::new();
        text.push_str(" ")?;
        text.push_str(digits.format(*number))?;
    }
    Ok(())
}

/// Adds this number of 32 bits after a blank.
fn push_number(text: &mut String, number: i32) -> Result<(), NoMemory>
    ensures { OnOk result (string_bytes text.new ≡ string_bytes text.old ++ (codes " " ++ signed_decimal number)) }
{
    let mut digits = Buffer::new();
    let number = digits.format(number);
    write!(text, " {number}")?;
    Ok(())
}

/// Adds the arguments of the instruction, each after a blank.
// ORDER INSTRUCTIONS, in groups by how many arguments there are.
fn push_arguments(text: &mut String, instr: &Instr) -> Result<(), NoMemory>
    ensures { OnOk result (string_bytes text.new ≡ string_bytes text.old ++ arguments instr.now) }
{
    match instr {
        Instr::Push(number) => push_number(text, *number),
        Instr::Loc(a)
        | Instr::SetLoc(a)
        | Instr::Mem(a)
        | Instr::SetMem(a)
        | Instr::Const(a)
        | Instr::Neg(a)
        | Instr::Add(a)
        | Instr::Sub(a)
        | Instr::Mul(a)
        | Instr::Div(a)
        | Instr::Rem(a)
        | Instr::Jump(a)
        | Instr::JumpZero(a)
        | Instr::JumpNotZero(a)
        | Instr::Pay(a)
        | Instr::Enter(a)
        | Instr::Leave(a)
        | Instr::Send(a)
        | Instr::Bear(a) => push_after_blanks(text, &[*a]),
        Instr::Field(a, b) => push_after_blanks(text, &[*a, *b]),
        Instr::MemAt(a, b, c)
        | Instr::SetMemAt(a, b, c)
        | Instr::Next(a, b, c)
        | Instr::Call(a, b, c) => push_after_blanks(text, &[*a, *b, *c]),
        Instr::FieldAt(a, b, c, d) => push_after_blanks(text, &[*a, *b, *c, *d]),
        Instr::Dup
        | Instr::Drop
        | Instr::Iter
        | Instr::Not
        | Instr::Lt
        | Instr::Gt
        | Instr::Le
        | Instr::Ge
        | Instr::Eq
        | Instr::Ne
        | Instr::Return => Ok(()),
    }
}

/// Adds the line of the instruction at this place.
fn push_instr(text: &mut String, at: usize, instr: &Instr) -> Result<(), NoMemory>
    ensures { OnOk result (string_bytes text.new ≡ string_bytes text.old ++ instr_line at instr.now) }
{
    let mut digits = Buffer::new();
    let number = digits.format(at);
    let name = instr.name();
    write!(text, "{number} {name}")?;
    push_arguments(text, instr)?;
    text.push_str("\n")?;
    Ok(())
}

/// Adds the lines of these instructions.
pub(crate) fn push_instrs(text: &mut String, instrs: &[Instr]) -> Result<(), NoMemory>
    ensures { OnOk result (string_bytes text.new ≡ string_bytes text.old ++ each instr_line instrs.now) }
{
    for (at, instr) in instrs.iter().enumerate() {
        push_instr(text, at, instr)?;
    }
    Ok(())
}
