//! Listings of codes: an instruction a line, by its name and its arguments, behind the height of the stack before it. Where
//! inputs have a row there, their numbers stand behind the height, as in `0:0,1 Field 1 2`.

use flame_code::{Code, Instr, Label, labelled};
use flame_rows::Seq;
use flame_spec::Widths;
use std::alloc::{AllocError, Global};

/// The longest code of a case.
const LONGEST: usize = 1000;

/// The instruction of this name without arguments.
fn bare(name: &str) -> Option<Instr> {
    match name {
        "Dup" => Some(Instr::Dup),
        "Drop" => Some(Instr::Drop),
        "Iter" => Some(Instr::Iter),
        "Not" => Some(Instr::Not),
        "Lt" => Some(Instr::Lt),
        "Gt" => Some(Instr::Gt),
        "Le" => Some(Instr::Le),
        "Ge" => Some(Instr::Ge),
        "Eq" => Some(Instr::Eq),
        "Ne" => Some(Instr::Ne),
        "Return" => Some(Instr::Return),
        _ => None,
    }
}

/// The instruction of this name with one argument.
fn with_one(name: &str, first: u32) -> Option<Instr> {
    match name {
        "Loc" => Some(Instr::Loc(first)),
        "SetLoc" => Some(Instr::SetLoc(first)),
        "Mem" => Some(Instr::Mem(first)),
        "SetMem" => Some(Instr::SetMem(first)),
        "Const" => Some(Instr::Const(first)),
        "Neg" => Some(Instr::Neg(first)),
        "Add" => Some(Instr::Add(first)),
        "Sub" => Some(Instr::Sub(first)),
        "Mul" => Some(Instr::Mul(first)),
        "Div" => Some(Instr::Div(first)),
        "Rem" => Some(Instr::Rem(first)),
        "Jump" => Some(Instr::Jump(first)),
        "JumpZero" => Some(Instr::JumpZero(first)),
        "JumpNotZero" => Some(Instr::JumpNotZero(first)),
        "Pay" => Some(Instr::Pay(first)),
        "Enter" => Some(Instr::Enter(first)),
        "Leave" => Some(Instr::Leave(first)),
        "Send" => Some(Instr::Send(first)),
        "Bear" => Some(Instr::Bear(first)),
        _ => None,
    }
}

/// The instruction of this name with three arguments.
fn with_three(name: &str, first: u32, second: u32, third: u32) -> Option<Instr> {
    match name {
        "MemAt" => Some(Instr::MemAt(first, second, third)),
        "SetMemAt" => Some(Instr::SetMemAt(first, second, third)),
        "Next" => Some(Instr::Next(first, second, third)),
        "Call" => Some(Instr::Call(first, second, third)),
        _ => None,
    }
}

/// The instruction of this name with these arguments.
fn instr_of(name: &str, arguments: &[u32]) -> Option<Instr> {
    if arguments.is_empty() {
        return bare(name);
    }
    if arguments.len() == 1 {
        return with_one(name, arguments[0]);
    }
    if arguments.len() == 3 {
        return with_three(name, arguments[0], arguments[1], arguments[2]);
    }
    if arguments.len() == 2 && name == "Field" {
        return Some(Instr::Field(arguments[0], arguments[1]));
    }
    if arguments.len() == 4 && name == "FieldAt" {
        return Some(Instr::FieldAt(arguments[0], arguments[1], arguments[2], arguments[3]));
    }
    None
}

/// The numbers with this text between them.
fn counts(alloc: Global, text: &str, between: char) -> Result<Option<Vec<u32>>, AllocError> {
    let mut counts = Vec::new(alloc);
    for word in text.split(between) {
        if !word.is_empty() {
            match word.parse::<u32>() {
                Ok(number) => counts.push(number)?,
                Err(_) => return Ok(None),
            }
        }
    }
    Ok(Some(counts))
}

/// The instruction of a line.
fn instr_in(alloc: Global, text: &str) -> Result<Option<Instr>, AllocError> {
    if let Some(number) = text.strip_prefix("Push ") {
        return match number.parse::<i32>() {
            Ok(number) => Ok(Some(Instr::Push(number))),
            Err(_) => Ok(None),
        };
    }
    let (name, rest) = text.split_once(' ').unwrap_or((text, ""));
    match counts(alloc, rest, ' ')? {
        Some(arguments) => Ok(instr_of(name, arguments.as_slice())),
        None => Ok(None),
    }
}

/// The height of a line, and the inputs that have a row there.
fn label_in(alloc: Global, text: &str) -> Result<Option<Label>, AllocError> {
    let (height, inputs) = text.split_once(':').unwrap_or((text, ""));
    let Ok(height) = height.parse::<u32>() else {
        return Ok(None);
    };
    match counts(alloc, inputs, ',')? {
        Some(rows) => Ok(Some(Label {
            height,
            rows: Seq::of(rows),
        })),
        None => Ok(None),
    }
}

/// Adds what a line of a listing says. Tells whether it is one; a line without a blank says nothing.
fn read_line(
    alloc: Global,
    line: &str,
    instrs: &mut Vec<Instr>,
    labels: &mut Vec<Label>,
) -> Result<bool, AllocError> {
    let Some((label, instr)) = line.split_once(' ') else {
        return Ok(true);
    };
    let Some(instr) = instr_in(alloc, instr)? else {
        return Ok(false);
    };
    let Some(label) = label_in(alloc, label)? else {
        return Ok(false);
    };
    instrs.push(instr)?;
    labels.push(label)?;
    Ok(true)
}

/// Adds what the lines of a listing say. Tells whether all are lines of one.
fn read_lines(
    alloc: Global,
    text: &str,
    instrs: &mut Vec<Instr>,
    labels: &mut Vec<Label>,
) -> Result<bool, AllocError> {
    for line in text.split('\n') {
        if !read_line(alloc, line, instrs, labels)? {
            return Ok(false);
        }
    }
    Ok(true)
}

/// The code of a listing, where it is valid with these widths; none where it is not, is longer than 1000 instructions, or
/// has a line that is no instruction. A line without a blank is passed over.
pub fn code_in(alloc: Global, text: &str, widths: Widths) -> Result<Option<Code>, AllocError> {
    let mut instrs = Vec::new(alloc);
    let mut labels = Vec::new(alloc);
    if !read_lines(alloc, text, &mut instrs, &mut labels)? || instrs.len() > LONGEST {
        return Ok(None);
    }
    Ok(labelled(Seq::of(instrs), widths, labels.as_slice()))
}
