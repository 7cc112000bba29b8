//! The code of expressions.

ghost use Rattle.std.specs.Prelude.{◌≡◌, map, IfOk};
ghost use Rattle.flame_body.specs.declared.slots.SlotExpr.{All as all_of, Any as any_of};
ghost use Rattle.flame_compile.specs.Pieces.{row, in_order, written};
ghost use Rattle.flame_compile.specs.Emit.{operator as operating, sign_code, signs_code, column_of, each_column, columns, load, tested, expression, link, arguments};

use crate::places::{here, put, sum};
use crate::size::{tested_size, width};
use flame_body::{Slot, SlotExpr, SlotLink, Span};
use flame_code::Instr;
use flame_ops::Op;
use flame_rows::NoMemory;
use flame_spec::{Sign, SignKind};

/// The instruction of a binary operator.
pub(crate) fn operator(op: Op, line: u32) -> Instr
    ensures { result ≡ operating op line }
{
    match op {
        Op::Add => Instr::Add(line),
        Op::Sub => Instr::Sub(line),
        Op::Mul => Instr::Mul(line),
        Op::Div => Instr::Div(line),
        Op::Rem => Instr::Rem(line),
        Op::Lt => Instr::Lt,
        Op::Gt => Instr::Gt,
        Op::Le => Instr::Le,
        Op::Ge => Instr::Ge,
        Op::Eq => Instr::Eq,
        Op::Ne => Instr::Ne,
    }
}

/// A sign.
#[tactic(auto, unfolding(crate::specs::Pieces::written))]
fn write_sign(out: &mut Vec<Instr>, sign: Sign) -> Result<(), NoMemory>
    ensures { IfOk result (λ _. out.new.items ≡ written (row (sign_code sign.kind sign.line)) out.old.items) }
{
    match sign.kind {
        SignKind::Minus => put(out, Instr::Neg(sign.line))?,
        SignKind::Plus => (),
        SignKind::Bang => put(out, Instr::Not)?,
    }
    Ok(())
}

/// Signs, from the innermost outwards.
fn write_signs(out: &mut Vec<Instr>, signs: &[Sign]) -> Result<(), NoMemory>
    ensures { IfOk result (λ _. out.new.items ≡ written (row (signs_code signs.now)) out.old.items) }
{
    let mut at = signs.len();
    while at > 0 {
        at -= 1;
        write_sign(out, signs[at])?;
    }
    Ok(())
}

/// The instruction that reads a column: of the memory, or of the current row of an input.
fn column_read(input: Option<u32>, column: u32) -> Instr
    ensures { result ≡ column_of input column }
{
    match input {
        None => Instr::Mem(column),
        Some(input) => Instr::Field(input, column),
    }
}

/// `count` columns from this one on, of the memory, or of the current row of an input.
fn write_each(
    out: &mut Vec<Instr>,
    input: Option<u32>,
    first: u32,
    count: u32,
) -> Result<(), NoMemory>
    ensures { IfOk result (λ _.
        out.new.items ≡ written (row (each_column (column_of input) first count)) out.old.items) }
{
    for place in 0..count {
        let column = sum(first, place)?;
        put(out, column_read(input, column))?;
    }
    Ok(())
}

/// All columns of a variable of the memory, or of the current row of an input.
fn write_columns(out: &mut Vec<Instr>, input: Option<u32>, span: &Span) -> Result<(), NoMemory>
    ensures { IfOk result (λ _. out.new.items ≡ written (row (columns (column_of input) span.now)) out.old.items) }
{
    write_each(out, input, span.column, width(span))?;
    Ok(())
}

/// A name that is read.
pub(crate) fn write_load(out: &mut Vec<Instr>, slot: &Slot) -> Result<(), NoMemory>
    ensures { IfOk result (λ _. out.new.items ≡ written (row (load slot.now)) out.old.items) }
{
    match slot {
        Slot::Local(number) => put(out, Instr::Loc(*number))?,
        Slot::Memory(span) => write_columns(out, None, span)?,
        Slot::Constant(number) => put(out, Instr::Const(*number))?,
        Slot::Iteration => put(out, Instr::Iter)?,
    }
    Ok(())
}

/// An expression.
#[cycle(write_expression)]
pub(crate) fn write_expression(out: &mut Vec<Instr>, e: &SlotExpr) -> Result<(), NoMemory>
    ensures { IfOk result (λ _. out.new.items ≡ written (expression e.now) out.old.items) }
{
    match e {
        SlotExpr::Number(n) => put(out, Instr::Push(*n))?,
        SlotExpr::Name(slot) => write_load(out, slot)?,
        SlotExpr::Field(input, span) => write_columns(out, Some(*input), span)?,
        SlotExpr::Get(column) => put(out, Instr::Mem(*column))?,
        SlotExpr::At(cells, place) => {
            write_expression(out, place.index.get())?;
            put(out, Instr::MemAt(place.line, cells.column, cells.length))?;
        }
        SlotExpr::FieldAt(input, cells, place) => {
            write_expression(out, place.index.get())?;
            put(
                out,
                Instr::FieldAt(place.line, *input, cells.column, cells.length),
            )?;
        }
        SlotExpr::Unary(signs, e) => {
            write_expression(out, e.get())?;
            write_signs(out, signs.items())?;
        }
        SlotExpr::Chain(e, links) => {
            write_expression(out, e.get())?;
            write_links(out, links.items())?;
        }
        SlotExpr::All(parts) => write_all(out, parts.items())?,
        SlotExpr::Any(parts) => write_any(out, parts.items())?,
    }
    Ok(())
}

/// Operators with their operands.
#[cycle(write_expression)]
fn write_links(out: &mut Vec<Instr>, links: &[SlotLink]) -> Result<(), NoMemory>
    ensures { IfOk result (λ _. out.new.items ≡ written (in_order (map link links.now)) out.old.items) }
{
    for link in links {
        write_expression(out, &link.right)?;
        put(out, operator(link.op, link.line))?;
    }
    Ok(())
}

/// Parts with a jump behind each.
#[cycle(write_expression)]
fn write_tested(out: &mut Vec<Instr>, parts: &[SlotExpr], jump: Instr) -> Result<(), NoMemory>
    ensures { IfOk result (λ _. out.new.items ≡ written (tested jump (map expression parts.now)) out.old.items) }
{
    for part in parts {
        write_expression(out, part)?;
        put(out, jump)?;
    }
    Ok(())
}

/// `&&`
#[cycle(write_expression)]
fn write_all(out: &mut Vec<Instr>, parts: &[SlotExpr]) -> Result<(), NoMemory>
    ensures { IfOk result (λ _. out.new.items ≡ written (expression (all_of parts.now)) out.old.items) }
{
    let behind = sum(here(out)?, tested_size(parts)?)?;
    let fails = sum(behind, 2)?;
    let end = sum(behind, 3)?;
    write_tested(out, parts, Instr::JumpZero(fails))?;
    put(out, Instr::Push(1))?;
    put(out, Instr::Jump(end))?;
    put(out, Instr::Push(0))?;
    Ok(())
}

/// `||`
#[cycle(write_expression)]
fn write_any(out: &mut Vec<Instr>, parts: &[SlotExpr]) -> Result<(), NoMemory>
    ensures { IfOk result (λ _. out.new.items ≡ written (expression (any_of parts.now)) out.old.items) }
{
    let behind = sum(here(out)?, tested_size(parts)?)?;
    let holds = sum(behind, 2)?;
    let end = sum(behind, 3)?;
    write_tested(out, parts, Instr::JumpNotZero(holds))?;
    put(out, Instr::Push(0))?;
    put(out, Instr::Jump(end))?;
    put(out, Instr::Push(1))?;
    Ok(())
}

/// Arguments in order.
pub(crate) fn write_arguments(out: &mut Vec<Instr>, es: &[SlotExpr]) -> Result<(), NoMemory>
    ensures { IfOk result (λ _. out.new.items ≡ written (arguments es.now) out.old.items) }
{
    for e in es {
        write_expression(out, e)?;
    }
    Ok(())
}
