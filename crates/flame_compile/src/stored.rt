//! The code of what is stored, and how many instructions it has.

ghost use Rattle.std.specs.Prelude.{◌≡◌, ℕ, [], ◌∷◌, length, map, IfOk};
ghost use Rattle.flame_code.specs.declared.instrs.Instr.TheVariants.{Dup, Drop, MemAt, Call};
ghost use Rattle.flame_compile.specs.Pieces.{one, both, in_order, written};
ghost use Rattle.flame_compile.specs.Emit.{value as valued, initial as begun, item as declared, index as indexed, loaded as loading, store as storing, set_code, change_code, assignment as assigned, arguments, deed as done};

use crate::expression::{operator, write_arguments, write_expression};
use crate::places::{put, sum, sum3};
use crate::size::{arguments_size, expression_size};
use flame_body::{Cells, SlotAssign, SlotDeed, SlotExpr, SlotItem, SlotTarget, SlotValue};
use flame_code::Instr;
use flame_ops::Op;
use flame_rows::NoMemory;

/// How many arguments there are.
pub(crate) fn count(es: &[SlotExpr]) -> Result<u32, NoMemory>
    ensures { IfOk result (λ n. n ≡ length es.now) }
{
    match u32::try_from(es.len()) {
        Ok(n) => Ok(n),
        Err(_) => Err(NoMemory),
    }
}

/// The instructions of a value.
fn value_size(value: &SlotValue) -> Result<u32, NoMemory>
    ensures { IfOk result (λ n. n ≡ (valued value.now).size) }
{
    match value {
        SlotValue::Plain(e) => expression_size(e),
        SlotValue::Call(_, _, es) => sum(arguments_size(es.items())?, 1),
    }
}

/// What a helper returns.
fn write_helped(
    out: &mut Vec<Instr>,
    line: u32,
    helper: u32,
    es: &[SlotExpr],
) -> Result<(), NoMemory>
    ensures { IfOk result (λ _.
        out.new.items ≡ written (both (arguments es.now) (one (Call line helper (length es.now)))) out.old.items) }
{
    let count = count(es)?;
    write_arguments(out, es)?;
    put(out, Instr::Call(line, helper, count))?;
    Ok(())
}

/// The value that is stored.
fn write_value(out: &mut Vec<Instr>, value: &SlotValue) -> Result<(), NoMemory>
    ensures { IfOk result (λ _. out.new.items ≡ written (valued value.now) out.old.items) }
{
    match value {
        SlotValue::Plain(e) => write_expression(out, e)?,
        SlotValue::Call(line, helper, es) => write_helped(out, *line, *helper, es.items())?,
    }
    Ok(())
}

/// The instructions of the value with which a local begins.
fn initial_size(value: &Option<SlotValue>) -> Result<u32, NoMemory>
    ensures { IfOk result (λ n. n ≡ (begun value.now).size) }
{
    match value {
        None => Ok(1),
        Some(value) => value_size(value),
    }
}

/// The value with which a local begins, or 0.
fn write_initial(out: &mut Vec<Instr>, value: &Option<SlotValue>) -> Result<(), NoMemory>
    ensures { IfOk result (λ _. out.new.items ≡ written (begun value.now) out.old.items) }
{
    match value {
        None => put(out, Instr::Push(0))?,
        Some(value) => write_value(out, value)?,
    }
    Ok(())
}

/// The instructions of a declaration.
pub(crate) fn items_size(items: &[SlotItem]) -> Result<u32, NoMemory>
    ensures { IfOk result (λ n. n ≡ (in_order (map declared items.now)).size) }
{
    let mut size = 0;
    for item in items {
        size = sum3(size, initial_size(&item.value)?, 1)?;
    }
    Ok(size)
}

/// The locals of a declaration.
pub(crate) fn write_items(out: &mut Vec<Instr>, items: &[SlotItem]) -> Result<(), NoMemory>
    ensures { IfOk result (λ _. out.new.items ≡ written (in_order (map declared items.now)) out.old.items) }
{
    for item in items {
        write_initial(out, &item.value)?;
        put(out, Instr::SetLoc(item.local))?;
    }
    Ok(())
}

/// The instructions of an index.
fn index_size(target: &SlotTarget) -> Result<u32, NoMemory>
    ensures { IfOk result (λ n. n ≡ (indexed target.now).size) }
{
    match target {
        SlotTarget::Local(_) => Ok(0),
        SlotTarget::Memory(_) => Ok(0),
        SlotTarget::Element(_, place) => expression_size(place.index.get()),
    }
}

/// The index of an element that is set.
#[tactic(auto, using(crate::proofs::Writing::written_none))]
fn write_index(out: &mut Vec<Instr>, target: &SlotTarget) -> Result<(), NoMemory>
    ensures { IfOk result (λ _. out.new.items ≡ written (indexed target.now) out.old.items) }
{
    match target {
        SlotTarget::Local(_) => (),
        SlotTarget::Memory(_) => (),
        SlotTarget::Element(_, place) => write_expression(out, place.index.get())?,
    }
    Ok(())
}

/// The instructions by which what is set is read.
fn loaded_size(target: &SlotTarget) -> u32
    ensures { result ≡ (loading target.now).size }
{
    match target {
        SlotTarget::Local(_) => 1,
        SlotTarget::Memory(_) => 1,
        SlotTarget::Element(_, _) => 2,
    }
}

/// An element is read; its index is on the stack, and stays there.
fn write_element_loaded(out: &mut Vec<Instr>, line: u32, cells: Cells) -> Result<(), NoMemory>
    ensures { IfOk result (λ _. out.new.items
        ≡ written (in_order (one Dup ∷ one (MemAt line cells.column cells.length) ∷ [])) out.old.items) }
{
    put(out, Instr::Dup)?;
    put(out, Instr::MemAt(line, cells.column, cells.length))?;
    Ok(())
}

/// What is set is read; of an element the index is on the stack, and stays there.
fn write_loaded(out: &mut Vec<Instr>, target: &SlotTarget) -> Result<(), NoMemory>
    ensures { IfOk result (λ _. out.new.items ≡ written (loading target.now) out.old.items) }
{
    match target {
        SlotTarget::Local(number) => put(out, Instr::Loc(*number))?,
        SlotTarget::Memory(column) => put(out, Instr::Mem(*column))?,
        SlotTarget::Element(cells, place) => write_element_loaded(out, place.line, *cells)?,
    }
    Ok(())
}

/// The instruction that stores the value on the stack.
fn store(target: &SlotTarget) -> Instr
    ensures { result ≡ storing target.now }
{
    match target {
        SlotTarget::Local(number) => Instr::SetLoc(*number),
        SlotTarget::Memory(column) => Instr::SetMem(*column),
        SlotTarget::Element(cells, place) => {
            Instr::SetMemAt(place.line, cells.column, cells.length)
        }
    }
}

/// The instructions of an assignment.
pub(crate) fn assignment_size(a: &SlotAssign) -> Result<u32, NoMemory>
    ensures { IfOk result (λ n. n ≡ (assigned a.now).size) }
{
    let index = index_size(&a.target)?;
    let value = value_size(&a.value)?;
    match a.op {
        None => sum3(index, value, 1),
        Some(_) => sum3(index, sum(loaded_size(&a.target), value)?, 2),
    }
}

/// An assignment without an operator.
fn write_set(out: &mut Vec<Instr>, target: &SlotTarget, value: &SlotValue) -> Result<(), NoMemory>
    ensures { IfOk result (λ _. out.new.items ≡ written (set_code target.now value.now) out.old.items) }
{
    write_index(out, target)?;
    write_value(out, value)?;
    put(out, store(target))?;
    Ok(())
}

/// An assignment with an operator.
fn write_change(
    out: &mut Vec<Instr>,
    target: &SlotTarget,
    op: Op,
    line: u32,
    value: &SlotValue,
) -> Result<(), NoMemory>
    ensures { IfOk result (λ _. out.new.items ≡ written (change_code target.now op line value.now) out.old.items) }
{
    write_index(out, target)?;
    write_loaded(out, target)?;
    write_value(out, value)?;
    put(out, operator(op, line))?;
    put(out, store(target))?;
    Ok(())
}

/// An assignment.
pub(crate) fn write_assignment(out: &mut Vec<Instr>, a: &SlotAssign) -> Result<(), NoMemory>
    ensures { IfOk result (λ _. out.new.items ≡ written (assigned a.now) out.old.items) }
{
    match a.op {
        None => write_set(out, &a.target, &a.value)?,
        Some(op) => write_change(out, &a.target, op, a.op_line, &a.value)?,
    }
    Ok(())
}

/// The instructions of what a call statement does.
pub(crate) fn deed_size(deed: SlotDeed) -> u32
    ensures { (n : ℕ) → result ≡ (done deed n).size }
{
    match deed {
        SlotDeed::Sets(_) => 1,
        SlotDeed::Sends(_) => 1,
        SlotDeed::Bears(_) => 1,
        SlotDeed::Calls(_, _) => 2,
    }
}

/// A helper is called, and what it returns is dropped.
fn write_dropped(out: &mut Vec<Instr>, line: u32, helper: u32, count: u32) -> Result<(), NoMemory>
    ensures { IfOk result (λ _.
        out.new.items ≡ written (in_order (one (Call line helper count) ∷ one Drop ∷ [])) out.old.items) }
{
    put(out, Instr::Call(line, helper, count))?;
    put(out, Instr::Drop)?;
    Ok(())
}

/// What a call statement does with so many arguments.
pub(crate) fn write_deed(out: &mut Vec<Instr>, deed: SlotDeed, count: u32) -> Result<(), NoMemory>
    ensures { IfOk result (λ _. out.new.items ≡ written (done deed count) out.old.items) }
{
    match deed {
        SlotDeed::Sets(column) => put(out, Instr::SetMem(column))?,
        SlotDeed::Sends(message) => put(out, Instr::Send(message))?,
        SlotDeed::Bears(agent) => put(out, Instr::Bear(agent))?,
        SlotDeed::Calls(line, helper) => write_dropped(out, line, helper, count)?,
    }
    Ok(())
}
