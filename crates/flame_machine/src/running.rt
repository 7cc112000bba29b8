//! The steps of runs, and the calls of helpers.

ghost use Rattle.std.specs.Prelude.{◌≡◌, ◌++◌, ◌+◌, ◌-◌, ◌<◌, ◌≤◌, length, drop, take, replicate, pos, slice_get, Some, true, IfOk};
ghost use Rattle.flame_code.specs.HelperCodes.{AreHelpers, sees_nothing};
ghost use Rattle.flame_code.specs.InputRows.{rows_of};
ghost use Rattle.flame_code.specs.Machine.{step};
ghost use Rattle.flame_code.specs.Routines.{Routine, locals_of};
ghost use Rattle.flame_code.specs.Validity.{IsValid};
ghost use Rattle.flame_machine.specs.MachineFrames.{held, framed, config};
ghost use Rattle.flame_machine.specs.Running.{SeeConstants, Suits, place_of, IsRest, Ready, unused, Finishes, Fell, CallEnds};
ghost use Rattle.flame_machine.specs.MachineSteps.{seen, told, adds_nothing, Stepped};

use crate::additions::Added;
use crate::endings::Called;
use crate::frames::Frame;
use crate::givens::Given;
use crate::pools::fill;
use crate::steps::{MachineStep, apply};
use flame_code::{Code, Feed, Helpers, Instr};
use flame_rows::NoMemory;
use std::alloc::Global;

/// How many cells there are for helpers above those that a run needs for its own stack. A helper for which the cells from its
/// arguments on do not suffice gets cells of its own.
pub const SPARE: usize = 1000;

/// The first of the instructions that are left.
#[inline(always)]
fn first_of(rest: &[Instr]) -> &Instr
    requires { 0 < length rest.now }
    ensures { slice_get rest.now 0 ≡ Some result.now }
{
    &rest[0]
}

/// The instructions behind the first.
#[inline(always)]
fn behind_first(rest: &[Instr]) -> &[Instr]
    requires { 0 < length rest.now }
    ensures { result.now ≡ drop 1 rest.now }
{
    &rest[1..]
}

/// The instructions from this place on.
#[inline(always)]
fn starting_at(instrs: &[Instr], place: u32) -> &[Instr]
    requires { place < length instrs.now }
    ensures { result.now ≡ drop place instrs.now }
{
    &instrs[place as usize..]
}

/// One step: does the first of the instructions that are left.
#[inline(always)]
fn turn<F: Feed>(
    code: &Code,
    rest: &[Instr],
    frame: &mut Frame,
    locals: &mut [i32],
    cells: &mut [i32],
    memory: &mut [i32],
    added: &mut Added,
    feed: &mut F,
    given: &Given,
) -> MachineStep
    requires left { IsRest code.now rest.now }
    requires valid { IsValid code.now }
    requires fits { frame.old.height ≤ length cells.old }
    requires ready { Ready code.now (place_of code.now rest.now)
        (framed (held frame.old cells.old) locals.old memory.old) (told code.now.widths added.old) (F.feeds feed.old) }
    requires constants { length given.now.constants ≡ code.now.widths.constants }
    ensures does { Stepped (place_of code.now rest.now) (step given.now code.now
        (config (place_of code.now rest.now) (framed (held frame.old cells.old) locals.old memory.old)
        (told code.now.widths added.old) (seen code.now.widths (F.feeds feed.old))))
        (framed (held frame.new cells.new) locals.new memory.new) (told code.now.widths added.new)
        (seen code.now.widths (F.feeds feed.new)) result }
    ensures fits { frame.new.height ≤ length cells.new }
    ensures quiet { adds_nothing code.now.widths ≡ true → added.new ≡ added.old }
    ensures rows { rows_of (F.feeds feed.new) ≡ rows_of (F.feeds feed.old) }
    ensures others { drop (length code.now.widths.inputs) (F.feeds feed.new) ≡
        drop (length code.now.widths.inputs) (F.feeds feed.old) }
{
    let instr = first_of(rest);
    apply(
        frame,
        locals,
        cells,
        memory,
        added,
        feed,
        given,
        code.widths(),
        instr,
    )
}

/// Runs the code from its begin with these locals, on these cells and on this memory. The cells from a call's arguments on
/// serve the helper that is called. It calls itself through `call` for each helper that is open, so at most as deep as helpers are
/// high.
#[cycle(go)]
pub fn go<F: Feed>(
    locals: &mut [i32],
    cells: &mut [i32],
    memory: &mut [i32],
    code: &Code,
    helpers: &Helpers,
    given: &Given,
    added: &mut Added,
    feed: &mut F,
    fuel: u32,
) -> Result<Called, NoMemory>
    requires among { AreHelpers helpers.now }
    requires suits { Suits helpers.now given.now code.now }
    requires ready { Ready code.now 0 (unused (length cells.old) locals.old memory.old fuel)
        (told code.now.widths added.old) (F.feeds feed.old) }
    ensures runs { IfOk result (λ called. Finishes given.now helpers.now.routines code.now
        (config 0 (unused (length cells.old) locals.old memory.old fuel)
        (told code.now.widths added.old) (seen code.now.widths (F.feeds feed.old)))
        called memory.new (told code.now.widths added.new) (seen code.now.widths (F.feeds feed.new))) }
    ensures fell { IfOk result (λ called. Fell called fuel) }
    ensures quiet { adds_nothing code.now.widths ≡ true → added.new ≡ added.old }
    ensures rows { rows_of (F.feeds feed.new) ≡ rows_of (F.feeds feed.old) }
    ensures others { drop (length code.now.widths.inputs) (F.feeds feed.new) ≡
        drop (length code.now.widths.inputs) (F.feeds feed.old) }
{
    let instrs = code.instrs();
    let mut rest = instrs;
    let mut frame = Frame::begin(fuel);
    'steps: loop {
        match turn(
            code, rest, &mut frame, locals, cells, memory, added, feed, given,
        ) {
            MachineStep::On => rest = behind_first(rest),
            MachineStep::To(place) => rest = starting_at(instrs, place),
            MachineStep::Ended(value) => return Ok(Called::Returned(value, frame.fuel())),
            MachineStep::Faulted(fault) => return Ok(Called::Faulted(fault)),
            MachineStep::Calls(helper, count) => {
                let base = frame.lent(cells, count as usize);
                match call(
                    &mut cells[base..],
                    helpers,
                    given,
                    added,
                    feed,
                    helper,
                    count as usize,
                    frame.fuel(),
                )? {
                    Called::Returned(value, fuel) => {
                        frame = Frame::resumed(base, value, fuel);
                        rest = behind_first(rest);
                    }
                    Called::Faulted(fault) => return Ok(Called::Faulted(fault)),
                }
            }
            MachineStep::Full => return Err(NoMemory),
        }
    }
}

/// The code of a helper, which sees no inputs and all constants.
fn helper_of<'a>(helpers: &'a Helpers, given: &Given, helper: u32) -> &'a Code
    requires there { helper < length helpers.now.routines }
    requires alike { SeeConstants given.now helpers.now }
    ensures found { slice_get helpers.now.routines helper ≡ Some result.now }
    ensures among { AreHelpers helpers.now }
    ensures suits { Suits helpers.now given.now result.now }
    ensures blind { sees_nothing result.now ≡ true }
{
    helpers.code(helper)
}

/// How many locals the code has that is called with so many arguments.
#[inline(always)]
fn locals_with(code: &Code, count: usize) -> usize
    ensures code { locals_of code.now.instrs ≤ result }
    ensures args { count ≤ result }
    ensures least { result - count ≡ locals_of code.now.instrs - count }
{
    code.locals().max(count)
}

/// Whether there are cells for so many locals and for the code's stack.
#[inline(always)]
fn has_room(cells: &[i32], locals: usize, code: &Code) -> bool
    ensures { result ≡ true → locals + length code.now.instrs ≤ length cells.now }
{
    locals <= cells.len() && code.instrs().len() <= cells.len() - locals
}

/// Fills the locals behind the arguments with 0.
#[inline(always)]
fn clear(cells: &mut [i32], count: usize, locals: usize)
    requires args { count ≤ locals }
    requires room { locals ≤ length cells.old }
    ensures { take locals cells.new ≡ take count cells.old ++ replicate (locals - count) (pos 0) }
{
    if count < locals {
        cells[count..locals].fill(0);
    }
}

/// Runs a helper whose arguments lie in the first cells. It reads no input, so the feed stays as it was.
#[cycle(go)]
#[inline(always)]
fn call<F: Feed>(
    cells: &mut [i32],
    helpers: &Helpers,
    given: &Given,
    added: &mut Added,
    feed: &mut F,
    helper: u32,
    count: usize,
    fuel: u32,
) -> Result<Called, NoMemory>
    requires there { helper < length helpers.now.routines }
    requires alike { SeeConstants given.now helpers.now }
    requires args { count ≤ length cells.old }
    ensures ends { IfOk result (λ called. (inner : Routine) → slice_get helpers.now.routines helper ≡ Some inner
        → CallEnds given.now helpers.now.routines inner (take count cells.old) fuel called) }
    ensures fell { IfOk result (λ called. Fell called fuel) }
    ensures quiet { added.new ≡ added.old }
    ensures feeds { F.feeds feed.new ≡ F.feeds feed.old }
{
    let code = helper_of(helpers, given, helper);
    let locals = locals_with(code, count);
    if has_room(cells, locals, code) {
        return opened(
            cells, locals, code, helpers, given, added, feed, count, fuel,
        );
    }
    apart(&cells[..count], helpers, given, added, feed, helper, fuel)
}

/// Runs the code of a helper, for whose locals, so many, and stack there is room. Its arguments lie in the first cells.
#[cycle(go)]
#[inline(always)]
fn opened<F: Feed>(
    cells: &mut [i32],
    locals: usize,
    code: &Code,
    helpers: &Helpers,
    given: &Given,
    added: &mut Added,
    feed: &mut F,
    count: usize,
    fuel: u32,
) -> Result<Called, NoMemory>
    requires among { AreHelpers helpers.now }
    requires suits { Suits helpers.now given.now code.now }
    requires blind { sees_nothing code.now ≡ true }
    requires args { count ≤ locals }
    requires enough { locals_of code.now.instrs ≤ locals }
    requires least { locals - count ≡ locals_of code.now.instrs - count }
    requires room { locals + length code.now.instrs ≤ length cells.old }
    ensures ends { IfOk result (λ called.
        CallEnds given.now helpers.now.routines code.now (take count cells.old) fuel called) }
    ensures fell { IfOk result (λ called. Fell called fuel) }
    ensures quiet { added.new ≡ added.old }
    ensures feeds { F.feeds feed.new ≡ F.feeds feed.old }
{
    clear(cells, count, locals);
    let (locals, cells) = cells.split_at_mut(locals);
    go(
        locals,
        cells,
        &mut [],
        code,
        helpers,
        given,
        added,
        feed,
        fuel,
    )
}

/// Cells with these arguments in the first ones, and room for so many locals and for the code's stack.
fn roomy(alloc: Global, args: &[i32], locals: usize, code: &Code) -> Result<Vec<i32>, NoMemory>
    ensures args { IfOk result (λ cells. take (length args.now) cells.items ≡ args.now) }
    ensures room { IfOk result (λ cells. locals + length code.now.instrs ≤ length cells.items) }
{
    let Some(room) = locals.checked_add(code.instrs().len() + SPARE) else {
        return Err(NoMemory);
    };
    let mut cells = Vec::new(alloc);
    cells.extend_from_slice(args)?;
    fill(&mut cells, room)?;
    Ok(cells)
}

/// Runs a helper with these arguments on cells of its own.
#[cycle(go)]
fn apart<F: Feed>(
    args: &[i32],
    helpers: &Helpers,
    given: &Given,
    added: &mut Added,
    feed: &mut F,
    helper: u32,
    fuel: u32,
) -> Result<Called, NoMemory>
    requires there { helper < length helpers.now.routines }
    requires alike { SeeConstants given.now helpers.now }
    ensures ends { IfOk result (λ called. (inner : Routine) → slice_get helpers.now.routines helper ≡ Some inner
        → CallEnds given.now helpers.now.routines inner args.now fuel called) }
    ensures fell { IfOk result (λ called. Fell called fuel) }
    ensures quiet { added.new ≡ added.old }
    ensures feeds { F.feeds feed.new ≡ F.feeds feed.old }
{
    let code = helper_of(helpers, given, helper);
    let count = args.len();
    let locals = locals_with(code, count);
    let mut list = roomy(added.alloc(), args, locals, code)?;
    opened(
        list.as_mut_slice(),
        locals,
        code,
        helpers,
        given,
        added,
        feed,
        count,
        fuel,
    )
}
