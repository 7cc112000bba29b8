//! The step of the machine.

ghost use Rattle.std.specs.Prelude.{◌≡◌, ◌+◌, ◌<◌, ◌≤◌, List, length, drop, slice_index, true, Some, IfSome, IsSome, ℕ, ℤ};
ghost use Rattle.flame_spec.specs.declared.outcomes.Widths.{Widths as Wide};
ghost use Rattle.flame_code.specs.Feeds.{Fed, has_next, at_start, at_next, field};
ghost use Rattle.flame_code.specs.InputRows.{rows_of};
ghost use Rattle.flame_code.specs.Routines.{takes, IsWithin, locals_for};
ghost use Rattle.flame_code.specs.Machine.{Given as Whole, act, operate as operating, push_held, pay as paying, next as going, deliver, element_of as element};
ghost use Rattle.flame_machine.specs.MachineFrames.{Additions, held as holding, with_value, framed, config};
ghost use Rattle.flame_machine.specs.MachineSteps.{seen, adds_nothing, told, Stepped, StepsBy, HasFields};

use crate::additions::Added;
use crate::frames::{Frame, number_in, set_number};
use crate::givens::Given;
use flame_code::{Feed, Instr};
use flame_ops::{Cause, Op, apply as apply_op, negate};
use flame_rows::Seq;
use flame_spec::{Fault, Widths};

/// What a step came to.
#[derive(Drop)]
pub enum MachineStep {
    /// The run goes on at the next place.
    On,
    /// It goes on at this place.
    To(u32),
    /// It ended with this value.
    Ended(i32),
    /// It faulted.
    Faulted(Fault),
    /// Helper, count: it calls the helper with so many arguments, which still lie on the stack.
    Calls(u32, u32),
    /// Memory for a message or a birth was not found.
    Full,
}

/// On to the next place with the value on the stack.
#[inline(always)]
fn pushed(frame: &mut Frame, cells: &mut [i32], value: i32) -> MachineStep
    requires room { frame.old.height < length cells.old }
    ensures on { result ≡ MachineStep.On }
    ensures moved { holding frame.new cells.new ≡ with_value value (holding frame.old cells.old) }
    ensures fits { frame.new.height ≤ length cells.new }
{
    frame.push(cells, value);
    MachineStep::On
}

/// A fault with its line.
#[inline(always)]
fn fault(cause: Cause, line: u32) -> MachineStep
    ensures { result ≡ MachineStep.Faulted (record { cause = cause; line = line }) }
{
    MachineStep::Faulted(Fault { cause, line })
}

/// The value on the stack, or a fault.
#[inline(always)]
fn held(frame: &mut Frame, cells: &mut [i32], value: Result<i32, Cause>, line: u32) -> MachineStep
    requires room { frame.old.height < length cells.old }
    ensures does { StepsBy (push_held line value (holding frame.old cells.old).stack)
        (holding frame.old cells.old) (holding frame.new cells.new) result }
    ensures fits { frame.new.height ≤ length cells.new }
{
    match value {
        Ok(value) => pushed(frame, cells, value),
        Err(cause) => fault(cause, line),
    }
}

/// The value of an operator in place of its operands.
#[inline(always)]
fn operate(frame: &mut Frame, cells: &mut [i32], op: Op, line: u32) -> MachineStep
    requires room { frame.old.height < length cells.old }
    requires pops { 2 ≤ frame.old.height }
    ensures does { StepsBy (operating op line)
        (holding frame.old cells.old) (holding frame.new cells.new) result }
    ensures fits { frame.new.height ≤ length cells.new }
{
    let right = frame.pop(cells);
    let left = frame.pop(cells);
    held(frame, cells, apply_op(op, left, right), line)
}

/// The top with the other sign.
#[inline(always)]
fn opposite(frame: &mut Frame, cells: &mut [i32], line: u32) -> MachineStep
    requires room { frame.old.height < length cells.old }
    requires pops { 1 ≤ frame.old.height }
    ensures does { (g : Whole) (w : Wide) → StepsBy (act g w (Some (Instr.Neg line)))
        (holding frame.old cells.old) (holding frame.new cells.new) result }
    ensures fits { frame.new.height ≤ length cells.new }
{
    let value = frame.pop(cells);
    held(frame, cells, negate(value), line)
}

/// The column of an element of the array of so many columns from this one on, where the index is one of its.
#[inline(always)]
fn element_of(index: i32, column: u32, count: u32) -> Option<usize>
    ensures same { result ≡ element column count index }
    ensures from { IfSome result (λ place. column ≤ place) }
    ensures within { IfSome result (λ place. place < column + count) }
{
    if index < 0 {
        return None;
    }
    let index = index as u32;
    if index < count {
        Some(column as usize + index as usize)
    } else {
        None
    }
}

/// The element of the memory's array whose index is on the stack, in its place.
#[inline(always)]
fn load(
    frame: &mut Frame,
    cells: &mut [i32],
    memory: &[i32],
    line: u32,
    column: u32,
    count: u32,
) -> MachineStep
    requires room { frame.old.height < length cells.old }
    requires pops { 1 ≤ frame.old.height }
    requires within { column + count ≤ length memory.now }
    ensures does { (g : Whole) (w : Wide) (place : ℕ) (locals : List ℤ) (added : Additions) (feeds : List Fed)
        → Stepped place (act g w (Some (Instr.MemAt line column count))
        (config place (framed (holding frame.old cells.old) locals memory.now) added feeds))
        (framed (holding frame.new cells.new) locals memory.now) added feeds result }
    ensures fits { frame.new.height ≤ length cells.new }
{
    let index = frame.pop(cells);
    match element_of(index, column, count) {
        Some(place) => {
            let value = number_in(memory, place);
            pushed(frame, cells, value)
        }
        None => fault(Cause::BadIndex, line),
    }
}

/// The value on the stack into the element of the memory's array whose index lies under it.
#[inline(always)]
fn store(
    frame: &mut Frame,
    cells: &mut [i32],
    memory: &mut [i32],
    line: u32,
    column: u32,
    count: u32,
) -> MachineStep
    requires room { frame.old.height < length cells.old }
    requires pops { 2 ≤ frame.old.height }
    requires within { column + count ≤ length memory.old }
    ensures does { (g : Whole) (w : Wide) (place : ℕ) (locals : List ℤ) (added : Additions) (feeds : List Fed)
        → Stepped place (act g w (Some (Instr.SetMemAt line column count))
        (config place (framed (holding frame.old cells.old) locals memory.old) added feeds))
        (framed (holding frame.new cells.new) locals memory.new) added feeds result }
    ensures fits { frame.new.height ≤ length cells.new }
{
    let value = frame.pop(cells);
    let index = frame.pop(cells);
    match element_of(index, column, count) {
        Some(place) => {
            set_number(memory, place, value);
            MachineStep::On
        }
        None => fault(Cause::BadIndex, line),
    }
}

/// The top once more.
#[inline(always)]
fn again(frame: &mut Frame, cells: &mut [i32]) -> MachineStep
    requires room { frame.old.height < length cells.old }
    requires pops { 1 ≤ frame.old.height }
    ensures does { (g : Whole) (w : Wide) → StepsBy (act g w (Some Instr.Dup))
        (holding frame.old cells.old) (holding frame.new cells.new) result }
    ensures fits { frame.new.height ≤ length cells.new }
{
    let value = frame.pop(cells);
    frame.push(cells, value);
    pushed(frame, cells, value)
}

/// To the place where the top is 0, else on.
#[inline(always)]
fn jump_zero(frame: &mut Frame, cells: &mut [i32], to: u32) -> MachineStep
    requires room { frame.old.height < length cells.old }
    requires pops { 1 ≤ frame.old.height }
    ensures does { (g : Whole) (w : Wide) → StepsBy (act g w (Some (Instr.JumpZero to)))
        (holding frame.old cells.old) (holding frame.new cells.new) result }
    ensures fits { frame.new.height ≤ length cells.new }
{
    if frame.pop(cells) == 0 {
        MachineStep::To(to)
    } else {
        MachineStep::On
    }
}

/// To the place where the top is not 0, else on.
#[inline(always)]
fn jump_not_zero(frame: &mut Frame, cells: &mut [i32], to: u32) -> MachineStep
    requires room { frame.old.height < length cells.old }
    requires pops { 1 ≤ frame.old.height }
    ensures does { (g : Whole) (w : Wide) →
        StepsBy (act g w (Some (Instr.JumpNotZero to)))
        (holding frame.old cells.old) (holding frame.new cells.new) result }
    ensures fits { frame.new.height ≤ length cells.new }
{
    if frame.pop(cells) == 0 {
        MachineStep::On
    } else {
        MachineStep::To(to)
    }
}

/// One unit of fuel is paid, or there is none.
#[inline(always)]
fn pay(frame: &mut Frame, line: u32) -> MachineStep
    ensures does { (cells : List ℤ) → StepsBy (λ c. paying line c (λ d. going d.stack d))
        (holding frame.old cells) (holding frame.new cells) result }
    ensures height { frame.new.height ≡ frame.old.height }
{
    let fuel = frame.fuel();
    if fuel == 0 {
        return fault(Cause::Fuel, line);
    }
    frame.set_fuel(fuel - 1);
    MachineStep::On
}

/// A call of a helper is paid, or there is no fuel for it.
#[inline(always)]
#[tactic(auto, using(crate::proofs::Pops::row_there))]
fn pay_call(frame: &mut Frame, line: u32, helper: u32, count: u32) -> MachineStep
    requires pops { count ≤ frame.old.height }
    ensures does { (g : Whole) (w : Wide) (cells : List ℤ) → frame.old.height < length cells →
        StepsBy (act g w (Some (Instr.Call line helper count)))
        (holding frame.old cells) (holding frame.new cells) result }
    ensures height { frame.new.height ≡ frame.old.height }
{
    let fuel = frame.fuel();
    if fuel == 0 {
        return fault(Cause::Fuel, line);
    }
    frame.set_fuel(fuel - 1);
    MachineStep::Calls(helper, count)
}

/// A number of the current row.
#[inline(always)]
fn read_field<F: Feed>(
    frame: &mut Frame,
    cells: &mut [i32],
    feed: &F,
    input: u32,
    column: u32,
) -> MachineStep
    requires room { frame.old.height < length cells.old }
    requires there { IsSome (field input column (F.feeds feed.now)) }
    ensures does { (g : Whole) (w : Wide) (feeds : List Fed)
        → field input column feeds ≡ field input column (F.feeds feed.now)
        → (place : ℕ) (locals memory : List ℤ) (added : Additions)
        → Stepped place (act g w (Some (Instr.Field input column))
        (config place (framed (holding frame.old cells.old) locals memory) added feeds))
        (framed (holding frame.new cells.new) locals memory) added feeds result }
    ensures fits { frame.new.height ≤ length cells.new }
{
    pushed(frame, cells, feed.value(input, column))
}

/// The element of the current row's array whose index is on the stack, in its place. The width is the row's.
#[inline(always)]
fn load_field<F: Feed>(
    frame: &mut Frame,
    cells: &mut [i32],
    feed: &F,
    line: u32,
    input: u32,
    column: u32,
    count: u32,
    width: u32,
) -> MachineStep
    requires room { frame.old.height < length cells.old }
    requires pops { 1 ≤ frame.old.height }
    requires within { column + count ≤ width }
    requires there { (v : ℕ) → column ≤ v → v < column + count → IsSome (field input v (F.feeds feed.now)) }
    ensures does { (g : Whole) (w : Wide) (feeds : List Fed)
        → ((v : ℕ) → field input v feeds ≡ field input v (F.feeds feed.now))
        → (place : ℕ) (locals memory : List ℤ) (added : Additions)
        → Stepped place (act g w (Some (Instr.FieldAt line input column count))
        (config place (framed (holding frame.old cells.old) locals memory) added feeds))
        (framed (holding frame.new cells.new) locals memory) added feeds result }
    ensures fits { frame.new.height ≤ length cells.new }
{
    let index = frame.pop(cells);
    match element_of(index, column, count) {
        Some(place) => {
            let value = feed.value(input, place as u32);
            pushed(frame, cells, value)
        }
        None => fault(Cause::BadIndex, line),
    }
}

/// The input's next row, which is paid, or the place behind the loop.
#[inline(always)]
fn next_row<F: Feed>(frame: &mut Frame, feed: &mut F, line: u32, input: u32, to: u32) -> MachineStep
    requires there { input < length (F.feeds feed.old) }
    ensures does { (cells : List ℤ) → StepsBy (deliver (has_next input (F.feeds feed.old)) line to)
        (holding frame.old cells) (holding frame.new cells) result }
    ensures moved { F.feeds feed.new ≡ at_next input (F.feeds feed.old) }
    ensures height { frame.new.height ≡ frame.old.height }
{
    if feed.advance(input) {
        return pay(frame, line);
    }
    MachineStep::To(to)
}

/// The message that lies on the stack is sent.
#[inline(always)]
#[tactic(auto, using(crate::proofs::Pops::row_there))]
fn send(
    frame: &mut Frame,
    cells: &mut [i32],
    added: &mut Added,
    widths: &Widths,
    message: u32,
) -> MachineStep
    requires room { frame.old.height < length cells.old }
    requires there { message < length widths.now.messages }
    requires pops { slice_index widths.now.messages message ≤ frame.old.height }
    ensures does { (g : Whole) (place : ℕ) (locals memory : List ℤ) (feeds : List Fed)
        → Stepped place (act g widths.now (Some (Instr.Send message))
        (config place (framed (holding frame.old cells.old) locals memory) added.old feeds))
        (framed (holding frame.new cells.new) locals memory) added.new feeds result }
    ensures fits { frame.new.height ≤ length cells.new }
{
    let count = widths.messages.items()[message as usize] as usize;
    let Ok(row) = frame.row(cells, added.alloc(), count) else {
        return MachineStep::Full;
    };
    frame.drop_row(cells, count);
    if added.send(message, row).is_err() {
        return MachineStep::Full;
    }
    MachineStep::On
}

/// The agent whose memory lies on the stack is born.
#[inline(always)]
#[tactic(auto, using(crate::proofs::Pops::row_there))]
fn bear(
    frame: &mut Frame,
    cells: &mut [i32],
    added: &mut Added,
    widths: &Widths,
    agent: u32,
) -> MachineStep
    requires room { frame.old.height < length cells.old }
    requires there { agent < length widths.now.agents }
    requires pops { slice_index widths.now.agents agent ≤ frame.old.height }
    ensures does { (g : Whole) (place : ℕ) (locals memory : List ℤ) (feeds : List Fed)
        → Stepped place (act g widths.now (Some (Instr.Bear agent))
        (config place (framed (holding frame.old cells.old) locals memory) added.old feeds))
        (framed (holding frame.new cells.new) locals memory) added.new feeds result }
    ensures fits { frame.new.height ≤ length cells.new }
{
    let count = widths.agents.items()[agent as usize] as usize;
    let Ok(row) = frame.row(cells, added.alloc(), count) else {
        return MachineStep::Full;
    };
    frame.drop_row(cells, count);
    if added.bear(agent, row).is_err() {
        return MachineStep::Full;
    }
    MachineStep::On
}

/// One instruction.
// ORDER INSTRUCTIONS
#[inline(always)]
pub fn apply<F: Feed>(
    frame: &mut Frame,
    locals: &mut [i32],
    cells: &mut [i32],
    memory: &mut [i32],
    added: &mut Added,
    feed: &mut F,
    given: &Given,
    widths: &Widths,
    instr: &Instr,
) -> MachineStep
    requires room { frame.old.height < length cells.old }
    requires pops { takes widths.now instr.now ≤ frame.old.height }
    requires within { IsWithin widths.now instr.now }
    requires locals { locals_for instr.now ≤ length locals.old }
    requires memory { length memory.old ≡ widths.now.memory }
    requires constants { length given.now.constants ≡ widths.now.constants }
    requires inputs { length widths.now.inputs ≤ length (F.feeds feed.old) }
    requires fields { HasFields instr.now (F.feeds feed.old) }
    ensures does { (place : ℕ) → Stepped place (act given.now widths.now (Some instr.now)
        (config place (framed (holding frame.old cells.old) locals.old memory.old)
        (told widths.now added.old) (seen widths.now (F.feeds feed.old))))
        (framed (holding frame.new cells.new) locals.new memory.new)
        (told widths.now added.new) (seen widths.now (F.feeds feed.new)) result }
    ensures fits { frame.new.height ≤ length cells.new }
    ensures quiet { adds_nothing widths.now ≡ true → added.new ≡ added.old }
    ensures rows { rows_of (F.feeds feed.new) ≡ rows_of (F.feeds feed.old) }
    ensures others { drop (length widths.now.inputs) (F.feeds feed.new) ≡
        drop (length widths.now.inputs) (F.feeds feed.old) }
{
    match *instr {
        Instr::Push(number) => pushed(frame, cells, number),
        Instr::Dup => again(frame, cells),
        Instr::Drop => {
            let _dropped = frame.pop(cells);
            MachineStep::On
        }
        Instr::Loc(local) => {
            let value = number_in(locals, local as usize);
            pushed(frame, cells, value)
        }
        Instr::SetLoc(local) => {
            let value = frame.pop(cells);
            set_number(locals, local as usize, value);
            MachineStep::On
        }
        Instr::Mem(column) => {
            let value = number_in(memory, column as usize);
            pushed(frame, cells, value)
        }
        Instr::SetMem(column) => {
            let value = frame.pop(cells);
            set_number(memory, column as usize, value);
            MachineStep::On
        }
        Instr::MemAt(line, column, count) => load(frame, cells, memory, line, column, count),
        Instr::SetMemAt(line, column, count) => store(frame, cells, memory, line, column, count),
        Instr::Const(constant) => pushed(frame, cells, given.constant(constant)),
        Instr::Iter => pushed(frame, cells, given.iteration()),
        Instr::Field(input, column) => read_field(frame, cells, feed, input, column),
        Instr::FieldAt(line, input, column, count) => {
            let width = widths.inputs.items()[input as usize];
            load_field(frame, cells, feed, line, input, column, count, width)
        }
        Instr::Neg(line) => opposite(frame, cells, line),
        Instr::Not => {
            let value = frame.pop(cells);
            pushed(frame, cells, i32::from(value == 0))
        }
        Instr::Add(line) => operate(frame, cells, Op::Add, line),
        Instr::Sub(line) => operate(frame, cells, Op::Sub, line),
        Instr::Mul(line) => operate(frame, cells, Op::Mul, line),
        Instr::Div(line) => operate(frame, cells, Op::Div, line),
        Instr::Rem(line) => operate(frame, cells, Op::Rem, line),
        Instr::Lt => operate(frame, cells, Op::Lt, 0),
        Instr::Gt => operate(frame, cells, Op::Gt, 0),
        Instr::Le => operate(frame, cells, Op::Le, 0),
        Instr::Ge => operate(frame, cells, Op::Ge, 0),
        Instr::Eq => operate(frame, cells, Op::Eq, 0),
        Instr::Ne => operate(frame, cells, Op::Ne, 0),
        Instr::Jump(to) => MachineStep::To(to),
        Instr::JumpZero(to) => jump_zero(frame, cells, to),
        Instr::JumpNotZero(to) => jump_not_zero(frame, cells, to),
        Instr::Pay(line) => pay(frame, line),
        Instr::Enter(input) => {
            feed.begin(input);
            MachineStep::On
        }
        Instr::Next(line, input, to) => next_row(frame, feed, line, input, to),
        Instr::Leave(_) => MachineStep::On,
        Instr::Send(message) => send(frame, cells, added, widths, message),
        Instr::Bear(agent) => bear(frame, cells, added, widths, agent),
        Instr::Call(line, helper, count) => pay_call(frame, line, helper, count),
        Instr::Return => MachineStep::Ended(frame.pop(cells)),
    }
}
