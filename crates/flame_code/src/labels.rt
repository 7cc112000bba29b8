//! Labels that show that a code is valid.

ghost use Rattle.std.specs.Prelude.{◌≡◌, if◌then◌else◌, ◌<◌, ◌^◌, ◌+◌, List, ◌==◌, length, slice_get, slice_index, Some, None, true, IfSome};
ghost use Rattle.std.specs.List.{list_all};
ghost use Rattle.std.specs.Option.{option_copied, option_map_or};
ghost use Rattle.flame_code.specs.Labels.{has_input as is_among, has_passed as is_passed, has_jumped as is_jumped, fits_at as fitting_at};
ghost use Rattle.flame_code.specs.Labels.{goes_fit as goes_fitting, target_fit as target_fitting, spends as spending, forward_fit as forward_fitting};
ghost use Rattle.flame_code.specs.Labels.{is_within as within_widths, place_fits as place_fitting, all_fit as all_fitting, labels_fit as fitting};
ghost use Rattle.flame_code.specs.Labels.{starts_fit as starts_fitting, ends_fit as ends_fitting};
ghost use Rattle.flame_code.specs.Routines.{Routine, takes, leaves, goes_on as going_on, target as targeted, reads as reading};

use crate::codes::Code;
use crate::instrs::Instr;
use flame_rows::Seq;
use flame_spec::Widths;

/// What holds of a place of a code on every path to it.
#[derive(Debug, Drop)]
pub struct Label {
    /// The height of the stack.
    pub height: u32,
    /// Inputs of which the current row was delivered.
    pub rows: Seq<u32>,
}

/// The width in this place, 0 without one.
fn width_at(widths: &Seq<u32>, place: u32) -> u32
    ensures { result ≡ slice_index widths.now place }
{
    match widths.items().get(place as usize) {
        Some(width) => *width,
        None => 0,
    }
}

/// How many values the instruction takes from the stack.
// ORDER INSTRUCTIONS
fn taken(widths: &Widths, instr: &Instr) -> u32
    ensures { result ≡ takes widths.now instr.now }
{
    match instr {
        Instr::Dup => 1,
        Instr::Drop => 1,
        Instr::SetLoc(_) => 1,
        Instr::SetMem(_) => 1,
        Instr::MemAt(_, _, _) => 1,
        Instr::SetMemAt(_, _, _) => 2,
        Instr::FieldAt(_, _, _, _) => 1,
        Instr::Neg(_) => 1,
        Instr::Not => 1,
        Instr::Add(_) => 2,
        Instr::Sub(_) => 2,
        Instr::Mul(_) => 2,
        Instr::Div(_) => 2,
        Instr::Rem(_) => 2,
        Instr::Lt => 2,
        Instr::Gt => 2,
        Instr::Le => 2,
        Instr::Ge => 2,
        Instr::Eq => 2,
        Instr::Ne => 2,
        Instr::JumpZero(_) => 1,
        Instr::JumpNotZero(_) => 1,
        Instr::Send(message) => width_at(&widths.messages, *message),
        Instr::Bear(agent) => width_at(&widths.agents, *agent),
        Instr::Call(_, _, count) => *count,
        Instr::Return => 1,
        _ => 0,
    }
}

/// How many values the instruction leaves on the stack in their place.
// ORDER INSTRUCTIONS
fn left(widths: &Widths, instr: &Instr) -> u32
    ensures { result ≡ leaves widths.now instr.now }
{
    match instr {
        Instr::Dup => 2,
        Instr::Drop => 0,
        Instr::SetLoc(_) => 0,
        Instr::SetMem(_) => 0,
        Instr::SetMemAt(_, _, _) => 0,
        Instr::Jump(_) => 0,
        Instr::JumpZero(_) => 0,
        Instr::JumpNotZero(_) => 0,
        Instr::Pay(_) => 0,
        Instr::Enter(_) => 0,
        Instr::Next(_, _, _) => 0,
        Instr::Leave(_) => 0,
        Instr::Send(_) => 0,
        Instr::Bear(_) => 0,
        Instr::Return => 0,
        _ => 1,
    }
}

/// Whether the run may go on at the next place.
fn goes_on(instr: &Instr) -> bool
    ensures { result ≡ going_on instr.now }
{
    match instr {
        Instr::Jump(_) => false,
        Instr::Return => false,
        _ => true,
    }
}

/// The place where else the run may go on.
fn target(instr: &Instr) -> Option<u32>
    ensures { result ≡ targeted instr.now }
{
    match instr {
        Instr::Jump(to) => Some(*to),
        Instr::JumpZero(to) => Some(*to),
        Instr::JumpNotZero(to) => Some(*to),
        Instr::Next(_, _, to) => Some(*to),
        _ => None,
    }
}

/// The input whose current row the instruction reads.
fn reads(instr: &Instr) -> Option<u32>
    ensures { result ≡ reading instr.now }
{
    match instr {
        Instr::Field(input, _) => Some(*input),
        Instr::FieldAt(_, input, _, _) => Some(*input),
        _ => None,
    }
}

/// Whether all that the instruction names is within the widths.
fn is_within(widths: &Widths, instr: &Instr) -> bool
    ensures { result ≡ within_widths widths.now instr.now }
{
    match instr {
        Instr::Mem(column) => *column < widths.memory,
        Instr::SetMem(column) => *column < widths.memory,
        Instr::MemAt(_, column, count) => *column as u64 + *count as u64 <= widths.memory as u64,
        Instr::SetMemAt(_, column, count) => *column as u64 + *count as u64 <= widths.memory as u64,
        Instr::Const(constant) => *constant < widths.constants,
        Instr::Field(input, column) => {
            (*input as usize) < widths.inputs.len() && *column < width_at(&widths.inputs, *input)
        }
        Instr::FieldAt(_, input, column, count) => {
            (*input as usize) < widths.inputs.len()
                && *column as u64 + *count as u64 <= width_at(&widths.inputs, *input) as u64
        }
        Instr::Enter(input) => (*input as usize) < widths.inputs.len(),
        Instr::Next(_, input, _) => (*input as usize) < widths.inputs.len(),
        Instr::Leave(input) => (*input as usize) < widths.inputs.len(),
        Instr::Send(message) => (*message as usize) < widths.messages.len(),
        Instr::Bear(agent) => (*agent as usize) < widths.agents.len(),
        _ => true,
    }
}

/// Whether the input is among these.
fn has_input(rows: &[u32], input: u32) -> bool
    ensures { result ≡ is_among rows.now input }
{
    rows.iter().any(
        |other: &u32| -> bool
            ensures { result ≡ (other.now == input) }
        { *other == input },
    )
}

/// Whether of this input a row was delivered behind the instruction, where the run goes on at the next place.
fn has_passed(instr: &Instr, rows: &[u32], input: u32) -> bool
    ensures { result ≡ is_passed instr.now rows.now input }
{
    match instr {
        Instr::Enter(gone) => input != *gone && has_input(rows, input),
        Instr::Next(_, come, _) => input == *come || has_input(rows, input),
        Instr::Leave(gone) => input != *gone && has_input(rows, input),
        _ => has_input(rows, input),
    }
}

/// Whether of this input a row was delivered behind the instruction, where the run goes on at its target.
fn has_jumped(instr: &Instr, rows: &[u32], input: u32) -> bool
    ensures { result ≡ is_jumped instr.now rows.now input }
{
    match instr {
        Instr::Next(_, gone, _) => input != *gone && has_input(rows, input),
        _ => has_input(rows, input),
    }
}

/// Whether all these inputs have a row behind the instruction, where the run goes on at the next place.
fn all_passed(instr: &Instr, rows: &[u32], inputs: &[u32]) -> bool
    ensures { result ≡ list_all (is_passed instr.now rows.now) inputs.now }
{
    inputs.iter().all(
        |input: &u32| -> bool
            ensures { result ≡ is_passed instr.entry.now rows.entry.now input.now }
        { has_passed(instr, rows, *input) },
    )
}

/// Whether all these inputs have a row behind the instruction, where the run goes on at its target.
fn all_jumped(instr: &Instr, rows: &[u32], inputs: &[u32]) -> bool
    ensures { result ≡ list_all (is_jumped instr.now rows.now) inputs.now }
{
    inputs.iter().all(
        |input: &u32| -> bool
            ensures { result ≡ is_jumped instr.entry.now rows.entry.now input.now }
        { has_jumped(instr, rows, *input) },
    )
}

/// Whether the height behind the instruction is the label's.
fn levels(widths: &Widths, instr: &Instr, here: &Label, there: &Label) -> bool
    ensures { result ≡ (there.now.height + takes widths.now instr.now == here.now.height + leaves widths.now instr.now) }
{
    there.height as u64 + taken(widths, instr) as u64
        == here.height as u64 + left(widths, instr) as u64
}

/// Whether the label of the next place fits.
fn next_fits(widths: &Widths, instr: &Instr, here: &Label, there: Option<&Label>) -> bool
    ensures { result ≡ fitting_at widths.now instr.now here.now (is_passed instr.now here.now.rows) (option_copied there.entry) }
{
    match there {
        Some(there) => {
            levels(widths, instr, here, there)
                && all_passed(instr, here.rows.items(), there.rows.items())
        }
        None => false,
    }
}

/// Whether the label of the target fits.
fn aim_fits(widths: &Widths, instr: &Instr, here: &Label, there: Option<&Label>) -> bool
    ensures { result ≡ fitting_at widths.now instr.now here.now (is_jumped instr.now here.now.rows) (option_copied there.entry) }
{
    match there {
        Some(there) => {
            levels(widths, instr, here, there)
                && all_jumped(instr, here.rows.items(), there.rows.items())
        }
        None => false,
    }
}

/// Whether a jump back from the place to this instruction spends fuel.
fn spends(place: usize, instr: &Instr) -> bool
    ensures { result ≡ spending place instr.now }
{
    match instr {
        Instr::Pay(_) => true,
        Instr::Next(_, _, to) => place < *to as usize,
        _ => false,
    }
}

/// Whether a `Next` goes on behind itself.
fn goes_forward(place: usize, instr: &Instr) -> bool
    ensures { result ≡ forward_fitting place instr.now }
{
    match instr {
        Instr::Next(_, _, to) => place < *to as usize,
        _ => true,
    }
}

/// Whether the label of the next place fits, where the run may go on there.
fn goes_fit(widths: &Widths, labels: &[Label], place: usize, instr: &Instr, here: &Label) -> bool
    requires { place + 1 < 2 ^ 64 }
    ensures { result ≡ goes_fitting widths.now labels.now place instr.now here.now }
{
    !goes_on(instr) || next_fits(widths, instr, here, labels.get(place + 1))
}

/// Whether the label of the target fits, and a jump back spends fuel.
fn target_fits(
    instrs: &[Instr],
    widths: &Widths,
    labels: &[Label],
    place: usize,
    instr: &Instr,
    here: &Label,
    to: u32,
) -> bool
    ensures { result ≡ target_fitting (record { instrs = instrs.now; widths = widths.now }) labels.now place instr.now here.now (Some to) }
{
    let to = to as usize;
    if !aim_fits(widths, instr, here, labels.get(to)) {
        return false;
    }
    if place < to {
        return true;
    }
    match instrs.get(to) {
        Some(there) => spends(place, there),
        None => false,
    }
}

/// Whether the row that the instruction reads was delivered.
fn reads_fit(instr: &Instr, here: &Label) -> bool
    ensures { result ≡ option_map_or (is_among here.now.rows) (reading instr.now) true }
{
    match reads(instr) {
        Some(input) => has_input(here.rows.items(), input),
        None => true,
    }
}

/// Whether the target, if any, fits.
fn aims_fit(
    instrs: &[Instr],
    widths: &Widths,
    labels: &[Label],
    place: usize,
    instr: &Instr,
    here: &Label,
) -> bool
    ensures { result ≡ target_fitting (record { instrs = instrs.now; widths = widths.now }) labels.now place instr.now here.now (targeted instr.now) }
{
    match target(instr) {
        Some(to) => target_fits(instrs, widths, labels, place, instr, here, to),
        None => true,
    }
}

/// Whether the label of a place fits its instruction and the labels of the places behind it.
fn place_fits(
    instrs: &[Instr],
    widths: &Widths,
    labels: &[Label],
    place: usize,
    instr: &Instr,
    here: &Label,
) -> bool
    requires { place + 1 < 2 ^ 64 }
    ensures { result ≡ place_fitting (record { instrs = instrs.now; widths = widths.now }) labels.now place instr.now here.now }
{
    taken(widths, instr) <= here.height
        && reads_fit(instr, here)
        && is_within(widths, instr)
        && goes_forward(place, instr)
        && goes_fit(widths, labels, place, instr, here)
        && aims_fit(instrs, widths, labels, place, instr, here)
}

fn instr_at(instrs: &[Instr], place: usize) -> &Instr
    requires { place < length instrs.now }
    ensures { slice_get instrs.now place ≡ Some result.now }
{
    &instrs[place]
}

fn label_at(labels: &[Label], place: usize) -> &Label
    requires { place < length labels.now }
    ensures { slice_get labels.now place ≡ Some result.now }
{
    &labels[place]
}

/// Whether there is a label for each instruction, and it fits.
fn all_fit(instrs: &[Instr], widths: &Widths, labels: &[Label]) -> bool
    requires few { length instrs.now < 2 ^ 32 }
    ensures { result ≡ all_fitting (record { instrs = instrs.now; widths = widths.now }) labels.now 0 instrs.now labels.now }
{
    if labels.len() != instrs.len() {
        return false;
    }
    for place in 0..instrs.len() {
        if !place_fits(
            instrs,
            widths,
            labels,
            place,
            instr_at(instrs, place),
            label_at(labels, place),
        ) {
            return false;
        }
    }
    true
}

/// Whether the stack is empty at the begin, and no row was delivered there.
fn starts_fit(labels: &[Label]) -> bool
    ensures { result ≡ starts_fitting (slice_get labels.now 0) }
{
    match labels.first() {
        Some(label) => label.height == 0 && label.rows.is_empty(),
        None => false,
    }
}

/// Whether the last instruction is `Return`.
fn ends_fit(instrs: &[Instr]) -> bool
    ensures { result ≡ ends_fitting instrs.now }
{
    match instrs.last() {
        Some(Instr::Return) => true,
        _ => false,
    }
}

/// Whether the labels show that the instructions are valid code with these widths.
pub fn labels_fit(instrs: &[Instr], widths: &Widths, labels: &[Label]) -> bool
    requires few { length instrs.now < 2 ^ 32 }
    ensures { result ≡ fitting (record { instrs = instrs.now; widths = widths.now }) labels.now }
{
    starts_fit(labels) && ends_fit(instrs) && all_fit(instrs, widths, labels)
}

/// The code of these instructions with these widths, where the labels show that it is valid, and none where they do not.
pub fn labelled(instrs: Seq<Instr>, widths: Widths, labels: &[Label]) -> Option<Code>
    requires few { length instrs < 2 ^ 32 }
    ensures { result ≡ (let r : Routine = record { instrs = instrs; widths = widths } in
        if fitting r labels.now then Some r else None) }
{
    if labels_fit(instrs.items(), &widths, labels) {
        Some(Code::make(instrs, widths))
    } else {
        None
    }
}
