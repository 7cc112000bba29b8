//! Tests of what a run asks of its callers.

ghost use Rattle.std.specs.Prelude.{◌≡◌, ◌==◌, if◌then◌else◌, ℕ, ℤ, IsTrue, Some, None, slice_index};
ghost use Rattle.std.specs.List.{list_all, zip};
ghost use Rattle.flame_code.specs.HelperCodes.{HelperCodes, calls_below as below, sees_nothing as sees_none};
ghost use Rattle.flame_code.specs.Meanings.{FitsEntry};
ghost use Rattle.flame_code.specs.Routines.{Routine};
ghost use Rattle.flame_machine.specs.Fitting.{helper_fits as fitting, heights_fit as fitting_heights};

use crate::lists::Lists;
use flame_code::{Code, Helpers, Instr, calls_fit};
use flame_rows::{Row, Seq};

/// The greatest height of a helper.
const DEEPEST_CALLS: u32 = 64;

/// The height of the helper of this number, 0 without one.
fn height_at(heights: &[u32], helper: u32) -> u32
    ensures { result ≡ slice_index heights.now helper }
{
    match heights.get(helper as usize) {
        Some(height) => *height,
        None => 0,
    }
}

/// Whether the instruction calls only helpers of a smaller height than this.
fn calls_below(heights: &[u32], height: u32, instr: &Instr) -> bool
    ensures { result ≡ below heights.now height instr.now }
{
    match instr {
        Instr::Call(_, helper, _) => height_at(heights, *helper) < height,
        _ => true,
    }
}

/// Whether all instructions call only helpers of a smaller height than this.
fn all_below(heights: &[u32], height: u32, code: &Code) -> bool
    ensures { result ≡ list_all (below heights.now height) code.now.instrs }
{
    code.instrs().iter().all(
        |instr: &Instr| -> bool
            ensures { result ≡ below heights.entry.now height instr.now }
        { calls_below(heights, height, instr) },
    )
}

/// Whether the code sees no memory, no inputs, no messages and no agent types.
fn sees_nothing(code: &Code) -> bool
    ensures { result ≡ sees_none code.now }
{
    let widths = code.widths();
    widths.memory == 0
        && widths.inputs.len() == 0
        && widths.messages.len() == 0
        && widths.agents.len() == 0
}

/// Whether a code of this height is a helper of these.
fn helper_fits(parameters: &[u32], heights: &[u32], height: u32, code: &Code) -> bool
    ensures { result ≡ fitting parameters.now heights.now height code.now }
{
    1 <= height
        && height <= DEEPEST_CALLS
        && all_below(heights, height, code)
        && calls_fit(parameters, code)
        && sees_nothing(code)
}

/// Whether each code of its height is a helper of these.
fn all_fit(codes: &[Code], parameters: &[u32], heights: &[u32]) -> bool
    ensures { result ≡ list_all (λ (pair : ℕ × Routine). fitting parameters.now heights.now pair.0 pair.1)
        (zip heights.now codes.now) }
{
    heights.iter().zip(codes.iter()).all(
        |pair: (&u32, &Code)| -> bool
            ensures { result ≡ fitting parameters.entry.now heights.entry.now (pair.entry.0).now (pair.entry.1).now }
        { helper_fits(parameters, heights, *pair.0, pair.1) },
    )
}

/// Whether the heights show that the codes are helpers of one another.
fn heights_fit(codes: &[Code], parameters: &[u32], heights: &[u32]) -> bool
    ensures { result ≡ fitting_heights (record { routines = codes.now; parameters = parameters.now }) heights.now }
{
    parameters.len() == codes.len()
        && heights.len() == codes.len()
        && all_fit(codes, parameters, heights)
}

/// The helpers of these codes, with a number of parameters for each, where the heights show that they are helpers of one
/// another, and none where they do not. Each calls only helpers of a smaller height, and heights go from 1 to 64.
pub fn helpers_of(codes: Seq<Code>, parameters: Seq<u32>, heights: &[u32]) -> Option<Helpers>
    ensures { result ≡ (let h : HelperCodes = record { routines = codes; parameters = parameters } in
        if fitting_heights h heights.now then Some h else None) }
{
    if heights_fit(codes.items(), parameters.items(), heights) {
        Some(Helpers::make(codes, parameters))
    } else {
        None
    }
}

/// Whether the memory, the rows of the inputs and the constants have the widths that the code sees, and there is a list
/// of rows for each of its inputs.
pub fn fits_entry(code: &Code, memory: &Row, feed: &Lists, constants: &Row) -> bool
    ensures fits { IsTrue result → (iteration : ℤ) (fuel : ℕ) → FitsEntry code.now (record {
      memory = memory.now;
      feeds = feed.now;
      constants = constants.now;
      iteration = iteration;
      fuel = fuel;
    }) }
    ensures only { (iteration : ℤ) (fuel : ℕ) → FitsEntry code.now (record {
      memory = memory.now;
      feeds = feed.now;
      constants = constants.now;
      iteration = iteration;
      fuel = fuel;
    }) → IsTrue result }
{
    let widths = code.widths();
    memory.values().len() == widths.memory as usize
        && constants.values().len() == widths.constants as usize
        && feed.have_widths(widths.inputs.items())
}
