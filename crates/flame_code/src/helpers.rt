//! The codes of helpers.

ghost use Rattle.std.specs.Prelude.{◌≡◌, ◌<◌, ◌==◌, length, slice_get, Some};
ghost use Rattle.std.specs.List.{list_all};
ghost use Rattle.flame_code.specs.HelperCodes.{AreHelpers, call_fits as fitting, calls_fit as fitting_calls, fits as fitting_all};

use crate::codes::Code;
use crate::instrs::Instr;
use flame_rows::Seq;
use std::marker::Model;

/// The codes of helpers with their numbers of parameters, in order. Each calls only helpers of a smaller height than its
/// own, with the right count of arguments, the heights go from 1 to 64, and none sees a memory, an input, a message type
/// or an agent type. So calls are never open more than 64 deep.
#[derive(Debug, Drop)]
pub struct Helpers {
    codes: Seq<Code>,
    parameters: Seq<u32>,
}

impl Model for Helpers {
    ghost use Rattle.flame_code.specs.HelperCodes.{HelperCodes, AreHelpers};

    ghost Value = { HelperCodes };

    ghost view = { λ h. record { routines = h.codes; parameters = h.parameters } };

    ghost invariant = { λ h. AreHelpers (record { routines = h.codes; parameters = h.parameters }) };
}

/// Whether the instruction, where it is a call, names a helper with the right count of arguments.
fn call_fits(parameters: &[u32], instr: &Instr) -> bool
    ensures { result ≡ fitting parameters.now instr.now }
{
    match instr {
        Instr::Call(_, helper, count) => match parameters.get(*helper as usize) {
            Some(parameters) => *parameters == *count,
            None => false,
        },
        _ => true,
    }
}

/// Whether all calls of the code name helpers with the right counts of arguments, where the helpers have these numbers of
/// parameters, in order.
pub fn calls_fit(parameters: &[u32], code: &Code) -> bool
    ensures { result ≡ fitting_calls parameters.now code.now }
{
    code.instrs().iter().all(
        |instr: &Instr| -> bool
            ensures { result ≡ fitting parameters.entry.now instr.now }
        { call_fits(parameters, instr) },
    )
}

/// Whether all codes see so many constants.
fn constants_fit(codes: &[Code], constants: u32) -> bool
    ensures { result ≡ list_all (λ helper. helper.widths.constants == constants) codes.now }
{
    codes.iter().all(
        |helper: &Code| -> bool
            ensures { result ≡ (helper.now.widths.constants == constants) }
        { helper.widths().constants == constants },
    )
}

impl Helpers {
    /// The helpers of these codes, with a number of parameters for each.
    pub fn make(codes: Seq<Code>, parameters: Seq<u32>) -> Helpers
        requires { AreHelpers (record { routines = codes; parameters = parameters }) }
        ensures { result ≡ record { routines = codes; parameters = parameters } }
    {
        Helpers { codes, parameters }
    }

    /// Whether the code's calls name these helpers with the right counts of arguments, and every helper sees as many
    /// constants as the code.
    pub fn fits(&self, code: &Code) -> bool
        ensures { result ≡ fitting_all self.now code.now }
    {
        calls_fit(self.parameters.items(), code)
            && constants_fit(self.codes.items(), code.widths().constants)
    }

    /// How many there are. They are helpers of one another.
    pub fn len(&self) -> usize
        ensures count { result ≡ length self.now.routines }
        ensures among { AreHelpers self.now }
    {
        self.codes.len()
    }

    /// The code of the helper of this number. There is such a helper.
    pub fn code(&self, helper: u32) -> &Code
        requires { helper < length self.now.routines }
        ensures found { slice_get self.now.routines helper ≡ Some result.now }
        ensures among { AreHelpers self.now }
    {
        &self.codes.items()[helper as usize]
    }
}
