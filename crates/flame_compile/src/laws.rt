//! Laws of the code of bodies. A law is its contract: it computes nothing.

ghost use Rattle.flame_compile.specs.CodeCalls.{CodeCallsFit, CodeCallsPass};
ghost use Rattle.flame_compile.specs.Sizes.{ExpressionsAreSized, StatementsAreSized};
ghost use Rattle.flame_compile.specs.ValidCodes.{CodesAreValid};

/// Expressions and statements are as long as their sizes say, wherever they begin and wherever `break` and `continue`
/// go: the places to which a form jumps are those where its parts stand.
pub fn pieces_are_sized()
    ensures expressions { ExpressionsAreSized }
    ensures statements { StatementsAreSized }
{}

/// The code of a body that fits its widths is valid.
pub fn codes_are_valid()
    ensures { CodesAreValid }
{}

/// Where the calls of helpers in a body pass a test of the helper's number and of how many arguments it gets, those in
/// its code do; so where they fit the helpers' numbers of parameters, those in its code do.
pub fn code_calls_fit()
    ensures passing { CodeCallsPass }
    ensures fitting { CodeCallsFit }
{}
