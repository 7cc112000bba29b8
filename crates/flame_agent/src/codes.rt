//! The code of the function that an agent runs.

ghost use Rattle.std.specs.Prelude.{◌≡◌, Some, slice_get, true};
ghost use Rattle.flame_body.specs.FunctionBodies.{widths_in};
ghost use Rattle.flame_code.specs.HelperCodes.{fits};
ghost use Rattle.flame_program.specs.SourceCodes.{function_codes, helper_codes};
ghost use Rattle.flame_meaning.specs.Outcomes.{place_of};
ghost use Rattle.flame_agent.specs.FunctionFits.{FitsFunction};

use flame_code::Code;
use flame_program::Program;
use flame_program::laws::accepted_are_runnable;
use flame_rows::Row;
use flame_world::Setting;

/// The code of the function of this number, which sees rows as wide as declared.
pub(crate) fn code_of<'p>(
    program: &'p Program,
    setting: &Setting<'_>,
    function: u32,
    memory: &Row,
) -> &'p Code
    requires { FitsFunction program.now.model function setting.now memory.now }
    ensures code { slice_get (function_codes program.now) function ≡ Some result.now }
    ensures widths { result.now.widths ≡ widths_in program.now.model (place_of program.now function) }
    ensures calls { fits (helper_codes program.now) result.now ≡ true }
{
    accepted_are_runnable();
    let _source = program.source();
    program.code(function)
}
