//! The codes of bodies.

ghost use Rattle.std.specs.Prelude.{◌≡◌, IfOk, length, map};
ghost use Rattle.flame_spec.specs.Definitions.{helpers};
ghost use Rattle.flame_code_laws.specs.CodeOutcomes.{code_of};
ghost use Rattle.flame_lookup.specs.WordsFound.{definition_found};

use flame_body::Body;
use flame_code::Code;
use flame_compile::compile;
use flame_lookup::CFunction;
use flame_rows::{NoMemory, Seq, number};
use std::alloc::Global;

/// The codes of these bodies.
pub(crate) fn codes_of(alloc: Global, bodies: Seq<Body>) -> Result<Vec<Code>, NoMemory>
    ensures { IfOk result (λ codes. codes.items ≡ map code_of bodies) }
{
    let mut codes = Vec::new(alloc);
    for body in bodies.into_items() {
        codes.push(compile(alloc, body)?)?;
    }
    Ok(codes)
}

/// How many parameters each of these C functions has.
pub(crate) fn parameters_of(alloc: Global, helpers: &[CFunction<'_>]) -> Result<Vec<u32>, NoMemory>
    ensures { IfOk result (λ parameters.
        parameters.items ≡ map (λ d. length d.parameters) (map definition_found helpers.now)) }
{
    let mut parameters = Vec::new(alloc);
    for helper in helpers {
        parameters.push(number(helper.def.parameters.len())?)?;
    }
    Ok(parameters)
}
