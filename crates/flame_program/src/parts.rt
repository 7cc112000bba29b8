//! What is made of a source.

ghost use Rattle.std.specs.Prelude.{◌≡◌, IfOk, IsTrue, map};
ghost use Rattle.flame_spec.specs.Accepted.{IsAccepted};
ghost use Rattle.flame_spec.specs.Counted.{is_counted};
ghost use Rattle.flame_spec.specs.Definitions.{helpers};
ghost use Rattle.flame_body.specs.FunctionBodies.{function_bodies, helper_bodies};
ghost use Rattle.flame_lookup.specs.WordsFound.{definition_found};
ghost use Rattle.flame_program.specs.ProgramParts.{ArePartsOf};
ghost use Rattle.flame_program.specs.SourceCodes.{helper_codes};

use crate::compiling::{codes_of, parameters_of};
use crate::reading::{Selector, conditions_of, selectors_of};
use flame_body::Body;
use flame_check::Checked;
use flame_code::{Code, Helpers};
use flame_cond::Cond;
use flame_lookup::{CFunction, Tables};
use flame_route::Routes;
use flame_rows::{NoMemory, Seq};
use flame_spec::Source;
use std::alloc::Global;

/// What is made of a source: the codes, conditions, filters, keys and routes of its functions, and the codes of its
/// helpers.
#[derive(Drop)]
pub(crate) struct Parts {
    pub codes: Seq<Code>,
    pub helpers: Helpers,
    pub conditions: Seq<Option<Cond>>,
    pub selectors: Seq<Seq<Selector>>,
    pub routes: Routes,
}

/// The helpers of an accepted source, of which these are the bodies and the C functions.
fn helpers_of(
    alloc: Global,
    source: &Source,
    bodies: Seq<Body>,
    functions: &[CFunction<'_>],
) -> Result<Helpers, NoMemory>
    requires accepted { IsAccepted source.now }
    requires bodies { bodies ≡ helper_bodies source.now.model source.now.units }
    requires functions { map definition_found functions.now ≡ helpers source.now.model source.now.units }
    ensures { IfOk result (λ helpers. helpers ≡ helper_codes source.now) }
{
    let codes = codes_of(alloc, bodies)?;
    let parameters = parameters_of(alloc, functions)?;
    Ok(Helpers::make(Seq::of(codes), Seq::of(parameters)))
}

/// The parts of an accepted source that can be numbered, by its tables and the bodies.
fn parts_by(
    alloc: Global,
    source: &Source,
    tables: &Tables<'_>,
    checked: Checked,
) -> Result<Parts, NoMemory>
    requires accepted { IsAccepted source.now }
    requires counted { IsTrue (is_counted source.now.model) }
    requires tables { tables.now ≡ record { model = source.now.model; units = source.now.units } }
    requires bodies { checked.bodies ≡ function_bodies source.now.model source.now.units }
    requires helpers { checked.helpers ≡ helper_bodies source.now.model source.now.units }
    ensures { IfOk result (λ parts.
        ArePartsOf source.now parts.codes parts.helpers parts.conditions parts.selectors parts.routes) }
{
    let codes = codes_of(alloc, checked.bodies)?;
    let helpers = helpers_of(alloc, source, checked.helpers, tables.helpers())?;
    let conditions = conditions_of(alloc, &source.model, tables.transitions())?;
    let selectors = selectors_of(alloc, &source.model, tables.transitions())?;
    let routes = Routes::of(alloc, &source.model)?;
    Ok(Parts {
        codes: Seq::of(codes),
        helpers,
        conditions: Seq::of(conditions),
        selectors: Seq::of(selectors),
        routes,
    })
}

/// The parts of an accepted source, of which these are the bodies. `NoMemory` comes too where 32 bits cannot number the
/// parts of the model, the C functions, the parameters of a helper or the instructions of a body.
pub(crate) fn parts_of(alloc: Global, source: &Source, checked: Checked) -> Result<Parts, NoMemory>
    requires accepted { IsAccepted source.now }
    requires bodies { checked.bodies ≡ function_bodies source.now.model source.now.units }
    requires helpers { checked.helpers ≡ helper_bodies source.now.model source.now.units }
    ensures { IfOk result (λ parts.
        ArePartsOf source.now parts.codes parts.helpers parts.conditions parts.selectors parts.routes) }
{
    if !source.model.is_counted() {
        return Err(NoMemory);
    }
    let tables = Tables::of(alloc, &source.model, &source.units)?;
    parts_by(alloc, source, &tables, checked)
}
