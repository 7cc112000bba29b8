//! Programs.

ghost use Rattle.std.specs.Prelude.{◌≡◌, ◌<◌, IfOk, Some, slice_get, option_map, option_and_then};
ghost use Rattle.std.specs.Option.{option_copied};
ghost use Rattle.flame_spec.specs.Accepted.{IsAccepted};
ghost use Rattle.flame_spec.specs.Before.{function_count};
ghost use Rattle.flame_body.specs.FunctionBodies.{function_bodies, helper_bodies};
ghost use Rattle.flame_cond.specs.Said.{AreConditionsOf};
ghost use Rattle.flame_depend.specs.Plans.{IsPlan};
ghost use Rattle.flame_route.specs.ModelRoutes.{AreRoutesOf};
ghost use Rattle.flame_program.specs.SourceCodes.{function_codes, helper_codes};
ghost use Rattle.flame_program.specs.SourceInputs.{FiltersInput, SortsInput};

use crate::parts::{Parts, parts_of};
use crate::reading::Selector;
use flame_check::Checked;
use flame_code::{Code, Helpers};
use flame_cond::{Cond, Filter, SortBy};
use flame_depend::plans::Plan;
use flame_route::Routes;
use flame_rows::{NoMemory, Same, Seq};
use flame_spec::Source;
use std::alloc::Global;
use std::marker::Model;

/// An accepted source, made ready to run: the codes of its functions and helpers, the conditions of its functions, the
/// filters and keys of their inputs, their routes, and the order, the layers and the starts of its model (FLAME User
/// Manual). It is seen as its source, and all that it holds is what the source says; so two programs are equal where their
/// sources are.
#[derive(Drop)]
pub struct Program {
    source: Source,
    plan: Plan,
    parts: Parts,
}

impl Model for Program {
    ghost use Rattle.std.specs.Coded.{codes};
    ghost use Rattle.flame_spec.specs.contracts.outcomes.Source as e;
    ghost use Rattle.flame_spec.specs.declared.outcomes.Source.{Source};
    ghost use Rattle.flame_spec.specs.Accepted.{IsAccepted};
    ghost use Rattle.flame_depend.specs.Plans.{IsPlan};
    ghost use Rattle.flame_program.specs.ProgramParts.{ArePartsOf};

    ghost Value = { Source };

    ghost coded = { Prim.hlevel (codes, e.the_row.coded) };

    ghost view = { λ p. p.source };

    ghost invariant = { λ p. record {
      accepted : IsAccepted p.source;
      plan : IsPlan p.source.model p.plan;
      parts : ArePartsOf p.source p.parts.codes p.parts.helpers p.parts.conditions p.parts.selectors
          p.parts.routes;
    } };
}

/// The filter and the key of the input of this number, where there is one.
fn selector_at(selectors: &[Seq<Selector>], function: u32, input: u32) -> Option<&Selector>
    ensures { option_map (λ selector. selector.now) result
        ≡ option_and_then (λ inputs. slice_get inputs input) (slice_get selectors.now function) }
{
    match selectors.get(function as usize) {
        Some(inputs) => inputs.items().get(input as usize),
        None => None,
    }
}

impl Program {
    /// The program of an accepted source, of which these are the bodies and the plan. `NoMemory` comes where none is
    /// found, and where 32 bits cannot number the parts of the model, the C functions, the parameters of a helper or the
    /// instructions of a body.
    pub fn make(
        alloc: Global,
        source: Source,
        checked: Checked,
        plan: Plan,
    ) -> Result<Program, NoMemory>
        requires accepted { IsAccepted source }
        requires bodies { checked.bodies ≡ function_bodies source.model source.units }
        requires helpers { checked.helpers ≡ helper_bodies source.model source.units }
        requires plan { IsPlan source.model plan }
        ensures { IfOk result (λ program. program ≡ source) }
    {
        let parts = parts_of(alloc, &source, checked)?;
        Ok(Program {
            source,
            plan,
            parts,
        })
    }

    /// The model and its function files, which are accepted.
    pub fn source(&self) -> &Source
        ensures same { result.now ≡ self.now }
        ensures accepted { IsAccepted self.now }
    {
        &self.source
    }

    /// The order of the model's functions, their layers, and the start state of each agent type.
    pub fn plan(&self) -> &Plan
        ensures { IsPlan self.now.model result.now }
    {
        &self.plan
    }

    /// The routes of the model's functions.
    pub fn routes(&self) -> &Routes
        ensures { AreRoutesOf self.now.model result.now }
    {
        &self.parts.routes
    }

    /// How many functions the model has.
    pub fn functions(&self) -> usize
        ensures { result ≡ function_count self.now.model }
    {
        self.parts.codes.len()
    }

    /// The code of the function of this number, in document order. There is such a function.
    pub fn code(&self, function: u32) -> &Code
        requires { function < function_count self.now.model }
        ensures { slice_get (function_codes self.now) function ≡ Some result.now }
    {
        &self.parts.codes.items()[function as usize]
    }

    /// The codes of the helpers and their numbers of parameters, in source order.
    pub fn helpers(&self) -> &Helpers
        ensures { result.now ≡ helper_codes self.now }
    {
        &self.parts.helpers
    }

    /// The condition of each function, in document order, if it has one.
    pub fn conditions(&self) -> &Seq<Option<Cond>>
        ensures { AreConditionsOf result.now self.now.model }
    {
        &self.parts.conditions
    }

    /// The filter of the input of this number of the function of this number; none where it has none, or where there is no
    /// such input.
    pub fn filter(&self, function: u32, input: u32) -> Option<&Filter>
        ensures { FiltersInput self.now.model function input (option_copied result) }
    {
        match selector_at(self.parts.selectors.items(), function, input) {
            Some(selector) => selector.filter.as_ref(),
            None => None,
        }
    }

    /// The key by which the input of this number of the function of this number is sorted; none where it has none, or where
    /// there is no such input.
    pub fn sort(&self, function: u32, input: u32) -> Option<SortBy>
        ensures { SortsInput self.now.model function input result }
    {
        match selector_at(self.parts.selectors.items(), function, input) {
            Some(selector) => selector.sort,
            None => None,
        }
    }
}

impl Same for Program {
    fn same(&self, other: &Program) -> bool {
        self.source.same(&other.source)
    }
}
