//! Sources made into programs, where they are accepted.

ghost use Rattle.std.specs.Prelude.{◌≡◌, [], IfOk, IfSome, IsTrue};
ghost use Rattle.flame_spec.specs.NameFaults.{name_faults};
ghost use Rattle.flame_spec.specs.WellFormed.{is_well_formed};
ghost use Rattle.flame_depend.specs.Plans.{IsPlan};
ghost use Rattle.flame_case_programs.specs.CheckedFiles.{IsChecked};

use flame_check::{Checked, check};
use flame_depend::plan;
use flame_depend::plans::Plan;
use flame_names::names;
use flame_program::Program;
use flame_program::laws::planned_are_accepted;
use flame_rows::{Fail, NoMemory, Seq};
use flame_spec::{Model, Source, Unit};
use std::alloc::Global;

/// Whether the names of the model have no fault.
fn are_named(alloc: Global, model: &Model) -> Result<bool, NoMemory>
    ensures { IfOk result (λ named. IsTrue named → name_faults model.now ≡ []) }
{
    match names(alloc, model) {
        Ok(()) => Ok(true),
        Err(Fail::Fault(_)) => Ok(false),
        Err(Fail::NoMemory) => Err(NoMemory),
    }
}

/// The bodies of the function files, where they have no fault.
fn checked_in(alloc: Global, model: &Model, units: &Seq<Unit>) -> Result<Option<Checked>, NoMemory>
    ensures { IfOk result (λ found. IfSome found (IsChecked model.now units.now)) }
{
    match check(alloc, model, units) {
        Ok(checked) => Ok(Some(checked)),
        Err(Fail::Fault(_)) => Ok(None),
        Err(Fail::NoMemory) => Err(NoMemory),
    }
}

/// The plan of the model, where it has one and its functions and agent types can be numbered.
fn plan_of(alloc: Global, model: &Model) -> Result<Option<Plan>, NoMemory>
    ensures { IfOk result (λ found. IfSome found (IsPlan model.now)) }
{
    if !model.has_few_functions() || model.agents.len() >= 4294967296 {
        return Ok(None);
    }
    match plan(alloc, model) {
        Ok(plan) => Ok(Some(plan)),
        Err(Fail::Fault(_)) => Ok(None),
        Err(Fail::NoMemory) => Err(NoMemory),
    }
}

/// The program of a source that names, check and plan accept.
fn made(alloc: Global, source: Source, checked: Checked, plan: Plan) -> Result<Program, NoMemory>
    requires formed { IsTrue (is_well_formed source.model) }
    requires named { name_faults source.model ≡ [] }
    requires checked { IsChecked source.model source.units checked }
    requires plan { IsPlan source.model plan }
{
    planned_are_accepted();
    Program::make(alloc, source, checked, plan)
}

/// The program of a source whose model is well formed, and none where names, check or plan refuse it.
pub fn program_of(alloc: Global, source: Source) -> Result<Option<Program>, NoMemory>
    requires formed { IsTrue (is_well_formed source.model) }
{
    if !are_named(alloc, &source.model)? {
        return Ok(None);
    }
    let Some(checked) = checked_in(alloc, &source.model, &source.units)? else {
        return Ok(None);
    };
    let Some(plan) = plan_of(alloc, &source.model)? else {
        return Ok(None);
    };
    Ok(Some(made(alloc, source, checked, plan)?))
}
