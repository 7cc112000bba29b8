//! Loading programs.

ghost use Rattle.std.specs.Prelude.{◌≡◌, [], length, Some, IfOk, IfErr, IsTrue};
ghost use Rattle.flame_outside.specs.Files.{Files};
ghost use Rattle.flame_outside.specs.Frames.{OnlyReads};
ghost use Rattle.flame_outside.specs.Failures.{ReadFailed};
ghost use Rattle.flame_spec.specs.CheckFaults.{check_faults};
ghost use Rattle.flame_spec.specs.Counted.{is_counted};
ghost use Rattle.flame_spec.specs.FirstFaults.{FailsFirst};
ghost use Rattle.flame_spec.specs.Lists.{first};
ghost use Rattle.flame_spec.specs.NameFaults.{name_faults};
ghost use Rattle.flame_spec.specs.WellFormed.{is_well_formed};
ghost use Rattle.flame_depend.specs.Plans.{IsPlan};
ghost use Rattle.flame_load.specs.CheckedSources.{IsChecked};
ghost use Rattle.flame_load.specs.FunctionFileReads.{units_in};
ghost use Rattle.flame_load.specs.LoadAnswers.{Stops, Gives, IsTold, IsReadFault};
ghost use Rattle.flame_load.specs.LoadedSources.{planned_source, sound_source, source_of, loading};
ghost use Rattle.flame_load.specs.TextReads.{Reader, ReadsTexts};

use crate::faults::{LoadFail, LoadFault};
use crate::function_files::units_in;
use crate::model_files::model_in;
use flame_check::{Checked, check};
use flame_depend::plan;
use flame_depend::plans::Plan;
use flame_outside::Depot;
use flame_program::Program;
use flame_program::laws::planned_are_accepted;
use flame_rows::{Fail, NoMemory, Seq};
use flame_spec::{CheckFault, Model, Source, Unit};
use std::alloc::Global;

/// The program of a source that is accepted, of which these are the bodies and the plan.
#[tactic(auto, using(crate::proofs::SoundSources::counted_as_source))]
fn made(alloc: Global, source: Source, checked: Checked, plan: Plan) -> Result<Program, NoMemory>
    requires formed { IsTrue (is_well_formed source.model) }
    requires counted { IsTrue (is_counted source.model) }
    requires named { name_faults source.model ≡ [] }
    requires checked { IsChecked source checked }
    requires plan { IsPlan source.model plan }
    ensures same { IfOk result (λ program. program ≡ source) }
    ensures counted { IfOk result (λ program. IsTrue (is_counted program.model)) }
{
    planned_are_accepted();
    Program::make(alloc, source, checked, plan)
}

/// The program of a source that stands but for the order of its functions and the starts of its agents.
#[tactic(auto, using(crate::proofs::OrderFaults::planned_given, crate::proofs::OrderFaults::planned_refused, crate::proofs::OrderFaults::fault_is_found))]
fn planned(alloc: Global, source: Source, checked: Checked) -> Result<Program, LoadFail>
    requires formed { IsTrue (is_well_formed source.model) }
    requires counted { IsTrue (is_counted source.model) }
    requires named { name_faults source.model ≡ [] }
    requires checked { IsChecked source checked }
    ensures gives { Gives (λ program. program) result (planned_source source) }
    ensures counted { IfOk result (λ program. IsTrue (is_counted program.model)) }
    ensures told { IfErr result IsTold }
    ensures calm { IfErr result (λ fail. ¬ IsReadFault fail) }
{
    match plan(alloc, &source.model) {
        Ok(plan) => Ok(made(alloc, source, checked, plan)?),
        Err(Fail::Fault(fault)) => {
            let reason = LoadFault::Depend(fault);
            Err(LoadFail::RefusedModel(reason, source.model))
        }
        Err(Fail::NoMemory) => Err(LoadFail::NoMemory),
    }
}

/// The bodies of the source's function files, where they have no fault.
fn bodies_of(alloc: Global, source: &Source) -> Result<Checked, Fail<CheckFault>>
    ensures checked { IfOk result (IsChecked source.now) }
    ensures first { IfErr result (FailsFirst (check_faults source.now.model source.now.units)) }
{
    check(alloc, &source.model, &source.units)
}

/// Why nothing is loaded, where this is the first fault of the source's function files.
#[tactic(auto, using(crate::proofs::SoundSources::sound_source_refused, crate::proofs::OrderFaults::check_fault_tells))]
fn check_refusal(source: Source, fault: CheckFault) -> LoadFail
    requires paired { length source.units ≡ length source.model.files }
    requires found { first (check_faults source.model source.units) ≡ Some fault }
    ensures stops { Stops result (sound_source source) }
    ensures told { IsTold result }
    ensures calm { ¬ IsReadFault result }
{
    LoadFail::RefusedModel(LoadFault::Check(fault), source.model)
}

/// The program of a source whose model is well formed, can be numbered, and has no fault in its names.
fn sound(alloc: Global, source: Source) -> Result<Program, LoadFail>
    requires formed { IsTrue (is_well_formed source.model) }
    requires counted { IsTrue (is_counted source.model) }
    requires named { name_faults source.model ≡ [] }
    requires paired { length source.units ≡ length source.model.files }
    ensures gives { Gives (λ program. program) result (sound_source source) }
    ensures counted { IfOk result (λ program. IsTrue (is_counted program.model)) }
    ensures told { IfErr result IsTold }
    ensures calm { IfErr result (λ fail. ¬ IsReadFault fail) }
{
    match bodies_of(alloc, &source) {
        Ok(checked) => planned(alloc, source, checked),
        Err(Fail::Fault(fault)) => Err(check_refusal(source, fault)),
        Err(Fail::NoMemory) => Err(LoadFail::NoMemory),
    }
}

/// The C functions in the function files of the model.
fn units_of<D: Depot>(alloc: Global, depot: &mut D, model: &Model) -> Result<Seq<Unit>, LoadFail>
    ensures gives { (told : Files) (read : Reader) → (D.seen depot.old).files ≡ Some told → ReadsTexts read
        → Gives (λ units. units) result (units_in read told model.now.files) }
    ensures paired { IfOk result (λ units. length units ≡ length model.now.files) }
    ensures told { IfErr result IsTold }
    ensures read_fault { IfErr result (λ fail. IsReadFault fail
        → ReadFailed (D.seen depot.old) (D.seen depot.new)) }
    ensures reads { OnlyReads (D.seen depot.old) (D.seen depot.new) }
{
    match units_in(alloc, depot, model.files.items()) {
        Ok(units) => Ok(Seq::of(units)),
        Err(fail) => Err(fail),
    }
}

/// The program of a model, whose function files are read.
fn program_of<D: Depot>(alloc: Global, depot: &mut D, model: Model) -> Result<Program, LoadFail>
    requires formed { IsTrue (is_well_formed model) }
    requires counted { IsTrue (is_counted model) }
    requires named { name_faults model ≡ [] }
    ensures gives { (told : Files) (read : Reader) → (D.seen depot.old).files ≡ Some told → ReadsTexts read
        → Gives (λ program. program) result (source_of read told model) }
    ensures counted { IfOk result (λ program. IsTrue (is_counted program.model)) }
    ensures told { IfErr result IsTold }
    ensures read_fault { IfErr result (λ fail. IsReadFault fail
        → ReadFailed (D.seen depot.old) (D.seen depot.new)) }
    ensures reads { OnlyReads (D.seen depot.old) (D.seen depot.new) }
{
    let units = units_of(alloc, depot, &model)?;
    sound(alloc, Source { model, units })
}

/// The program of the source that the files of a depot stand for, from the model file of this name on.
///
/// The model files are read first: that of the name, and right behind each file its nested files, in the order of its
/// list; a name by which a file was read is passed over. They mean a flat model together. Then its function files are
/// read, in the order of its list. Model files and function files have at most 4,194,304 bytes each, and there are at
/// most 64 model files. A file is held only while it is read.
///
/// # Errors
///
/// `Refused` and `RefusedModel` have the first refusal in this order: each model file is missing, too large, not JSON, or
/// has a shape fault, where the reading of a 65th is one too many; the data types and nested files have a fault; the
/// names of the flat model have one; each function file is missing, too large, cannot be cut into lexemes, or spells no
/// function definitions; the function files have a fault; functions stand before one another in a round; a type has many
/// start states. `RefusedModel` has the flat model where the fault is one of the last three. `ReadFault` has the name of an
/// input before which none is refused, and comes only where the depot's count of failed reads rose. `NoMemory` is want of
/// memory, also for a model with more parts than 32 bits can number. Whatever it answers, the depot has only been read.
pub fn load<D: Depot>(alloc: Global, depot: &mut D, name: &str) -> Result<Program, LoadFail>
    // Where the depot tells its files: with each reader that gives for each text what the text is read as.
    ensures gives { (told : Files) (read : Reader) → (D.seen depot.old).files ≡ Some told → ReadsTexts read
        → Gives (λ program. program) result (loading read told name.now) }

    // Whatever the depot tells.
    ensures counted { IfOk result (λ program. IsTrue (is_counted program.model)) }
    ensures told { IfErr result IsTold }
    ensures read_fault { IfErr result (λ fail. IsReadFault fail
        → ReadFailed (D.seen depot.old) (D.seen depot.new)) }
    ensures reads { OnlyReads (D.seen depot.old) (D.seen depot.new) }
{
    let model = model_in(alloc, depot, name)?;
    program_of(alloc, depot, model)
}
