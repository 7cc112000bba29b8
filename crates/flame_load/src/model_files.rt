//! The model files, and the model that they mean together.

ghost use Rattle.std.specs.Prelude.{◌≡◌, ◌<◌, ◌≤◌, ◌+◌, [], length, Some, IfOk, IfErr, IsTrue, OnOk};
ghost use Rattle.std.specs.List.{list_all};
ghost use Rattle.serde_json.specs.View.{view};
ghost use Rattle.flame_outside.specs.Files.{Files};
ghost use Rattle.flame_outside.specs.Frames.{OnlyReads};
ghost use Rattle.flame_outside.specs.Failures.{ReadFailed};
ghost use Rattle.flame_spec.specs.Counted.{is_counted};
ghost use Rattle.flame_spec.specs.KnownNames.{is_among};
ghost use Rattle.flame_spec.specs.NameFaults.{name_faults};
ghost use Rattle.flame_spec.specs.WellFormed.{is_well_formed};
ghost use Rattle.flame_spec.specs.WideModels.{is_well_formed_wide};
ghost use Rattle.flame_load.specs.FileReads.{source_limit, value_in};
ghost use Rattle.flame_load.specs.InputReads.{input};
ghost use Rattle.flame_load.specs.LoadAnswers.{Gives, IsTold, IsReadFault};
ghost use Rattle.flame_load.specs.LoadRefusals.{of_files, file_refusal};
ghost use Rattle.flame_load.specs.ModelFileReads.{ModelFiles, wide_of_value, wide_in, and_file, with_all, with_name, most_files, model_files, flat_model, named_model, model_of_files, model_in};
ghost use Rattle.flame_load.specs.RestsOfReadings.{files_read, Leaves, Adds};

use crate::faults::{LoadFail, LoadFault};
use crate::files::{SOURCE_LIMIT, load_fail, value_in};
use flame_names::names;
use flame_nest::flatten;
use flame_nest::laws::formed_files;
use flame_outside::Depot;
use flame_rows::{Fail, NoMemory, Seq, Text};
use flame_spec::{Model, Wide};
use flame_xmml::laws::well_formed_wide;
use flame_xmml::wide_of;
use serde_json::Value;
use std::alloc::Global;

/// The most model files of a model.
const MOST_FILES: usize = 64;

/// Model files that were read, with their names, in the order of their reading.
#[derive(Drop)]
pub(crate) struct FilesRead {
    names: Vec<Text>,
    wides: Vec<Wide>,
}

/// The JSON value in the model file of that name.
fn model_value<D: Depot>(alloc: Global, depot: &mut D, name: &str) -> Result<Value, LoadFail>
    ensures gives { (told : Files) → (D.seen depot.old).files ≡ Some told → Gives view result
        (input (λ fault. of_files (file_refusal name.now fault)) name.now (value_in told source_limit name.now)) }
    ensures told { IfErr result IsTold }
    ensures read_fault { IfErr result (λ fail. IsReadFault fail
        → ReadFailed (D.seen depot.old) (D.seen depot.new)) }
    ensures reads { OnlyReads (D.seen depot.old) (D.seen depot.new) }
{
    match value_in(alloc, depot, name, SOURCE_LIMIT) {
        Ok(value) => Ok(value),
        Err(fail) => Err(load_fail(alloc, name, fail)),
    }
}

/// The model file that the value in the file of that name stands for.
#[tactic(auto, using(crate::proofs::KnownOrRefused::faultless, crate::proofs::KnownOrRefused::refuses))]
fn shaped(alloc: Global, name: &str, value: &Value) -> Result<Wide, LoadFail>
    ensures gives { Gives (λ wide. wide) result (wide_of_value name.now (view value.now)) }
    ensures formed { IfOk result (λ wide. IsTrue (is_well_formed_wide wide)) }
    ensures told { IfErr result IsTold }
    ensures calm { IfErr result (λ fail. ¬ IsReadFault fail) }
{
    match wide_of(alloc, value) {
        Ok(wide) => {
            well_formed_wide();
            Ok(wide)
        }
        Err(Fail::Fault(shape)) => {
            Err(LoadFail::Refused(LoadFault::Shape(Text::of(alloc, name)?, shape)))
        }
        Err(Fail::NoMemory) => Err(LoadFail::NoMemory),
    }
}

/// The model file of that name.
#[tactic(auto, using(crate::proofs::Leftovers::passes_first, crate::proofs::Leftovers::gives_behind))]
fn wide_in<D: Depot>(alloc: Global, depot: &mut D, name: &str) -> Result<Wide, LoadFail>
    ensures gives { (told : Files) → (D.seen depot.old).files ≡ Some told
        → Gives (λ wide. wide) result (wide_in told name.now) }
    ensures formed { IfOk result (λ wide. IsTrue (is_well_formed_wide wide)) }
    ensures told { IfErr result IsTold }
    ensures read_fault { IfErr result (λ fail. IsReadFault fail
        → ReadFailed (D.seen depot.old) (D.seen depot.new)) }
    ensures reads { OnlyReads (D.seen depot.old) (D.seen depot.new) }
{
    let value = model_value(alloc, depot, name)?;
    shaped(alloc, name, &value)
}

/// Whether one of the names is this one.
fn has_name(names: &[Text], name: &str) -> bool
    ensures { result ≡ is_among name.now names.now }
{
    for other in names {
        if name == other.as_str() {
            return true;
        }
    }
    false
}

/// Copies of these names.
fn copied(alloc: Global, names: &[Text]) -> Result<Vec<Text>, NoMemory>
    ensures { IfOk result (λ copies. copies.items ≡ names.now) }
{
    let mut copies = Vec::new(alloc);
    for name in names {
        copies.push(Text::of(alloc, name.as_str())?)?;
    }
    Ok(copies)
}

/// One file more.
fn put_file(alloc: Global, files: &mut FilesRead, name: &str, wide: Wide) -> Result<(), NoMemory>
    ensures { OnOk result (files_read files.new ≡ and_file name.now wide (files_read files.old)) }
{
    files.names.push(Text::of(alloc, name)?)?;
    files.wides.push(wide)?;
    Ok(())
}

/// Reads the model file of that name, and gives the names of its nested files. They are copied, since more files are put
/// beside the one that names them.
fn add_file<D: Depot>(
    alloc: Global,
    depot: &mut D,
    files: &mut FilesRead,
    name: &str,
) -> Result<Vec<Text>, LoadFail>
    requires formed { IsTrue (list_all is_well_formed_wide files.now.wides.items) }
    ensures adds { (told : Files) → (D.seen depot.old).files ≡ Some told
        → Adds told name.now files.old files.new result }
    ensures formed { OnOk result (IsTrue (list_all is_well_formed_wide files.new.wides.items)) }
    ensures names { OnOk result (length files.new.names.items ≡ length files.old.names.items + 1) }
    ensures wides { OnOk result (length files.new.wides.items ≡ length files.old.wides.items + 1) }
    ensures told { IfErr result IsTold }
    ensures read_fault { IfErr result (λ fail. IsReadFault fail
        → ReadFailed (D.seen depot.old) (D.seen depot.new)) }
    ensures reads { OnlyReads (D.seen depot.old) (D.seen depot.new) }
{
    let wide = wide_in(alloc, depot, name)?;
    let nested = copied(alloc, wide.nested.items())?;
    put_file(alloc, files, name, wide)?;
    Ok(nested)
}

/// The model file of that name, where it is the next to be read, and its nested files; it is passed over where a file was
/// read by its name. From one nested file to the next one more was read, so none nests deeper than `deep`.
#[cycle(nested)]
fn add_name<D: Depot>(
    alloc: Global,
    depot: &mut D,
    files: &mut FilesRead,
    name: &str,
    deep: u32,
) -> Result<(), LoadFail>
    requires deep { 65 ≤ deep + length files.now.names.items }
    requires enough { 0 < deep }
    requires formed { IsTrue (list_all is_well_formed_wide files.now.wides.items) }
    requires paired { length files.now.names.items ≡ length files.now.wides.items }
    ensures gives { (told : Files) → (D.seen depot.old).files ≡ Some told
        → Leaves result files.new (with_name deep told (files_read files.old) name.now) }
    ensures formed { OnOk result (IsTrue (list_all is_well_formed_wide files.new.wides.items)) }
    ensures paired { OnOk result (length files.new.names.items ≡ length files.new.wides.items) }
    ensures some { OnOk result (0 < length files.new.names.items) }
    ensures grows { OnOk result (length files.old.names.items ≤ length files.new.names.items) }
    ensures told { IfErr result IsTold }
    ensures read_fault { IfErr result (λ fail. IsReadFault fail
        → ReadFailed (D.seen depot.old) (D.seen depot.new)) }
    ensures reads { OnlyReads (D.seen depot.old) (D.seen depot.new) }
{
    if has_name(files.names.as_slice(), name) {
        return Ok(());
    }
    if MOST_FILES <= files.names.len() {
        return Err(LoadFail::Refused(LoadFault::TooMany(Text::of(alloc, name)?)));
    }
    let nested = add_file(alloc, depot, files, name)?;
    add_all(alloc, depot, files, nested.as_slice(), deep - 1)
}

/// The model files of these names with their nested files, one after another.
#[cycle(nested)]
fn add_all<D: Depot>(
    alloc: Global,
    depot: &mut D,
    files: &mut FilesRead,
    names: &[Text],
    deep: u32,
) -> Result<(), LoadFail>
    requires deep { 65 ≤ deep + length files.now.names.items }
    requires enough { 0 < deep }
    requires formed { IsTrue (list_all is_well_formed_wide files.now.wides.items) }
    requires paired { length files.now.names.items ≡ length files.now.wides.items }
    ensures gives { (told : Files) → (D.seen depot.old).files ≡ Some told
        → Leaves result files.new (with_all (with_name deep told) (files_read files.old) names.now) }
    ensures formed { OnOk result (IsTrue (list_all is_well_formed_wide files.new.wides.items)) }
    ensures paired { OnOk result (length files.new.names.items ≡ length files.new.wides.items) }
    ensures grows { OnOk result (length files.old.names.items ≤ length files.new.names.items) }
    ensures told { IfErr result IsTold }
    ensures read_fault { IfErr result (λ fail. IsReadFault fail
        → ReadFailed (D.seen depot.old) (D.seen depot.new)) }
    ensures reads { OnlyReads (D.seen depot.old) (D.seen depot.new) }
{
    for name in names {
        add_name(alloc, depot, files, name.as_str(), deep)?;
    }
    Ok(())
}

/// The model files from the root of that name on.
fn model_files<D: Depot>(alloc: Global, depot: &mut D, name: &str) -> Result<FilesRead, LoadFail>
    ensures gives { (told : Files) → (D.seen depot.old).files ≡ Some told
        → Gives files_read result (model_files told name.now) }
    ensures formed { IfOk result (λ files. IsTrue (list_all is_well_formed_wide files.wides.items)) }
    ensures paired { IfOk result (λ files. length files.names.items ≡ length files.wides.items) }
    ensures some { IfOk result (λ files. 0 < length files.names.items) }
    ensures told { IfErr result IsTold }
    ensures read_fault { IfErr result (λ fail. IsReadFault fail
        → ReadFailed (D.seen depot.old) (D.seen depot.new)) }
    ensures reads { OnlyReads (D.seen depot.old) (D.seen depot.new) }
{
    let mut files = FilesRead {
        names: Vec::new(alloc),
        wides: Vec::new(alloc),
    };
    add_name(alloc, depot, &mut files, name, 65)?;
    Ok(files)
}

/// The flat model of the files.
#[tactic(auto, using(crate::proofs::KnownOrRefused::faultless, crate::proofs::KnownOrRefused::refuses))]
fn flat_model(alloc: Global, names: &Seq<Text>, wides: &Seq<Wide>) -> Result<Model, LoadFail>
    requires paired { length names.now ≡ length wides.now }
    requires some { 0 < length wides.now }
    requires formed { IsTrue (list_all is_well_formed_wide wides.now) }
    ensures gives { (files : ModelFiles) → files.names ≡ names.now → files.wides ≡ wides.now
        → Gives (λ model. model) result (flat_model files) }
    ensures formed { IfOk result (λ model. IsTrue (is_well_formed model)) }
    ensures counted { IfOk result (λ model. IsTrue (is_counted model)) }
    ensures told { IfErr result IsTold }
    ensures calm { IfErr result (λ fail. ¬ IsReadFault fail) }
{
    match flatten(alloc, names, wides) {
        Ok(model) => {
            formed_files();
            Ok(model)
        }
        Err(Fail::Fault(fault)) => Err(LoadFail::Refused(LoadFault::Nest(fault))),
        Err(Fail::NoMemory) => Err(LoadFail::NoMemory),
    }
}

/// The model, whose names have no fault.
#[tactic(auto, using(crate::proofs::KnownOrRefused::faultless, crate::proofs::KnownOrRefused::refuses))]
fn named(alloc: Global, model: Model) -> Result<Model, LoadFail>
    ensures gives { Gives (λ model. model) result (named_model model) }
    ensures named { IfOk result (λ named. name_faults named ≡ []) }
    ensures same { IfOk result (λ named. named ≡ model) }
    ensures told { IfErr result IsTold }
    ensures calm { IfErr result (λ fail. ¬ IsReadFault fail) }
{
    match names(alloc, &model) {
        Ok(()) => Ok(model),
        Err(Fail::Fault(fault)) => Err(LoadFail::Refused(LoadFault::Name(fault))),
        Err(Fail::NoMemory) => Err(LoadFail::NoMemory),
    }
}

/// The model that the files mean together, whose names have no fault.
#[tactic(auto, using(crate::proofs::Leftovers::passes_first, crate::proofs::Leftovers::gives_behind))]
fn model_of_files(alloc: Global, files: FilesRead) -> Result<Model, LoadFail>
    requires paired { length files.names.items ≡ length files.wides.items }
    requires some { 0 < length files.names.items }
    requires formed { IsTrue (list_all is_well_formed_wide files.wides.items) }
    ensures gives { Gives (λ model. model) result (model_of_files (files_read files)) }
    ensures named { IfOk result (λ model. name_faults model ≡ []) }
    ensures formed { IfOk result (λ model. IsTrue (is_well_formed model)) }
    ensures counted { IfOk result (λ model. IsTrue (is_counted model)) }
    ensures told { IfErr result IsTold }
    ensures calm { IfErr result (λ fail. ¬ IsReadFault fail) }
{
    let names = Seq::of(files.names);
    let wides = Seq::of(files.wides);
    let model = flat_model(alloc, &names, &wides)?;
    named(alloc, model)
}

/// The model of the files from the root of that name on. All of it is copied from them, and they are let go.
#[tactic(auto, using(crate::proofs::Leftovers::passes_first, crate::proofs::Leftovers::gives_behind))]
pub(crate) fn model_in<D: Depot>(
    alloc: Global,
    depot: &mut D,
    name: &str,
) -> Result<Model, LoadFail>
    ensures gives { (told : Files) → (D.seen depot.old).files ≡ Some told
        → Gives (λ model. model) result (model_in told name.now) }
    ensures named { IfOk result (λ model. name_faults model ≡ []) }
    ensures formed { IfOk result (λ model. IsTrue (is_well_formed model)) }
    ensures counted { IfOk result (λ model. IsTrue (is_counted model)) }
    ensures told { IfErr result IsTold }
    ensures read_fault { IfErr result (λ fail. IsReadFault fail
        → ReadFailed (D.seen depot.old) (D.seen depot.new)) }
    ensures reads { OnlyReads (D.seen depot.old) (D.seen depot.new) }
{
    let files = model_files(alloc, depot, name)?;
    model_of_files(alloc, files)
}
