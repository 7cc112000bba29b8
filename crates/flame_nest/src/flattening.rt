//! The flat model of model files.

ghost use Rattle.std.specs.Prelude.{◌≡◌, ◌<◌, [], map, length, IsTrue, IfOk, IfErr, OnOk};
ghost use Rattle.flame_spec.specs.Counted.{is_counted};
ghost use Rattle.flame_nest.specs.FlatModels.{flat, joined_types, joined_messages};
ghost use Rattle.flame_nest.specs.NestFaults.{nest_faults};
ghost use Rattle.flame_spec.specs.FirstFaults.{FailsFirst};

use crate::faults::NestFault;
use crate::joining::{agents, constants, files, messages, units};
use crate::walking::{Found, check_files};
use flame_rows::{Fail, NoMemory, Seq, Text};
use flame_spec::{Model, Wide};
use std::alloc::Global;

/// The model, by what the walk has found.
fn model_of(alloc: Global, wides: &[Wide], found: &Found<'_>) -> Result<Model, NoMemory>
    requires kinds { found.now.kinds ≡ joined_types wides.now }
    requires messages { map (λ message. message.now) found.now.messages.items ≡ joined_messages wides.now }
    ensures { IfOk result (λ model. model ≡ flat wides.now) }
{
    Ok(Model {
        constants: Seq::of(constants(alloc, wides)?),
        files: Seq::of(files(alloc, wides)?),
        units: Seq::of(units(alloc, wides)?),
        messages: Seq::of(messages(alloc, &found.kinds, &found.messages)?),
        agents: Seq::of(agents(alloc, &found.kinds, wides)?),
    })
}

/// The same, where 32 bits can number its parts.
fn counted_model(alloc: Global, wides: &[Wide], found: &Found<'_>) -> Result<Model, NoMemory>
    requires kinds { found.now.kinds ≡ joined_types wides.now }
    requires messages { map (λ message. message.now) found.now.messages.items ≡ joined_messages wides.now }
    ensures flat { IfOk result (λ model. model ≡ flat wides.now) }
    ensures counted { IfOk result (λ model. IsTrue (is_counted model)) }
{
    let model = model_of(alloc, wides, found)?;
    if !model.is_counted() {
        return Err(NoMemory);
    }
    Ok(model)
}

/// The model that these files of these names mean together, or their first fault.
///
/// The lists of all files are joined in their order; a message, data type or function file whose name an earlier file
/// has given is passed over. Then each variable of a data type is replaced by its fields, each named by the variable's
/// name, `_` and the field's name, until all are `int`. The fault is the first: file by file its data types, then its
/// messages, then its agents. `NoMemory` is want of memory, also for a model with a list of 2^32 members or a row of
/// 2^32 columns or more. It takes time about linear in the files, in the flat fields of their data types, and in the
/// flat model.
pub fn flatten(
    alloc: Global,
    files: &Seq<Text>,
    wides: &Seq<Wide>,
) -> Result<Model, Fail<NestFault>>
    requires paired { length files.now ≡ length wides.now }
    requires some { 0 < length wides.now }
    ensures flat { IfOk result (λ model. model ≡ flat wides.now) }
    ensures counted { IfOk result (λ model. IsTrue (is_counted model)) }
    ensures none { OnOk result (nest_faults files.now wides.now ≡ []) }
    ensures first { IfErr result (FailsFirst (nest_faults files.now wides.now)) }
{
    let found = check_files(alloc, files.items(), wides.items())?;
    Ok(counted_model(alloc, wides.items(), &found)?)
}
