//! The sources of cases: the section `model` is a model in JSON, each section `text` a function file, in the order of the
//! model.

ghost use Rattle.std.specs.Prelude.{IfOk};
ghost use Rattle.flame_case_programs.specs.CaseSources.{IsFormed};

use flame_case_files::Case;
use flame_case_models::{Found, model_in};
use flame_case_texts::units_in;
use flame_spec::Source;
use std::alloc::{AllocError, Global};

/// What a case gives.
#[derive(Drop)]
pub enum Sourced {
    /// The source.
    Source(Source),
    /// Why there is none, as it is answered.
    Told(String),
}

/// The source that the case gives, where the model is one and each text is a function file.
pub fn source_in(alloc: Global, case: &Case) -> Result<Sourced, AllocError>
    ensures { IfOk result IsFormed }
{
    let model = match model_in(alloc, case)? {
        Found::Told(told) => return Ok(Sourced::Told(told)),
        Found::Model(model) => model,
    };
    let units = units_in(alloc, case)?;
    if units.len() != model.files.len() {
        let told = String::from_str(alloc, "a text is no function file\n")?;
        return Ok(Sourced::Told(told));
    }
    Ok(Sourced::Source(Source { model, units }))
}
