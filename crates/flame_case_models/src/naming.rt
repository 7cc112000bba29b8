//! Cases of `names`: the section `model`; `fine`, or the first fault of the model's names, as
//! `Duplicate x at /xmodel/environment/constants/1/name`.

use crate::modeling::{Found, model_in};
use flame_case_files::Case;
use flame_names::names;
use flame_rows::Fail;
use std::alloc::{AllocError, Global};

/// The answer to a case of the kind `names`: `fine`, or the fault.
pub fn answer_names(alloc: Global, case: &Case) -> Result<String, AllocError> {
    let model = match model_in(alloc, case)? {
        Found::Told(told) => return Ok(told),
        Found::Model(model) => model,
    };
    let mut out = String::new(alloc);
    match names(alloc, &model) {
        Ok(()) => writeln!(out, "fine")?,
        Err(Fail::Fault(fault)) => writeln!(
            out,
            "{:?} {} at {}",
            fault.kind, fault.name, fault.path
        )?,
        Err(Fail::NoMemory) => writeln!(out, "no memory")?,
    }
    Ok(out)
}
