//! Cases of `check`: the section `model` is a model in JSON, each section `text` a function file, in the order of the
//! model. The answer is `fine`, or the first fault of the function files, as `UnknownName b in file 0 line 1`.

use flame_case_files::Case;
use flame_case_models::{Found, model_in};
use flame_case_texts::units_in;
use flame_check::check;
use flame_rows::{Fail, Seq};
use flame_spec::{Model, Unit};
use std::alloc::{AllocError, Global};

/// Whether the files may stand, or their first fault.
fn print_checked(
    alloc: Global,
    out: &mut String,
    model: &Model,
    units: &Seq<Unit>,
) -> Result<(), AllocError> {
    match check(alloc, model, units) {
        Ok(_checked) => writeln!(out, "fine"),
        Err(Fail::Fault(fault)) => writeln!(
            out,
            "{:?} {} in file {} line {}",
            fault.kind, fault.name, fault.file, fault.line
        ),
        Err(Fail::NoMemory) => writeln!(out, "no memory"),
    }
}

/// The answer to a case of the kind `check`: `fine`, or the fault.
pub fn answer_check(alloc: Global, case: &Case) -> Result<String, AllocError> {
    let model = match model_in(alloc, case)? {
        Found::Told(told) => return Ok(told),
        Found::Model(model) => model,
    };
    let mut out = String::new(alloc);
    let units = units_in(alloc, case)?;
    if units.len() != model.files.len() {
        writeln!(out, "a text is no function file")?;
        return Ok(out);
    }
    print_checked(alloc, &mut out, &model, &units)?;
    Ok(out)
}
