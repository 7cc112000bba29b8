//! Cases of `flatten`. Each section `file NAME` is the JSON text of a model file; they stand in the order in which they
//! are read. The answer is the flat model, a part of it a line, or the fault, as `UnknownType p in a.json`; where a file
//! is no model file by itself, it is the fault of its shape.

use crate::modeling::{FoundWide, print_model, wide_from};
use flame_case_files::Case;
use flame_nest::{NestFault, flatten};
use flame_rows::{Fail, Seq, Text};
use flame_spec::Wide;
use std::alloc::{AllocError, Global};

fn print_fault(out: &mut String, fault: &NestFault) -> Result<(), AllocError> {
    let kind = fault.kind.name();
    writeln!(out, "{kind} {} in {}", fault.name, fault.file)
}

/// The model files of a case, in order, or why one has no meaning.
fn files_in(
    alloc: Global,
    case: &Case,
    names: &mut Vec<Text>,
    wides: &mut Vec<Wide>,
) -> Result<Option<String>, AllocError> {
    for section in &case.sections {
        if let Some(name) = section.title.strip_prefix("file ") {
            let text = case.text(section.title.as_str());
            match wide_from(alloc, text)? {
                FoundWide::Told(told) => return Ok(Some(told)),
                FoundWide::Wide(wide) => wides.push(wide)?,
            }
            let Ok(name) = Text::of(alloc, name) else {
                return Err(AllocError);
            };
            names.push(name)?;
        }
    }
    Ok(None)
}

/// The flat model of the files, or their fault.
fn print_flat(alloc: Global, names: &Seq<Text>, wides: &Seq<Wide>) -> Result<String, AllocError> {
    let mut out = String::new(alloc);
    if wides.items().is_empty() || names.items().len() != wides.items().len() {
        writeln!(out, "no files")?;
        return Ok(out);
    }
    match flatten(alloc, names, wides) {
        Ok(model) => print_model(&mut out, &model)?,
        Err(Fail::Fault(fault)) => print_fault(&mut out, &fault)?,
        Err(Fail::NoMemory) => writeln!(out, "no memory")?,
    }
    Ok(out)
}

/// The answer to a case of the kind `nest`: the flat model, or the fault.
pub fn answer_flat(alloc: Global, case: &Case) -> Result<String, AllocError> {
    let mut names = Vec::new(alloc);
    let mut wides = Vec::new(alloc);
    match files_in(alloc, case, &mut names, &mut wides)? {
        Some(told) => Ok(told),
        None => print_flat(alloc, &Seq::of(names), &Seq::of(wides)),
    }
}
