//! The lines of faults of models: of the form of a model file, of data types and nested files, and of names.

ghost use Rattle.std.specs.Prelude.{◌≡◌, IfOk};
ghost use Rattle.flame_report.specs.FaultLines.{shape_line, nest_line, name_line};

use flame_nest::NestFault;
use flame_rows::{Blob, NoMemory};
use flame_spec::NameFault;
use flame_xmml::Shape;
use std::alloc::Global;

/// The line of a fault of a model file's form: `shape: FILE: PATH: wanted WANT`. The error is want of memory.
pub fn shape_text(alloc: Global, file: &str, fault: &Shape) -> Result<Blob, NoMemory>
    ensures { IfOk result (λ line. line ≡ shape_line file.now fault.now) }
{
    let path = fault.path.as_str();
    let want = fault.want.name();
    let text = format!(in alloc; "shape: {file}: {path}: wanted {want}\n")?;
    Ok(Blob::of(text.into_bytes()))
}

/// The line of a fault of data types and nested files: `nest: FILE: KIND: NAME`. The error is want of memory.
pub fn nest_text(alloc: Global, fault: &NestFault) -> Result<Blob, NoMemory>
    ensures { IfOk result (λ line. line ≡ nest_line fault.now) }
{
    let file = fault.file.as_str();
    let kind = fault.kind.name();
    let name = fault.name.as_str();
    let text = format!(in alloc; "nest: {file}: {kind}: {name}\n")?;
    Ok(Blob::of(text.into_bytes()))
}

/// The line of a fault of a model's names: `name: FILE: PATH: KIND: NAME`. The error is want of memory.
pub fn name_text(alloc: Global, file: &str, fault: &NameFault) -> Result<Blob, NoMemory>
    ensures { IfOk result (λ line. line ≡ name_line file.now fault.now) }
{
    let path = fault.path.as_str();
    let kind = fault.kind.name();
    let name = fault.name.as_str();
    let text = format!(in alloc; "name: {file}: {path}: {kind}: {name}\n")?;
    Ok(Blob::of(text.into_bytes()))
}
