//! Lines as texts.

use flame_rows::{Blob, NoMemory};
use std::alloc::Global;
use std::str;

/// The line as a text.
pub(crate) fn text_of(alloc: Global, line: &Blob) -> Result<String, NoMemory> {
    let text = str::from_utf8(line.bytes()).unwrap_or("no UTF-8\n");
    Ok(String::from_str(alloc, text)?)
}
