//! The function files of cases.

use flame_case_files::Case;
use flame_expr::is_counted;
use flame_lex::lex;
use flame_parse::parse;
use flame_rows::Seq;
use flame_spec::Unit;
use std::alloc::{AllocError, Global};

/// How many bytes a function file may have.
pub(crate) const LONGEST: usize = 4194304;

/// The tree of a function file, where it is one.
fn unit_of(alloc: Global, bytes: &[u8]) -> Option<Unit> {
    if bytes.len() > LONGEST {
        return None;
    }
    let tokens = lex(alloc, bytes).ok()?;
    if !is_counted(tokens.items()) {
        return None;
    }
    parse(alloc, tokens.items()).ok()
}

/// The trees of the sections `text` that are function files.
pub fn units_in(alloc: Global, case: &Case) -> Result<Seq<Unit>, AllocError> {
    let mut units = Vec::new(alloc);
    for section in &case.sections {
        if section.title.as_str() == "text" {
            if let Some(unit) = unit_of(alloc, section.bytes.as_slice()) {
                units.push(unit)?;
            }
        }
    }
    Ok(Seq::of(units))
}
