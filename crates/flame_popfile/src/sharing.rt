//! Rows that several workers write: each writes a run of them to a text of its own.

ghost use Rattle.std.specs.Prelude.{◌≡◌, ◌<◌, ◌++◌, false, map, IfOk, IfSome, OnOk};
ghost use Rattle.flame_popfile.specs.CommaTexts.{behind, form_text, AreTexts};

use crate::forms::{Form, push_rows};
use crate::pieces::push_comma;
use flame_rows::{NoMemory, Row, all_of};
use std::alloc::Global;
use std::thread;
use std::thread::Threads;

/// How many numbers a list of rows has at least that several workers write: so many take two to three times as long as it
/// takes to start the threads.
const SHARED_NUMBERS: usize = 8192;

/// The text of these rows.
fn rows_text(alloc: Global, form: Form<'_>, rows: &[Row]) -> Result<Vec<u8>, NoMemory>
    ensures { IfOk result (λ text. text.items ≡ behind false (map (form_text form.entry) rows.now)) }
{
    let mut bytes = Vec::new(alloc);
    push_rows(&mut bytes, form, rows, false)?;
    Ok(bytes)
}

/// The texts of runs of these rows, all so long but the last, which may be shorter.
fn texts_of<R: Threads + Sync>(
    rt: &R,
    alloc: Global,
    form: Form<'_>,
    rows: &[Row],
    size: usize,
) -> Result<Vec<Result<Vec<u8>, NoMemory>>, NoMemory>
    requires { 0 < size }
    ensures { IfOk result (λ texts. AreTexts form.entry size rows.now texts.items) }
{
    let texts = thread::map_chunks(
        rt,
        alloc,
        rows,
        size,
        &|_start: usize, run: &[Row]| -> Result<Vec<u8>, NoMemory>
            ensures { IfOk result (λ text. text.items ≡ behind false (map (form_text form.entry) run.now)) }
        { rows_text(alloc, form, run) },
    )?;
    Ok(texts)
}

/// Adds these texts, each after a comma, the first only where there is more before.
fn push_texts(bytes: &mut Vec<u8>, texts: &[Vec<u8>], before: bool) -> Result<(), NoMemory>
    ensures { OnOk result
        (bytes.new.items ≡ bytes.old.items ++ behind before (map (λ text. text.items) texts.now)) }
{
    let mut more = before;
    for text in texts {
        push_comma(bytes, more)?;
        bytes.extend_from_slice(text.as_slice())?;
        more = true;
    }
    Ok(())
}

/// How many rows each of so many workers writes, where it pays that they share these rows.
fn share_of(rows: &[Row], workers: u32) -> Option<usize>
    ensures { IfSome result (λ size. 0 < size) }
{
    let first = rows.first()?;
    if workers < 2 || rows.len().saturating_mul(first.values().len()) < SHARED_NUMBERS {
        return None;
    }
    Some((rows.len() - 1) / (workers as usize) + 1)
}

/// The same as `push_rows`, by so many workers, of which the caller is one, where that pays.
pub(crate) fn push_rows_by<R: Threads + Sync>(
    rt: &R,
    workers: u32,
    bytes: &mut Vec<u8>,
    form: Form<'_>,
    rows: &[Row],
    before: bool,
) -> Result<(), NoMemory>
    ensures { OnOk result
        (bytes.new.items ≡ bytes.old.items ++ behind before (map (form_text form.entry) rows.now)) }
{
    let Some(size) = share_of(rows, workers) else {
        return push_rows(bytes, form, rows, before);
    };
    let alloc = *bytes.allocator();
    let results = texts_of(rt, alloc, form, rows, size)?;
    let texts = all_of(alloc, results)?;
    push_texts(bytes, texts.as_slice(), before)
}
