//! Who writes the rows of a text.

ghost use Rattle.std.specs.Prelude.{◌≡◌, ◌++◌, map, OnOk};
ghost use Rattle.flame_popfile.specs.CommaTexts.{behind, form_text};

use crate::forms::{Form, push_rows};
use crate::sharing::push_rows_by;
use flame_rows::{NoMemory, Row};
use std::thread::Threads;

/// Whoever writes rows.
pub(crate) trait Writer {
    /// What it does may be done.
    ghost ready: { Self → Type 0 };

    /// Adds these rows in this form, each after a comma, the first only where there is more before.
    fn push_rows(
        &self,
        bytes: &mut Vec<u8>,
        form: Form<'_>,
        rows: &[Row],
        before: bool,
    ) -> Result<(), NoMemory>
        requires { ready self.now }
        ensures { OnOk result
            (bytes.new.items ≡ bytes.old.items ++ behind before (map (form_text form.entry) rows.now)) };
}

/// The caller alone.
#[derive(Drop)]
pub(crate) struct Alone;

impl Writer for Alone {
    ghost ready = { λ writer. Unit {0} };

    fn push_rows(
        &self,
        bytes: &mut Vec<u8>,
        form: Form<'_>,
        rows: &[Row],
        before: bool,
    ) -> Result<(), NoMemory> {
        push_rows(bytes, form, rows, before)
    }
}

/// `workers` workers, of which the caller is one.
#[derive(Drop)]
pub(crate) struct Crew<'a, R: Threads + Sync> {
    pub rt: &'a R,
    pub workers: u32,
}

impl<R: Threads + Sync> Writer for Crew<'_, R> {
    ghost use Rattle.std.specs.Thread.{IsSync};

    ghost ready = { λ writer. IsSync R.row };

    fn push_rows(
        &self,
        bytes: &mut Vec<u8>,
        form: Form<'_>,
        rows: &[Row],
        before: bool,
    ) -> Result<(), NoMemory> {
        push_rows_by(self.rt, self.workers, bytes, form, rows, before)
    }
}
