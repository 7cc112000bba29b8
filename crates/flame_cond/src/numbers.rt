//! Numbers of rows.

ghost use Rattle.std.specs.Prelude.{◌≡◌};
ghost use Rattle.flame_spec.specs.Conditions.{number_at};

/// The number in the column, or 0 past the end of the row.
#[inline(always)]
pub fn number_at(row: &[i32], column: u32) -> i32
    ensures { result ≡ number_at row.now column }
{
    row.get(column as usize).copied().unwrap_or(0)
}
