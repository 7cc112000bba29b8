//! Rows in content order with a number in column 0, which lie beside each other.

ghost use Rattle.std.specs.Prelude.{◌≡◌, IsTrue, not, int_le, int_lt};
ghost use Rattle.std.specs.List.{filter};
ghost use Rattle.flame_rows.specs.Order.{row_order};
ghost use Rattle.flame_rows.specs.Sorted.{IsAscending};
ghost use Rattle.flame_spec.specs.Conditions.{number_at};
ghost use Rattle.flame_spec.specs.Views.{column_order};
ghost use Rattle.flame_cond.specs.Equalities.{has_value};
ghost use Rattle.flame_view.specs.ViewWays.{first_has_number};

use flame_cond::number_at;
use flame_rows::Row;

/// Whether the first row, where there is one, has a number.
pub fn first_has_number(rows: &[Row]) -> bool
    ensures { result ≡ first_has_number rows.now }
{
    match rows.first() {
        Some(row) => !row.values().is_empty(),
        None => true,
    }
}

/// The rows from the first on whose number is not less.
fn at_least(rows: &[Row], value: i32) -> &[Row]
    requires { IsAscending (column_order 0) rows.now }
    ensures { result.now ≡ filter (λ row. not (int_lt (number_at row 0) value)) rows.now }
{
    let from = rows.partition_point(
        |row: &Row| -> bool
            ensures { result ≡ int_lt (number_at row.now 0) value }
        { number_at(row.values(), 0) < value },
    );
    rows.split_at(from).1
}

/// The rows up to the last one whose number is not greater.
fn at_most(rows: &[Row], value: i32) -> &[Row]
    requires { IsAscending (column_order 0) rows.now }
    ensures { result.now ≡ filter (λ row. int_le (number_at row 0) value) rows.now }
{
    let to = rows.partition_point(
        |row: &Row| -> bool
            ensures { result ≡ int_le (number_at row.now 0) value }
        { number_at(row.values(), 0) <= value },
    );
    rows.split_at(to).0
}

/// The rows with this number in column 0, found by two binary searches.
pub fn with_first(rows: &[Row], value: i32) -> &[Row]
    requires order { IsAscending row_order rows.now }
    requires numbers { IsTrue (first_has_number rows.now) }
    ensures { result.now ≡ filter (has_value 0 value) rows.now }
{
    at_most(at_least(rows, value), value)
}
