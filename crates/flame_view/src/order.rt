//! The order of a sorted view.

ghost use Rattle.std.specs.Prelude.{◌≡◌, Some};
ghost use Rattle.flame_spec.specs.Views.{view_order};
ghost use Rattle.flame_cond.specs.Said.{key_by};

use flame_cond::{SortBy, number_at};
use flame_rows::Row;
use std::cmp::Ordering;

/// How two rows stand by the key, and by content where it does not part them.
pub fn compare(by: SortBy, a: &Row, b: &Row) -> Ordering
    ensures { result ≡ view_order (Some (key_by by)) a.now b.now }
{
    let of_a = number_at(a.values(), by.variable);
    let of_b = number_at(b.values(), by.variable);
    let keys = if by.descending {
        of_b.cmp(&of_a)
    } else {
        of_a.cmp(&of_b)
    };
    keys.then(a.compare(b))
}
