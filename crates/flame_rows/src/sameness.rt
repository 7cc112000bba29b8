//! Whether two values are one and the same.

ghost use Rattle.std.specs.Prelude.{◌≡◌, IsTrue, ◌↔◌};

use crate::bags::Bag;
use crate::boxes::Boxed;
use crate::rows::Row;
use crate::seqs::Seq;
use crate::texts::Text;

/// Values of which it can be told whether they are one and the same, all that they hold with them.
pub trait Same {
    /// Whether the two are one and the same value.
    fn same(&self, other: &Self) -> bool
        ensures { IsTrue result ↔ (self.now ≡ other.now) };
}

impl Same for u32 {
    fn same(&self, other: &u32) -> bool {
        *self == *other
    }
}

impl Same for i32 {
    fn same(&self, other: &i32) -> bool {
        *self == *other
    }
}

impl Same for bool {
    fn same(&self, other: &bool) -> bool {
        *self == *other
    }
}

impl Same for Row {
    fn same(&self, other: &Row) -> bool {
        same_items(self.values(), other.values())
    }
}

impl Same for Bag {
    fn same(&self, other: &Bag) -> bool {
        same_items(self.rows(), other.rows())
    }
}

impl Same for Text {
    fn same(&self, other: &Text) -> bool {
        self.as_str() == other.as_str()
    }
}

impl<T: Same> Same for Boxed<T> {
    fn same(&self, other: &Boxed<T>) -> bool {
        self.get().same(other.get())
    }
}

impl<T: Same> Same for Option<T> {
    fn same(&self, other: &Option<T>) -> bool {
        match (self, other) {
            (None, None) => true,
            (Some(one), Some(two)) => one.same(two),
            _ => false,
        }
    }
}

impl<T: Same> Same for Seq<T> {
    fn same(&self, other: &Seq<T>) -> bool {
        same_items(self.items(), other.items())
    }
}

/// Whether both have the same items in the same order.
fn same_items<T: Same>(ones: &[T], twos: &[T]) -> bool
    ensures { IsTrue result ↔ (ones.now ≡ twos.now) }
{
    if ones.len() != twos.len() {
        return false;
    }
    for i in 0..ones.len() {
        if !ones[i].same(&twos[i]) {
            return false;
        }
    }
    true
}
