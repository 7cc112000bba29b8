//! Lists of values.

ghost use Rattle.std.specs.Prelude.{◌≡◌, ◌==◌, length};

use std::marker::Model;
use std::slice;

/// A list of values, seen as that list: neither the room that it keeps nor where it lies is part of it.
#[derive(Debug, Drop)]
pub struct Seq<T> {
    items: Vec<T>,
}

impl<T> Model for Seq<T> {
    ghost use Rattle.std.specs.Prelude.{List};

    ghost Value = { List T };

    ghost view = { λ a. a.items.items };
}

impl<T> Seq<T> {
    /// The list of these items.
    pub fn of(items: Vec<T>) -> Seq<T>
        ensures { result ≡ items.items }
    {
        Seq { items }
    }

    /// The items in order.
    pub fn items(&self) -> &[T]
        ensures { result.now ≡ self.now }
    {
        self.items.as_slice()
    }

    /// How many items there are.
    pub fn len(&self) -> usize
        ensures { result ≡ length self.now }
    {
        self.items.len()
    }

    /// Whether there are none.
    pub fn is_empty(&self) -> bool
        ensures { result ≡ (length self.now == 0) }
    {
        self.items.is_empty()
    }

    /// The items in order, given back.
    pub fn into_items(self) -> Vec<T>
        ensures { result.items ≡ self }
    {
        self.items
    }
}

impl<T: PartialEq> PartialEq for Seq<T> {
    ghost use Rattle.std.specs.Cmp.Lexicographic.{pointwise, lists_per};

    ghost eq = { pointwise T.eq };

    ghost laws = { lists_per T.laws };

    fn eq(&self, other: &Seq<T>) -> bool {
        self.items() == other.items()
    }
}

impl<T: Eq> Eq for Seq<T> {
    ghost use Rattle.std.proofs.lemmas.Cmp.{lists_equiv};

    ghost laws = { lists_equiv T.Eq.laws };
}

impl<'a, T> IntoIterator for &'a Seq<T> {
    type Item = &'a T;

    type IntoIter = slice::Iter<'a, T>;

    ghost use Rattle.std.specs.Prelude.{◌≡◌, ◌<◌, ◌^◌, length};
    ghost use Rattle.std.specs.Iterator.Runs.{EveryRun, ItemsMapTo};
    ghost use Rattle.std.specs.Slice.Iter.{iter_rest, iter_steps};

    ghost into_iter_gives = { λ list it. (iter_rest it ≡ list.now) × (length (iter_rest it) < 2 ^ 64)
        × EveryRun (iter_steps {A = T}) (λ run. ItemsMapTo run (λ item. item.now) (iter_rest run.from)) };

    fn into_iter(self) -> slice::Iter<'a, T> {
        self.items.as_slice().iter()
    }
}
