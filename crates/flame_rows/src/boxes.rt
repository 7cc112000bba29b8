//! A value on the heap.

ghost use Rattle.std.specs.Prelude.{◌≡◌, IfOk};

use crate::fails::NoMemory;
use std::alloc::Global;
use std::marker::Model;
use std::ops::Deref;

/// A value on the heap, seen as that value: where it lies is no part of it.
#[derive(Debug, Drop)]
pub struct Boxed<T> {
    place: Box<T>,
}

impl<T> Model for Boxed<T> {
    ghost Value = { T };

    ghost coded = { T.code };

    ghost view = { λ a. a.place.value };
}

impl<T> Boxed<T> {
    /// The value.
    pub fn get(&self) -> &T
        ensures { result.now ≡ self.now }
    {
        &self.place
    }

    /// The value, taken from the heap.
    pub fn into_inner(self) -> T
        ensures { result ≡ self }
    {
        Box::into_inner(self.place)
    }
}

/// A part stands for its value: its methods are called on the part.
impl<T> Deref for Boxed<T> {
    type Target = T;

    ghost deref_gives = { λ part value. value ≡ part };

    fn deref(&self) -> &T
        ensures { result.now ≡ self.now }
    {
        &self.place
    }
}

impl<T: Drop> Boxed<T> {
    /// The value, put on the heap.
    pub fn of(alloc: Global, value: T) -> Result<Boxed<T>, NoMemory>
        ensures { IfOk result (λ part. part ≡ value) }
    {
        Ok(Boxed {
            place: Box::new(alloc, value)?,
        })
    }
}

impl<T: PartialEq> PartialEq for Boxed<T> {
    ghost eq = { T.eq };

    ghost laws = { T.laws };

    fn eq(&self, other: &Boxed<T>) -> bool {
        *self.get() == *other.get()
    }
}

impl<T: Eq> Eq for Boxed<T> {
    ghost laws = { T.Eq.laws };
}
