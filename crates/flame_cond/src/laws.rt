//! Laws of filters. A law is its contract: it computes nothing.

ghost use Rattle.flame_cond.specs.Equalities.{PassingIsEqual, OneEqualityIsAll, OneEqualityIsFirst, UnreadMemoryTellsNothing};

/// A row that passes a filter has the number that the filter's first equality asks for, in that column.
pub fn passing_is_equal()
    ensures { PassingIsEqual }
{}

/// A filter that is one equality has a first one, and passes exactly the rows that have its number.
pub fn one_equality_is_all()
    ensures first { OneEqualityIsFirst }
    ensures all { OneEqualityIsAll }
{}

/// A filter in which no variable of the memory stands passes the same rows with every memory.
pub fn unread_memory_tells_nothing()
    ensures { UnreadMemoryTellsNothing }
{}
