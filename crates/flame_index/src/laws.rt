//! Laws of indexes. A law is its contract: it computes nothing.

ghost use Rattle.flame_index.specs.Indexes.{IndexHasNumbers, IndexIsAsLong, IndexNamesEachOnce, IndexOrdersBoard, IndexStaysWithin};

/// The messages at the places of an index are the board's in the order of its key, whether it ascends or
/// descends.
pub fn orders_the_board()
    ensures { IndexOrdersBoard }
{}

/// An index has as many entries as its board has messages, and each names a place of the board.
pub fn stays_on_the_board()
    ensures long { IndexIsAsLong }
    ensures within { IndexStaysWithin }
{}

/// Each entry of an index has the number of the message in its place, in the column of the key.
pub fn has_the_numbers()
    ensures { IndexHasNumbers }
{}

/// An index names each place of its board once.
pub fn names_each_once()
    ensures { IndexNamesEachOnce }
{}
