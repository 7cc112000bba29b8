//! Laws of what waits for what. Each function is its contract: it computes nothing.

ghost use Rattle.flame_pieces.specs.FreeThings.{FreeWhereAllAreDone, FreeWhereTheseAreDone};
ghost use Rattle.flame_pieces.specs.FreeThings.{NothingIsTold, WaitersAreTold, WhatIsDoneIsTold};

/// Who waits for some things is free where all of them are done.
pub fn free_where_done()
    ensures all { FreeWhereAllAreDone }
    ensures these { FreeWhereTheseAreDone }
{}

/// What is told at first, where one more waits, and where a thing is done.
pub fn told()
    ensures nothing { NothingIsTold }
    ensures waiters { WaitersAreTold }
    ensures done { WhatIsDoneIsTold }
{}
