//! Laws of events. Each function is its contract: it computes nothing.

ghost use Rattle.flame_events.specs.AbsorbedPieces.{AgentsRunAtOnce};
ghost use Rattle.flame_events.specs.CoreFits.{FittingCoresOpen, FittingCoresStay};
ghost use Rattle.flame_events.specs.CoreLaws.{WhatBeganMayBegin, FrozenBoardsAreWritten};
ghost use Rattle.flame_events.specs.CoreLaws.{PiecesAreFewAndFilled, UnrunPiecesAreFresh};
ghost use Rattle.flame_events.specs.CoreLaws.{PartsAreKeptUntilAllRan, BoardsGatherWhatIsHandedIn};
ghost use Rattle.flame_events.specs.EvenPieces.{PieceSizesAreShares, CutsAreEven, NobodyIsNoPiece};
ghost use Rattle.flame_events.specs.EventBounds.{EventsRunOut, PieceEventsRunOut};
ghost use Rattle.flame_events.specs.EventBounds.{LegalEventsAreBounded, PieceEventsAreBounded};
ghost use Rattle.flame_events.specs.EveryOrder.{EveryOrderIsTheIteration};
ghost use Rattle.flame_events.specs.FaultRanks.{LowerRanksAreWanted, LeastRankHasFirstFault};
ghost use Rattle.flame_events.specs.HandedPieces.{PartsAreHandedInAtOnce};
ghost use Rattle.flame_events.specs.Histories.{HistoriesGrow, HistoriesFit};

use flame_spec_laws::names_differ;

/// Whatever the order of the events, as long as each is legal when it comes: where the core is complete, its end is the
/// iteration, faults included; where it is not, there is a legal event of a wanted function, or one that freezes a
/// board which such a function inputs.
pub fn every_order()
    ensures { EveryOrderIsTheIteration }
{
    names_differ();
}

/// How agents are cut into pieces: laid end to end in order, the pieces are the agents. There are at most so many of
/// them, and none is empty. Each but the last has as many agents as an equal share is, rounded up, and the last has no
/// more. Of nobody there is none.
pub fn cuts_are_even()
    ensures sizes { PieceSizesAreShares }
    ensures even { CutsAreEven }
    ensures nobody { NobodyIsNoPiece }
{}

/// Where a piece has agents, of which none ran, its events are legal, one after another, and leave the core in which
/// all of them ran at once.
pub fn agents_at_once()
    ensures { AgentsRunAtOnce }
{}

/// Where all agents of a piece ran, it has all its parts, and no output stands twice, the events by which it hands them in
/// are legal, one after another, and leave the core in which all are handed in at once.
pub fn parts_at_once()
    ensures { PartsAreHandedInAtOnce }
{}

/// In a world that fits the model a core begins that fits, and so it stays: a status for each function, a mark for each
/// message, pools for all states, and agents and messages as wide as declared, in pieces too.
pub fn cores_keep_their_widths()
    ensures open { FittingCoresOpen }
    ensures stay { FittingCoresStay }
{}

/// What the least rank of a faulted function tells: the wanted functions are those before it in model order, and the
/// first fault is that of the function of this rank. Where no function is faulted, all are wanted, and there is no
/// first fault.
pub fn least_ranks()
    ensures wanted { LowerRanksAreWanted }
    ensures first { LeastRankHasFirstFault }
{}

/// Where legal events lead to a core and further ones lead on from there, all together lead to where these do. Where
/// they begin with a core that fits the model, the core that they lead to fits it.
pub fn histories_grow()
    ensures grow { HistoriesGrow }
    ensures fit { HistoriesFit }
{}

/// In a core to which events led, each legal when it came, from one with which an iteration begins: where a function is
/// open or done, its predecessors are shut and the boards of its inputs are frozen; and where a board is frozen, the
/// functions that output its message are shut.
pub fn cores_keep_their_order()
    ensures begun { WhatBeganMayBegin }
    ensures written { FrozenBoardsAreWritten }
{}

/// In a core to which events led, each legal when it came, from one with which an iteration begins: a function has at
/// most so many pieces, and none is empty. A piece of which no agent ran is as opening a function makes one of its
/// agents: nothing is sent or handed in, and nobody faulted. Until all its agents ran, none of its parts is handed in. Where
/// messages may be handed in for a board, it is one of the model's, and gathers.
pub fn cores_keep_their_pieces()
    ensures few { PiecesAreFewAndFilled }
    ensures fresh { UnrunPiecesAreFresh }
    ensures kept { PartsAreKeptUntilAllRan }
    ensures gathers { BoardsGatherWhatIsHandedIn }
{}

/// How many events are left in a core that fits the model. Of functions and boards: two for each function that waits,
/// one for each that is open, one for each board that gathers; each that is legal lessens this by one. Of pieces: one
/// for each agent that did not run, and for each part that is not handed in; each that is legal lessens this by one,
/// and leaves as many of functions and boards. So among legal events no more are of functions and boards than are left
/// of these, and no more in a row of pieces than are left of those.
pub fn events_run_out()
    ensures one { EventsRunOut }
    ensures one_of_piece { PieceEventsRunOut }
    ensures many { LegalEventsAreBounded }
    ensures many_of_pieces { PieceEventsAreBounded }
{}
