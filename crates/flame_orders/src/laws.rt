//! Laws of orders of events. Each function is its contract: it computes nothing.

ghost use Rattle.flame_orders.specs.LastingLegality.{LegalityLasts, LegalityLastsLong};
ghost use Rattle.flame_orders.specs.NewlyLegal.{NewlyLegalIsAllowed};
ghost use Rattle.flame_orders.specs.WholeFunctions.{WholeFunctionsRun, OpenedPiecesAreTakers, OpenedFunctionsMove};
ghost use Rattle.flame_orders.specs.OneBeginning.{FrozenBoardsAgree, OutcomesAgree, PiecesAgree};
ghost use Rattle.flame_orders.specs.OneBeginning.{OpenFunctionsAgree, DoneFunctionsAgree};
ghost use Rattle.flame_orders.specs.UntouchedParts.{OtherFunctionsStay, OtherPiecesStay, OtherMarksStay};
ghost use Rattle.flame_orders.specs.OtherTakers.{OpeningLeavesOtherTakers, OpeningsLeaveOtherTakers};
ghost use Rattle.flame_orders.specs.LastingEnds.{ShutFunctionsStay, FaultsStay};
ghost use Rattle.flame_orders.specs.LastingEnds.{RanksStayUntilShut, RanksStayWithoutFault};

use flame_spec_laws::names_differ;

/// In a core to which events led, each legal when it came, from one with which an iteration begins: what is legal still is
/// after any other legal event, and while others come, each legal when it comes.
pub fn legality_lasts()
    ensures one { LegalityLasts }
    ensures many { LegalityLastsLong }
{}

/// In a core to which events led, each legal when it came, from one with which an iteration begins: what is legal after a
/// legal event is another one that was legal before, or one that this event allows.
pub fn newly_legal()
    ensures { NewlyLegalIsAllowed }
{}

/// Where events of an accepted source led to a core, and a function is open of which no agent ran: its agents may run, then
/// hand in all their messages, and then it may be shut, each event legal when it comes. It is done with the least fault
/// of its agents, and the field has what these leave together. Of a function that was opened just now no agent ran, and
/// its agents are its takers; so where it is opened and runs at once, the field is what the serial step makes of it
/// where nobody faults.
pub fn whole_functions()
    ensures fresh { WholeFunctionsRun }
    ensures takers { OpenedPiecesAreTakers }
    ensures opened { OpenedFunctionsMove }
{
    names_differ();
}

/// What an event leaves as it was: each function but its own, with its pieces; where it is one of a piece, each piece of
/// another number; and each mark but that of the board that it freezes.
pub fn others_stay()
    ensures functions { OtherFunctionsStay }
    ensures pieces { OtherPiecesStay }
    ensures marks { OtherMarksStay }
{}

/// A function of the model has the same takers when others are opened, also where they leave the same state.
pub fn takers_stay()
    ensures one { OpeningLeavesOtherTakers }
    ensures many { OpeningsLeaveOtherTakers }
{}

/// After a legal event a function that was shut still is, and one that has a fault still has this one.
pub fn ends_stay()
    ensures shut { ShutFunctionsStay }
    ensures faults { FaultsStay }
{}

/// The least rank of a faulted function is the same after a legal event that shuts no function, and after one that shuts
/// a function which has no fault then.
pub fn ranks_stay()
    ensures until_shut { RanksStayUntilShut }
    ensures without_fault { RanksStayWithoutFault }
{}

/// What two cores agree on to which events of an accepted source led, each legal when it came, from one beginning, which has
/// a bag for each agent type: each board that is frozen in both; the outcomes of each function the boards of whose
/// inputs are; the agents of each piece that is there in both, where takers are cut into as many pieces; the agents of
/// each function that is open in both, its pieces laid end to end; and the fault, or that there is none, of each that is
/// done in both.
pub fn beginnings_decide()
    ensures boards { FrozenBoardsAgree }
    ensures outcomes { OutcomesAgree }
    ensures pieces { PiecesAgree }
    ensures open { OpenFunctionsAgree }
    ensures done { DoneFunctionsAgree }
{
    names_differ();
}
