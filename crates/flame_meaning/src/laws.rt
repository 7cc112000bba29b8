//! Laws of outcomes. Each function is its contract: it computes nothing.

ghost use Rattle.flame_meaning.specs.OutcomeLaws.{RowsHaveWidths, FuelNeverRises, TurnTakesOne, CallTakesOne, LoopGoesOn, MoreFuelLeavesMore, MoreFuelFaultsAlike, TruthIsZeroOrOne, HelpersSeeNoCaller, InputBoardsCount};

/// The memory that a function keeps is as wide as it was, and its messages and births are of types of the model and as
/// wide as these declare, whatever the source.
pub fn rows_of_outcomes()
    ensures { RowsHaveWidths }
{}

/// Fuel never rises. A turn or a call takes one unit and then runs the body, and a loop goes on with what is left. More
/// fuel leaves so much more and changes no outcome but a fault for want of fuel.
pub fn fuel_of_outcomes()
    ensures falls { FuelNeverRises }
    ensures turn { TurnTakesOne }
    ensures call { CallTakesOne }
    ensures again { LoopGoesOn }
    ensures more { MoreFuelLeavesMore }
    ensures fault { MoreFuelFaultsAlike }
{}

/// `&&` and `||` give 0 or 1.
pub fn truth_values()
    ensures { TruthIsZeroOrOne }
{}

/// A helper sees neither its caller nor what its caller reads, and a function sees the boards of its inputs alone.
pub fn what_is_seen()
    ensures helpers { HelpersSeeNoCaller }
    ensures boards { InputBoardsCount }
{}
