//! Laws of conditions, choices and views. A law is its contract: it computes nothing.

ghost use Rattle.flame_spec.specs.ViewLaws.{TimeRepeats, ChoiceIsFirst, FirstIsChosen, NoChoiceWhereNone};
ghost use Rattle.flame_spec.specs.ViewLaws.{TakersKeepCounts, ViewKeepsCounts, ViewAscends, ViewGoesByKey};
ghost use Rattle.flame_spec.specs.ViewLaws.{ViewTiesByContent, ViewIsTheOne, PlainViewIsBoard};
ghost use Rattle.flame_spec_laws.specs.ViewCases.{SortedByKey, FilteredByMemory, HoldsInWeek, FirstOfTwo, NoneOfOne};
ghost use Rattle.flame_spec_laws.specs.ViewCases.{NextWithoutCondition, OutOfStates};

/// Whether a time condition holds is the same again after each period of its unit.
pub fn time_conditions()
    ensures { TimeRepeats }
{}

/// An agent takes the first function in document order that it may take, and none exactly where it may take none. The
/// takers of a function are the agents at rest that choose it, each as often as it rests there.
pub fn choices()
    ensures chosen { ChoiceIsFirst }
    ensures first { FirstIsChosen }
    ensures none { NoChoiceWhereNone }
    ensures takers { TakersKeepCounts }
{}

/// A view has the rows of the board that pass, each as often as it stands there, by the key in its direction and rows
/// with equal keys by content ascending, and it is the only such list. Without a filter and a sort it is the board.
pub fn views()
    ensures counts { ViewKeepsCounts }
    ensures ascends { ViewAscends }
    ensures key { ViewGoesByKey }
    ensures ties { ViewTiesByContent }
    ensures one { ViewIsTheOne }
    ensures plain { PlainViewIsBoard }
{}

/// Small models, worked by hand.
pub fn view_cases()
    ensures sorted { SortedByKey }
    ensures filtered { FilteredByMemory }
    ensures week { HoldsInWeek }
    ensures first { FirstOfTwo }
    ensures none { NoneOfOne }
    ensures next { NextWithoutCondition }
    ensures out { OutOfStates }
{}
