//! Laws of acceptance, and small sources. A law is its contract: it computes nothing.

ghost use Rattle.flame_spec_laws.specs.AcceptedLaws.{ConditionsAreReadable, FiltersAreReadable};
ghost use Rattle.flame_spec_laws.specs.AcceptedLaws.{CountedConditionsAreReadable, CountedFiltersAreReadable};
ghost use Rattle.flame_spec_laws.specs.AcceptedCases.{NothingIsAccepted, LoneFunctionIsAccepted, FormedCase, LengthsCase, StartsCase};

/// The conditions and filters of an accepted source can be read by columns, where memories and messages are not too
/// wide: the unit of each time condition has a length, and a filter has no time condition.
pub fn accepted_conditions()
    ensures conditions { ConditionsAreReadable }
    ensures filters { FiltersAreReadable }
{}

/// So they all can where the parts of the model can be numbered.
pub fn counted_conditions()
    ensures conditions { CountedConditionsAreReadable }
    ensures filters { CountedFiltersAreReadable }
{}

/// Sources that are accepted, parts of models that are well formed, and types with and without one start state, worked
/// by hand.
pub fn accepted_cases()
    ensures nothing { NothingIsAccepted }
    ensures lone_function { LoneFunctionIsAccepted }
    ensures formed { FormedCase }
    ensures lengths { LengthsCase }
    ensures starts { StartsCase }
{}
