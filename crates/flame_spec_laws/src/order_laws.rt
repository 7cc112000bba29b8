//! Laws of model order, cycles, layers and start states. A law is its contract: it computes nothing.

ghost use Rattle.flame_spec_laws.specs.OrderCases.{WriterRunsFirst, CyclesAreMet, StartsAreFound};
ghost use Rattle.flame_spec_laws.specs.OrderLaws.{OrderListsFunctions, OrderListsNoneTwice, OrderRespectsBefore};
ghost use Rattle.flame_spec_laws.specs.OrderLaws.{OrderTakesFirst, OrderIsWhole, LeftOverStepsBack, LeftOverHasCycle};
ghost use Rattle.flame_spec_laws.specs.OrderLaws.{RoundLeavesOver, LayersAreAbove, LayersRise, LayersHaveNoGap};
ghost use Rattle.flame_spec_laws.specs.StateLaws.{StartsAreNotEntered, TypesHaveStarts, PlansHaveOneStart};
ghost use Rattle.flame_spec_laws.specs.OrderLaws.{RanksRise, OrderHasAtRank, RankIsPlace, LeftOverHasNoRank};

/// Model order lists functions of the model, none twice, each after all that stand before it, and of those that could
/// come next always the first in document order. It lists all of them exactly where none is left over, and a function
/// that is left over has a predecessor that is left over.
pub fn orders()
    ensures functions { OrderListsFunctions }
    ensures once { OrderListsNoneTwice }
    ensures after { OrderRespectsBefore }
    ensures first { OrderTakesFirst }
    ensures whole { OrderIsWhole }
    ensures left { LeftOverStepsBack }
{}

/// What stands before a function has the smaller rank. The rank of a function is its place in the order, and at its
/// rank stands the function; one that is left over has the length of the order for its rank.
pub fn ranks()
    ensures rise { RanksRise }
    ensures at_rank { OrderHasAtRank }
    ensures place { RankIsPlace }
    ensures left { LeftOverHasNoRank }
{}

/// Where a function is left over, the cycle's members stand before one another in a round, each once, beginning with
/// the first one in document order; and where functions stand before one another in a round, one is left over.
pub fn cycles()
    ensures has_cycle { LeftOverHasCycle }
    ensures leaves_over { RoundLeavesOver }
{}

/// In a model without a cycle a function's layer is 0, or 1 more than the greatest layer of what stands before it; it
/// is greater than each of those, and the layer below is that of one of them.
pub fn layers()
    ensures above { LayersAreAbove }
    ensures rise { LayersRise }
    ensures no_gap { LayersHaveNoGap }
{}

/// A start state of a type is one of its states that no function of the type enters, and each such state is one. In a
/// model where no function is left over each type has one at least, and where besides no type has two, each has one.
pub fn start_states_of_types()
    ensures entered { StartsAreNotEntered }
    ensures some { TypesHaveStarts }
    ensures one { PlansHaveOneStart }
{}

/// Small models worked by hand: their orders, layers, cycles and start states.
pub fn order_cases()
    ensures order { WriterRunsFirst }
    ensures cycles { CyclesAreMet }
    ensures starts { StartsAreFound }
{}
