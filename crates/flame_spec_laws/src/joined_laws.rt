//! Laws of outcomes that the checks of sources give. A law is its contract: it computes nothing.

ghost use Rattle.flame_spec_laws.specs.JoinedLaws.{CallsEndWithinTheBound, BodiesMeanWithinTheBound};
ghost use Rattle.flame_spec_laws.specs.JoinedLaws.{OutcomesOverBoardsAreInts};
ghost use Rattle.flame_spec_laws.specs.FreeBodies.{FreeFunctionsSpendNothing, FreeFunctionsNeverLackFuel};

/// Where function files have no check faults, the bound of 64 calls that are open inside one another is never felt:
/// with more of them each call ends in the same way, and each body means the same.
pub fn bounded_calls()
    ensures calls { CallsEndWithinTheBound }
    ensures bodies { BodiesMeanWithinTheBound }
{}

/// Where the numbers that function files write, the memory, the rows of the boards, the constants and the iteration are
/// within int, so are the memory, the messages and the births that a function leaves.
pub fn outcomes_over_boards()
    ensures { OutcomesOverBoardsAreInts }
{}

/// A function whose body has no loop and calls no helper spends no fuel: where it ends it leaves all that it had, and
/// it never faults for want of fuel.
pub fn free_functions()
    ensures ended { FreeFunctionsSpendNothing }
    ensures faulted { FreeFunctionsNeverLackFuel }
{}
