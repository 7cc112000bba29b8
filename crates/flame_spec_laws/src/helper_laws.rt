//! Laws of helpers in function files without check faults. A law is its contract: it computes nothing.

ghost use Rattle.flame_spec_laws.specs.HelperLaws.{HelpersReadNoMemory, HelpersReadNoElement, HelpersGetNothing};
ghost use Rattle.flame_spec_laws.specs.HelperLaws.{HelpersReadNoRow, HelpersReadNoRowElement, HelpersAssignLocals};
ghost use Rattle.flame_spec_laws.specs.HelperLaws.{HelpersOnlyCallHelpers, HelpersOpenNoLoop, CallsComeRound};
ghost use Rattle.flame_spec_laws.specs.HelperLaws.{HelpersCallInNoRound, HelpersHaveHeights, HelpersCallAtMost64Deep};

/// Where function files have no check faults, a helper reads its locals, constants and `iteration_loop`, assigns to its
/// locals, and calls helpers: it has no name of the memory, sends no message, bears no agent, and has no message loop.
pub fn helpers_stand_alone()
    ensures names { HelpersReadNoMemory }
    ensures elements { HelpersReadNoElement }
    ensures getters { HelpersGetNothing }
    ensures fields { HelpersReadNoRow }
    ensures field_elements { HelpersReadNoRowElement }
    ensures assigned { HelpersAssignLocals }
    ensures calls { HelpersOnlyCallHelpers }
    ensures loops { HelpersOpenNoLoop }
{}

/// Where a helper is left over, the cycle of calls has each of its helpers once, each before one that it calls, begun
/// with the first one in source order. Where function files have no check faults, helpers call each other in no cycle,
/// each is higher than those that it calls, and no more than 64 of them each call the next one.
pub fn helpers_end()
    ensures cycle { CallsComeRound }
    ensures no_round { HelpersCallInNoRound }
    ensures heights { HelpersHaveHeights }
    ensures depth { HelpersCallAtMost64Deep }
{}
