//! Laws of iterations. Each function is its contract: it computes nothing.

ghost use Rattle.flame_world.specs.IterationLaws.{AgentsHaveNoOrder, EqualAgentsChooseAlike, EqualAgentsFareAlike};
ghost use Rattle.flame_world.specs.IterationLaws.{NobodyChangesNothing, NoFunctionsNoChange};
ghost use Rattle.flame_world.specs.CountLaws.{AllAgentsBegin, SurvivorsReplaceTakers, SurvivorsAndBirthsRemain};
ghost use Rattle.flame_world.specs.CountLaws.{SurvivorsAndBirthsAreAll};
ghost use Rattle.flame_world.specs.InputBoards.{NamedBoardsAreEnough};
ghost use Rattle.flame_world.specs.WorldFits.{FittingWorldsOpen, FittingFieldsStay, FittingWorldsStay};
ghost use Rattle.flame_world.specs.WorldLaws.{WorldsStayWorlds};

/// An iteration depends on its agents as a multiset alone, and agents with equal memory choose and fare alike.
pub fn what_counts()
    ensures order { AgentsHaveNoOrder }
    ensures choices { EqualAgentsChooseAlike }
    ensures outcomes { EqualAgentsFareAlike }
{}

/// A function that nobody takes changes nothing, and an iteration of a model without functions is the world itself.
pub fn where_nothing_happens()
    ensures nobody { NobodyChangesNothing }
    ensures none { NoFunctionsNoChange }
{}

/// An iteration of a world of the model ends with a world of the model: one bag for each type, with memories as wide as
/// declared and numbers within int. Its boards are boards of the model.
pub fn worlds_stay_worlds()
    ensures { WorldsStayWorlds }
{}

/// A world that fits the model, with a value for each constant and memories as wide as declared, stays so, whatever its
/// numbers: an iteration begins with a field that fits; where a function runs, the field still fits; and the world and
/// the boards at the end do.
pub fn worlds_keep_their_widths()
    ensures open { FittingWorldsOpen }
    ensures step { FittingFieldsStay }
    ensures iteration { FittingWorldsStay }
{}

/// How many agents there are: an iteration begins with those of the world; where a function runs, its survivors come in
/// place of its takers; at the end there are those that are left and the births.
pub fn numbers_of_agents()
    ensures begin { AllAgentsBegin }
    ensures run { SurvivorsReplaceTakers }
    ensures end { SurvivorsAndBirthsRemain }
{}

/// How many agents there are after a whole iteration that is done: those that survived all its steps, and all births.
pub fn agents_after_iterations()
    ensures whole { SurvivorsAndBirthsAreAll }
{}

/// Where a setting has the boards that a function's inputs name, an agent has the outcome that it has over the boards
/// of all messages.
pub fn boards_of_inputs()
    ensures named { NamedBoardsAreEnough }
{}
