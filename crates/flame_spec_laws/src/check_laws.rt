//! Laws of check faults. A law is its contract: it computes nothing.

ghost use Rattle.flame_spec_laws.specs.CheckLaws.{FaultsStandInFiles, FunctionsAreDefinedOnce, FunctionsHaveOneBody};
ghost use Rattle.flame_spec_laws.specs.CheckLaws.{FunctionsHaveNoParameters, NamesReadAreVisible, NamesIndexedAreArrays};
ghost use Rattle.flame_spec_laws.specs.CheckLaws.{NamesAssignedAreAssignable, NamesDeclaredAreNew, ParametersAreNew};
ghost use Rattle.flame_spec_laws.specs.CheckLaws.{GettersGet, CalledAreHelpers, CallsAreForms, ArgumentsAreArrays};
ghost use Rattle.flame_spec_laws.specs.CheckLaws.{LoopsAreOverInputs, FieldsStandInLoops, FieldsIndexedAreArrays};
ghost use Rattle.flame_spec_laws.specs.CheckLaws.{BreaksStandInLoops, ContinuesStandInLoops, NoLoopNestsInItself};

/// Each check fault stands in one of the function files, but for those that tell of a function that none of them has.
pub fn check_faults_stand_in_files()
    ensures { FaultsStandInFiles }
{}

/// Where function files have no check faults, each function of the model other than `idle` has exactly one C function,
/// which has no parameters, and its body is that one's.
pub fn checked_functions()
    ensures once { FunctionsAreDefinedOnce }
    ensures body { FunctionsHaveOneBody }
    ensures parameters { FunctionsHaveNoParameters }
{}

/// Where function files have no check faults, each name that a C function reads is a local there, a memory variable or
/// a constant in capitals, or `iteration_loop`, and not the name of the item in whose value it stands. Each name that
/// it assigns is a local there or a memory variable in capitals. An array stands with an index, and nothing else does.
/// Each name that it declares, as a local or as a parameter, is new in its scope and has no meaning from the model.
pub fn checked_names()
    ensures visible { NamesReadAreVisible }
    ensures indexed { NamesIndexedAreArrays }
    ensures assigned { NamesAssignedAreAssignable }
    ensures declared { NamesDeclaredAreNew }
    ensures parameters { ParametersAreNew }
{}

/// Where function files have no check faults, each call gets or sets a memory variable that is no array, sends an
/// output, bears an agent or calls a helper, with as many arguments as it takes; each argument for an array is one of
/// its length.
pub fn checked_calls()
    ensures getters { GettersGet }
    ensures called { CalledAreHelpers }
    ensures forms { CallsAreForms }
    ensures arrays { ArgumentsAreArrays }
{}

/// Where function files have no check faults, each message loop is over an input of the function, and in no other loop
/// over that message; each `word->variable` stands in a loop over its message, with an index exactly where it is an
/// array; each `break` and each `continue` stands in a loop.
pub fn checked_loops()
    ensures inputs { LoopsAreOverInputs }
    ensures fields { FieldsStandInLoops }
    ensures elements { FieldsIndexedAreArrays }
    ensures breaks { BreaksStandInLoops }
    ensures continues { ContinuesStandInLoops }
    ensures nested { NoLoopNestsInItself }
{}
