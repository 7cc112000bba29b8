//! Laws of what functions mean whose source has no check faults. A law is its contract: it computes nothing.

ghost use Rattle.flame_meaning.specs.AcceptedMeaning.{FunctionsBeginInAgreement, HelpersBeginInAgreement};
ghost use Rattle.flame_meaning.specs.AcceptedMeaning.{FunctionsAreChecked, HelpersAreChecked};
ghost use Rattle.flame_meaning.specs.AcceptedMeaning.{ItemsAgree, PlacesInsideAgree, ScopesAgree, SequencesAgree};
ghost use Rattle.flame_meaning.specs.AcceptedMeaning.{StatementsAgree, TurnsAgree, ExpressionsFind, LoopsHaveInputs};
ghost use Rattle.flame_meaning.specs.AcceptedMeaning.{AssignmentsFind, CallsDo, FittedIsWhole, StoredAlwaysFinds};
ghost use Rattle.flame_meaning.specs.OutputLaws.{MessagesAreOfOutputs};
ghost use Rattle.flame_meaning.specs.RunLaws.{FunctionsMeetNoDefault, HelpersMeetNoDefault};
ghost use Rattle.flame_meaning.specs.WidthLaws.{ElementsStandWithinVariables, MemoriesKeepTheirLengths};
ghost use Rattle.flame_meaning.specs.WidthLaws.{VariablesStandWithinRows};
ghost use Rattle.flame_meaning.specs.RangeLaws.{OutcomesAreInts};
ghost use Rattle.flame_meaning.specs.DepthLaws.{DeeperCallsEndAlike, DeeperCallsMeanAlike};

/// Where function files have no check faults, the bodies of functions and helpers have none where they are checked.
pub fn bodies_are_checked()
    ensures functions { FunctionsAreChecked }
    ensures helpers { HelpersAreChecked }
{}

/// A function, and a helper, begins in agreement with the place where it is checked: the locals have the names of the
/// scopes laid end to end, the model gives a meaning to none of them, and the open loops are those of the place.
pub fn agreement_at_the_start()
    ensures functions { FunctionsBeginInAgreement }
    ensures helpers { HelpersBeginInAgreement }
{}

/// Without check faults, the agreement is kept by each statement, by statements one after another, by scopes however
/// they end, and by the items of a declaration; and it holds in scopes, in values and in the turns of loops.
pub fn agreement_is_kept()
    ensures statements { StatementsAgree }
    ensures sequences { SequencesAgree }
    ensures scopes { ScopesAgree }
    ensures items { ItemsAgree }
    ensures places { PlacesInsideAgree }
    ensures turns { TurnsAgree }
{}

/// Where the progress agrees with a place, each name and each field that an expression without check faults reads is
/// found there, and a loop over a message has its input.
pub fn reads_are_found()
    ensures expressions { ExpressionsFind }
    ensures loops { LoopsHaveInputs }
{}

/// There, a call statement without check faults does something, an assignment finds what it assigns to, and a word that
/// is called as a value names a helper; the arguments stand for as many numbers as are wanted, and no row is cut or
/// filled up.
pub fn deeds_are_found()
    ensures calls { CallsDo }
    ensures stored { StoredAlwaysFinds }
    ensures assignments { AssignmentsFind }
    ensures fitted { FittedIsWhole }
{}

/// Without check faults, a function sends messages of its outputs alone.
pub fn messages_are_of_outputs()
    ensures { MessagesAreOfOutputs }
{}

/// Where no helper is higher than 64 and each is higher than those that it calls, no call meets the bound of 64 levels:
/// with more of them each call ends in the same way, and each body means the same.
pub fn calls_are_within_the_bound()
    ensures calls { DeeperCallsEndAlike }
    ensures bodies { DeeperCallsMeanAlike }
{}

/// Where the numbers that function files write, the memory, the readings, the constants and the iteration are within
/// int, so are the memory, the messages and the births that a function leaves.
pub fn outcomes_are_ints()
    ensures { OutcomesAreInts }
{}

/// Without check faults, all that a body names is found wherever the run of a function or of a helper comes: no default
/// of the meaning is met.
pub fn no_default_is_met()
    ensures functions { FunctionsMeetNoDefault }
    ensures helpers { HelpersMeetNoDefault }
{}

/// A variable that is found stands within the row, and an element within its variable; statements keep the length of
/// the memory. So where rows are as wide as their variables, no number is read or set beyond their ends.
pub fn columns_are_within()
    ensures variables { VariablesStandWithinRows }
    ensures elements { ElementsStandWithinVariables }
    ensures memories { MemoriesKeepTheirLengths }
{}
