//! The check faults of small function files, worked by hand. Each is a contract of a function that computes nothing.

ghost use Rattle.flame_spec_laws.specs.CheckCases.{NamesCase, ExpressionsCase, ItemsCase, CallsCase, LoopsCase};
ghost use Rattle.flame_spec_laws.specs.CheckCases.{UnknownLoopCase, TurnsCase, BranchesCase, FilesCase, NoFilesCase};
ghost use Rattle.flame_spec_laws.specs.CheckCases.{LoneCallCase, TwoFilesCase, OwnNameCase, OwnNameInsideCase};
ghost use Rattle.flame_spec_laws.specs.PlaceCases.{LastNameStands};
ghost use Rattle.flame_spec_laws.specs.ArrayCases.{ElementsCase, RowsCase, ArgumentsCase};
ghost use Rattle.flame_spec_laws.specs.HelperCases.{ParametersCase, AloneCase, CallingCase, HavingCase};
ghost use Rattle.flame_spec_laws.specs.HelperCases.{RoundCase, SelfCase, TailCase, EndingCase};

/// Names, expressions, declarations, calls, loops, branches and files.
pub fn check_cases()
    ensures names { NamesCase }
    ensures expressions { ExpressionsCase }
    ensures items { ItemsCase }
    ensures calls { CallsCase }
    ensures loops { LoopsCase }
    ensures unknown_loop { UnknownLoopCase }
    ensures turns { TurnsCase }
    ensures branches { BranchesCase }
    ensures files { FilesCase }
    ensures no_files { NoFilesCase }
    ensures lone_call { LoneCallCase }
    ensures two_files { TwoFilesCase }
    ensures own_name { OwnNameCase }
    ensures own_name_inside { OwnNameInsideCase }
{}

/// Where a name stands in a small function, and what it sees there.
pub fn place_cases()
    ensures { LastNameStands }
{}

/// Arrays of the memory and of messages, and arguments for them.
pub fn array_cases()
    ensures elements { ElementsCase }
    ensures rows { RowsCase }
    ensures arguments { ArgumentsCase }
{}

/// Helpers: their parameters, what they cannot do, calls of them, and helpers that call each other.
pub fn helper_cases()
    ensures parameters { ParametersCase }
    ensures alone { AloneCase }
    ensures calling { CallingCase }
    ensures having { HavingCase }
    ensures round { RoundCase }
    ensures itself { SelfCase }
    ensures tail { TailCase }
    ensures ending { EndingCase }
{}
