//! What holds of programs. A law is its contract: it computes nothing.

ghost use Rattle.flame_program.specs.AcceptanceLaws.{AcceptedAreRunnable, PlannedAreAccepted};
ghost use Rattle.flame_program.specs.InputWidths.{ReadingsFitCodes};
ghost use Rattle.flame_program.specs.ProgramMeaning.{ProgramsMean};

/// In an accepted source the code of each function, with the codes of the helpers, means the outcome that the source
/// gives to the function, and no other: for every iteration and fuel, and for each memory, constants and rows of its
/// inputs that are as wide as declared.
pub fn programs_mean()
    ensures { ProgramsMean }
{}

/// A source is accepted where its model is well formed and has a plan, and neither its names nor its function files
/// have a fault.
pub fn planned_are_accepted()
    ensures { PlannedAreAccepted }
{}

/// What those who run a program need of its source: one start state for each type; codes that see rows as wide as
/// declared and whose calls, if any, are of the helpers; and inputs that read messages of the model.
pub fn accepted_are_runnable()
    ensures { AcceptedAreRunnable }
{}

/// What an agent reads by the inputs of its function, over boards with rows as wide as their messages declare, is as wide
/// as the function's code sees.
pub fn readings_fit_codes()
    ensures { ReadingsFitCodes }
{}
