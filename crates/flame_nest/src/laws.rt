//! Laws of flat models. Each function is its contract: it computes nothing.

ghost use Rattle.flame_nest.specs.FlatLaws.{PlainIsFlat, PlainHasNoFaults, ModelsArePlain, ModelsAreFlat, FlatIsFlat, FlatIsWellFormed, MessagesAreInt, MemoriesAreInt};

/// A file without data types, without variables of data types and without nested files is flat as it stands, and where
/// it is well formed it has no fault.
pub fn plain_files()
    ensures flat { PlainIsFlat }
    ensures faultless { PlainHasNoFaults }
{}

/// Each model is the flat model of the file that says what it is, so flattening twice changes nothing.
pub fn flat_models()
    ensures plain { ModelsArePlain }
    ensures flat { ModelsAreFlat }
    ensures twice { FlatIsFlat }
{}

/// The flat model of well formed files without faults is well formed.
pub fn formed_files()
    ensures formed { FlatIsWellFormed }
{}

/// In files without faults all variables are spread to variables of `int`, so a flat model loses no kind.
pub fn int_variables()
    ensures messages { MessagesAreInt }
    ensures memories { MemoriesAreInt }
{}
