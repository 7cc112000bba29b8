//! Laws of the form of models. A law is its contract: it computes nothing.

ghost use Rattle.flame_xmml.specs.ShapeLaws.{FaultsStandAtKeys, ConditionsStandAtKeys, FaultlessIsWellFormed};
ghost use Rattle.flame_xmml.specs.ShapeLaws.{FaultlessIsWellFormedWide, PlainIsWide};

/// The faults of a condition, and the condition that a value stands for, are what the form says of its keys, at which
/// conditions stand again.
pub fn conditions()
    ensures faults { FaultsStandAtKeys }
    ensures conditions { ConditionsStandAtKeys }
{}

/// Where a value has no shape fault, the model that it stands for is well formed: so is each that `model_of` answers.
pub fn well_formed()
    ensures { FaultlessIsWellFormed }
{}

/// Where a value has no shape fault of the wide form, the model file that it stands for is well formed: so is each that
/// `wide_of` answers.
pub fn well_formed_wide()
    ensures { FaultlessIsWellFormedWide }
{}

/// A value that `model_of` reads is read by `wide_of` too, and stands there for its model as a model file without data
/// types and further files.
pub fn plain_in_wide()
    ensures { PlainIsWide }
{}
