//! What holds of numbered trees and of bodies.

ghost use Rattle.flame_body.specs.BodyLaws.{BodiesByNumber};
ghost use Rattle.flame_body.specs.FitLaws.{CallsFit, CallsPass, DefinitionsFit, ExpressionsFit};

/// An expression without check faults fits, with numbers in place of names.
pub fn expressions_fit()
    ensures { ExpressionsFit }
{}

/// A C function without check faults fits the widths of the function that it is checked for, with numbers in place of
/// names.
pub fn definitions_fit()
    ensures { DefinitionsFit }
{}

/// In a C function without check faults each call of a helper in its numbered body is of a helper that its source calls,
/// and has as many arguments as the helper has parameters (C, 6.5.2.2).
pub fn calls_fit()
    ensures passing { CallsPass }
    ensures fitting { CallsFit }
{}

/// The body of each number is that of the function, or of the helper, of that number, and there are no more bodies.
pub fn bodies_by_number()
    ensures { BodiesByNumber }
{}
