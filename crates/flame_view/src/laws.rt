//! A law of views. A law is its contract: it computes nothing.

ghost use Rattle.flame_view.specs.Compiled.{ViewIsAsWritten};

/// Under a filter and a key that were read from what a model says, the view by columns is the view that the model's
/// names mean.
pub fn views_are_as_written()
    ensures { ViewIsAsWritten }
{}
