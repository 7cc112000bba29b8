//! What holds of numbered bodies. A law is its contract: it computes nothing.

ghost use Rattle.flame_number_laws.specs.NumberedLaws.{OutcomesAreNumbered};

/// Where function files have no check faults, each function of the model has the outcome of its numbered body, with the
/// numbered helpers, for every memory, readings, constants, iteration and fuel.
pub fn outcomes_are_numbered()
    ensures { OutcomesAreNumbered }
{}
