//! Laws of traces. Each function is its contract: it computes nothing.

ghost use Rattle.flame_trace.specs.TraceLaws.{WrittenIsYes, YesTellsTheIteration};

use flame_events::laws::every_order;

/// A text of which the verdict is Yes tells the iteration: so many events, each legal when it comes, lead from the start to
/// a core that is complete, and the text is exactly that of these events and of what the iteration comes to.
pub fn yes_tells_the_iteration()
    ensures { YesTellsTheIteration }
{
    every_order();
}

/// What is written of events, each legal when it comes, that lead to a complete core, and of the iteration is a text of
/// which the verdict is Yes, with the number of these events.
pub fn written_is_yes()
    ensures { WrittenIsYes }
{
    every_order();
}
