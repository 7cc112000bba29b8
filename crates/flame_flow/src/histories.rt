//! Histories as lists of events.

ghost use Rattle.std.specs.Prelude.{◌≡◌, ◌++◌, IfOk, OnOk};
ghost use Rattle.flame_flow.specs.ToldCores.{came_events, history_of};

use crate::told::Came;
use flame_events::Event;
use flame_rows::NoMemory;
use std::alloc::Global;

/// The event joins the list as often as it came.
fn add(events: &mut Vec<Event>, came: Came) -> Result<(), NoMemory>
    ensures { OnOk result (events.new.items ≡ events.old.items ++ came_events came) }
{
    for _time in 0..came.times {
        events.push(came.event)?;
    }
    Ok(())
}

/// All events that came, the first one first.
pub(crate) fn unfolded(alloc: Global, history: &[Came]) -> Result<Vec<Event>, NoMemory>
    ensures { IfOk result (λ events. events.items ≡ history_of history.now) }
{
    let mut events = Vec::new(alloc);
    for came in history {
        add(&mut events, *came)?;
    }
    Ok(events)
}
