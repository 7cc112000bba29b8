//! Flows: cores whose pieces run elsewhere.

mod beginning;
mod reading;
mod settling;

use crate::goings::GoingOn;
use crate::ways::Ways;
use std::marker::Model;

/// The core of an iteration whose pieces run elsewhere, while all else is done as soon as it may be (FLAME User Manual; the
/// events are the project's own): functions are opened and shut and boards frozen whatever their layer. It is seen as its
/// core, the events that led to it, how many pieces of each function were begun, and whether it is short: whether a `begin`,
/// `settle` or `take_in` found no memory, or it was cut short.
#[derive(Drop)]
pub struct Flow<'a> {
    going: GoingOn<'a>,
    ways: Ways,
    begun: Vec<u32>,
    short: bool,
}

impl<'a> Model for Flow<'a> {
    ghost use Rattle.std.specs.Coded.{codes};
    ghost use Rattle.flame_spec.specs.contracts.outcomes.Source as e;
    ghost use Rattle.flame_events.specs.contracts.events.Event as v;
    ghost use Rattle.flame_flow.specs.SeenFlows.{SeenFlow};

    ghost Value = { SeenFlow };

    ghost coded = { Prim.hlevel (codes, e.the_row.coded, v.the_row.coded) };

    ghost use Rattle.flame_flow.specs.KeptFlows.{IsKeptFlow};

    ghost view = { λ f. record {
      seen = f.going.told.seen;
      history = f.going.told.history;
      begun = f.begun.items;
      short = f.short;
    } };

    ghost invariant = { λ f. IsKeptFlow f.going f.ways f.begun.items f.short };
}
