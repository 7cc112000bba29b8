//! Which events are legal.

ghost use Rattle.std.specs.Prelude.{◌≡◌, ◌<◌, true, false, Some, None, is_some, option_map};
ghost use Rattle.flame_spec.specs.declared.models.Model.{Model as Kind};
ghost use Rattle.flame_events.specs.CoreStates.{status_of, work_of};
ghost use Rattle.flame_events.specs.LegalEvents.{is_legal, may_freeze, may_hand_in, may_open, may_run, may_shut, outputs_of};
ghost use Rattle.flame_progress.specs.declared.counts.Counts.{Counts as Kept};
ghost use Rattle.flame_progress.specs.KeptCores.{core_of};
ghost use Rattle.flame_progress.specs.Tallying.{Sizes, Tallies};

use crate::counts::Counts;
use crate::progress::Progress;
use flame_events::Event;

/// Whether the function of this number may be opened.
fn may_open(progress: &Progress, counts: &Counts, function: u32) -> bool
    requires { Sizes progress.now counts.now }
    ensures { (model : Kind) → Tallies model progress.now counts.now
        → result ≡ may_open model (core_of progress.now) function }
{
    if function as usize >= progress.statuses.len() {
        return false;
    }
    if !progress.is_waiting(function) {
        return false;
    }
    if !counts.functions.is_free(function) {
        return false;
    }
    counts.inputs.is_free(function)
}

/// Whether the next agent of a piece may run.
fn may_run(progress: &Progress, function: u32, piece: u32) -> bool
    ensures { result ≡ may_run (work_of (core_of progress.now) function piece) }
{
    match progress.work(function, piece) {
        Some(work) => work.has_left(),
        None => false,
    }
}

/// Whether a piece may hand in its messages of this type.
fn may_hand_in(progress: &Progress, function: u32, piece: u32, message: u32) -> bool
    ensures { (model : Kind) (counts : Kept) → Tallies model progress.now counts
        → result ≡ may_hand_in (outputs_of model function) (work_of (core_of progress.now) function piece) message }
{
    match progress.work(function, piece) {
        Some(work) => work.may_hand_in(message),
        None => false,
    }
}

/// Whether the function of this number may be shut.
fn may_shut(progress: &Progress, function: u32) -> bool
    ensures { (model : Kind) (counts : Kept) → Tallies model progress.now counts
        → result ≡ may_shut (outputs_of model function) (status_of (core_of progress.now) function) }
{
    match progress.status(function) {
        Some(status) => status.may_shut(),
        None => false,
    }
}

/// Whether the board of this number may be frozen.
fn may_freeze(progress: &Progress, counts: &Counts, message: u32) -> bool
    requires { Sizes progress.now counts.now }
    ensures { (model : Kind) → Tallies model progress.now counts.now
        → result ≡ may_freeze model (core_of progress.now) message }
{
    if message as usize >= progress.field.boards.len() {
        return false;
    }
    if progress.is_frozen(message) {
        return false;
    }
    counts.outputs.is_free(message)
}

/// Whether the event is legal; one that names no function, piece or message is not.
pub fn allows(progress: &Progress, counts: &Counts, event: Event) -> bool
    requires { Sizes progress.now counts.now }
    ensures { (model : Kind) → Tallies model progress.now counts.now
        → result ≡ is_legal model (core_of progress.now) event }
{
    match event {
        Event::Open(function) => may_open(progress, counts, function),
        Event::Agent(function, piece) => may_run(progress, function, piece),
        Event::HandIn(function, piece, message) => {
            may_hand_in(progress, function, piece, message)
        }
        Event::Shut(function) => may_shut(progress, function),
        Event::Freeze(message) => may_freeze(progress, counts, message),
    }
}
