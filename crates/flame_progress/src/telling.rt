//! What is told of what waits for what.

ghost use Rattle.std.specs.Prelude.{◌≡◌, ◌<◌, false, OnOk};
ghost use Rattle.std.specs.List.{All};
ghost use Rattle.flame_pieces.specs.Waiting.{thing_at};
ghost use Rattle.flame_progress.specs.ManyWait.{waiting_for, waited_for_by};

use flame_pieces::Waits;
use flame_rows::NoMemory;

/// The one of this number waits for each of these things, of which none is done. Where no memory is found, it waits for
/// the first of them alone: for those that were told before.
pub fn wait_for(waits: &mut Waits, things: &[u32], waiter: u32) -> Result<(), NoMemory>
    requires within { waiter < waits.old.count }
    requires open { All (λ thing. (thing_at waits.old.things thing).done ≡ false) things.now }
    ensures { OnOk result (waits.new ≡ waiting_for waiter things.now waits.old) }
{
    for thing in things {
        waits.add(*thing, waiter)?;
    }
    Ok(())
}

/// For the thing of this number, which is not done, each of these waits. Where no memory is found, the first of them
/// alone wait for it: those who were told before.
pub fn tell_waiters(waits: &mut Waits, thing: u32, waiters: &[u32]) -> Result<(), NoMemory>
    requires within { All (λ waiter. waiter < waits.old.count) waiters.now }
    requires open { (thing_at waits.old.things thing).done ≡ false }
    ensures { OnOk result (waits.new ≡ waited_for_by thing waiters.now waits.old) }
{
    for waiter in waiters {
        waits.add(thing, *waiter)?;
    }
    Ok(())
}
