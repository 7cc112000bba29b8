//! What waits for what.

ghost use Rattle.std.specs.Prelude.{◌≡◌, ℕ, ◌+◌, ◌<◌, ◌≤◌, nat_le, false, IfOk, OnOk, OnErr, length, map, replicate};
ghost use Rattle.std.specs.Prelude.{slice_index};
ghost use Rattle.std.specs.List.{All, sum_by};
ghost use Rattle.flame_spec.specs.Below.{times};
ghost use Rattle.flame_pieces.specs.Waiting.{awaited, thing_at, is_free, open_times, unwaited, waited_by, with_waiter, with_done};

use flame_rows::NoMemory;
use std::alloc::Global;
use std::marker::Model;

/// Something that others wait for.
#[derive(Debug, Drop)]
pub(crate) struct Awaited {
    /// Those that wait for it, each as often as it was told.
    pub waiters: Vec<u32>,
    /// Whether it is done.
    pub done: bool,
}

impl Awaited {
    /// One more waits for it.
    fn add(&mut self, waiter: u32) -> Result<(), NoMemory>
        ensures ok { OnOk result (awaited self.new ≡ waited_by waiter (awaited self.old)) }
        ensures err { OnErr result (awaited self.new ≡ awaited self.old) }
    {
        self.waiters.push(waiter)?;
        Ok(())
    }
}

/// What waits for what: some things get done, and others wait for them. Both are numbered from 0. For each that waits
/// it is counted how many it waits for still, so that it costs nothing to tell whether it is free, and as much as there
/// are that wait for a thing to tell that this is done.
#[derive(Debug, Drop)]
pub struct Waits {
    things: Vec<Awaited>,
    counts: Vec<u32>,
}

impl Model for Waits {
    ghost use Rattle.std.specs.Prelude.{map, length};
    ghost use Rattle.flame_pieces.specs.Waiting.{Waiting};

    ghost Value = { Waiting };

    ghost use Rattle.flame_pieces.specs.Waiting.{awaited, AreCounts};

    ghost view = { λ w. record { things = map awaited w.things.items; count = length w.counts.items } };

    ghost invariant = { λ w. AreCounts (map awaited w.things.items) w.counts.items };
}

/// `things` things, none of which is done.
fn things_of(alloc: Global, things: usize) -> Result<Vec<Awaited>, NoMemory>
    ensures { IfOk result (λ list. map awaited list.items ≡ (unwaited things 0).things) }
{
    let mut list = Vec::new(alloc);
    for _thing in 0..things {
        list.push(Awaited {
            waiters: Vec::new(alloc),
            done: false,
        })?;
    }
    Ok(list)
}

/// Counts one less for each of these.
fn lessen(counts: &mut [u32], waiters: &[u32])
    requires within { All (λ waiter. waiter < length counts.old) waiters.now }
    requires enough { (number : ℕ) → times number waiters.now ≤ slice_index counts.old number }
    ensures { (number : ℕ) → slice_index counts.new number + times number waiters.now ≡ slice_index counts.old number }
{
    for waiter in waiters {
        counts[*waiter as usize] -= 1;
    }
}

impl Waits {
    /// `things` things, none of which is done, and `waiting` that may wait, none of which does.
    pub fn new(alloc: Global, things: usize, waiting: usize) -> Result<Waits, NoMemory>
        ensures { IfOk result (λ waits. waits ≡ unwaited things waiting) }
    {
        Ok(Waits {
            things: things_of(alloc, things)?,
            counts: vec![in alloc; 0u32; waiting]?,
        })
    }

    /// The one of this number waits for the thing, which is not done. `NoMemory` comes also where 32 bits cannot count
    /// for how many it waits.
    pub fn add(&mut self, thing: u32, waiter: u32) -> Result<(), NoMemory>
        requires open { (thing_at self.old.things thing).done ≡ false }
        requires within { waiter < self.old.count }
        ensures ok { OnOk result (self.new ≡ with_waiter thing waiter self.old) }
        ensures err { OnErr result (self.new ≡ self.old) }
    {
        let Some(count) = self.counts[waiter as usize].checked_add(1) else {
            return Err(NoMemory);
        };
        self.things[thing as usize].add(waiter)?;
        self.counts[waiter as usize] = count;
        Ok(())
    }

    /// The thing of this number is done, which was not before.
    pub fn finish(&mut self, thing: u32)
        requires { (thing_at self.old.things thing).done ≡ false }
        ensures { self.new ≡ with_done thing self.old }
    {
        self.things[thing as usize].done = true;
        lessen(&mut self.counts, &self.things[thing as usize].waiters);
    }

    /// Whether the one of this number waits for nothing that is not done.
    pub fn is_free(&self, waiter: u32) -> bool
        requires { waiter < self.now.count }
        ensures { result ≡ is_free self.now waiter }
    {
        self.counts[waiter as usize] == 0
    }

    /// Whether the one of this number waits for one thing at most that is not done, and was told so once.
    pub fn is_nearly_free(&self, waiter: u32) -> bool
        ensures { result ≡ nat_le (sum_by (open_times waiter) self.now.things) 1 }
    {
        self.count(waiter) <= 1
    }

    /// How many things it waits for that are not done, each as often as it was told.
    fn count(&self, waiter: u32) -> u32
        ensures { result ≡ sum_by (open_times waiter) self.now.things }
    {
        match self.counts.get(waiter as usize) {
            Some(count) => *count,
            None => 0,
        }
    }
}
