//! Lines that tell of iterations.

ghost use Rattle.std.specs.Prelude.{◌≡◌, IfOk};
ghost use Rattle.flame_popfile.specs.IterationTexts.{rows_in, line};

use flame_rows::{Bag, Blob, NoMemory};
use flame_world::{Boards, World};
use itoa::Buffer;
use std::alloc::Global;

/// The line of an iteration: its number, how many agents its world has, and how many messages its boards have. The error is
/// want of memory, also where 64 bits cannot number these.
pub fn line(alloc: Global, itno: i32, world: &World, boards: &Boards) -> Result<Blob, NoMemory>
    ensures { IfOk result (λ bytes. bytes ≡ line itno world.now boards.now) }
{
    let mut numbers = Buffer::new();
    let mut counts = Buffer::new();
    let mut messages = Buffer::new();
    let number = numbers.format(itno);
    let agents = counts.format(rows_in(world.agents.items())?);
    let messages = messages.format(rows_in(boards.boards.items())?);
    let line = format!(in alloc; "iteration {number} agents {agents} messages {messages}\n")?;
    Ok(Blob::of(line.into_bytes()))
}

/// How many rows the bags have together.
fn rows_in(bags: &[Bag]) -> Result<u64, NoMemory>
    ensures { IfOk result (λ total. total ≡ rows_in bags.now) }
{
    let mut total = 0u64;
    for bag in bags {
        match total.checked_add(bag.rows().len() as u64) {
            Some(more) => total = more,
            None => return Err(NoMemory),
        }
    }
    Ok(total)
}
