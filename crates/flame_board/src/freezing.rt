//! All that lanes handed in is taken.

ghost use Rattle.std.specs.Prelude.{◌≡◌, ◌+◌, true, ℕ, ℤ, List, OnOk, length};
ghost use Rattle.crossbeam_channel.specs.Claims.{view, IsSeatAt};
ghost use Rattle.crossbeam_channel.specs.Ends.{receives_on};
ghost use Rattle.flame_board.specs.LaneParts.{weigh_bags, weigh_parts, weigh_stayed};
ghost use Rattle.flame_board.specs.SeenLanes.{AreEndsOf, IsEndOf, parts_of, weigh_lanes};

use crate::lanes::{End, Lane};
use crate::logs::{Log, Relay, Roles, Takes};
use crossbeam_channel::{Pass, RuledReceiver};
use flame_rows::{Bag, NoMemory};
use flame_world::Part;
use std::sync::Wait;

/// Takes all that was sent. The pass may send, too, so that it knows when all is taken.
fn take_sent<R: Wait>(
    rt: &R,
    receiver: &RuledReceiver<Part, Log, Relay>,
    mut pass: Pass<Part, Log>,
    bags: &mut Vec<Bag>,
) -> Result<(), NoMemory>
    requires seat { IsSeatAt (receives_on receiver.now) pass }
    requires sends { (view pass).sends ≡ true }
    requires takes { (view pass).takes ≡ true }
    requires fresh { length (view pass).taken ≡ 0 }
    ensures { OnOk result ((weight : List ℤ → ℕ)
        → weigh_bags weight bags.new.items ≡ weigh_bags weight bags.old.items + weigh_parts weight (view pass).sent) }
{
    for _ in rt.forever() {
        match receiver.try_recv_as::<Takes, R>(rt, &mut pass) {
            Ok(part) => bags.push(part.rows)?,
            Err(_) => return Ok(()),
        }
    }
    unreachable!()
}

/// Takes what stayed with the lane.
fn take_stayed(stayed: Vec<Option<Part>>, bags: &mut Vec<Bag>) -> Result<(), NoMemory>
    ensures { OnOk result ((weight : List ℤ → ℕ)
        → weigh_bags weight bags.new.items ≡ weigh_bags weight bags.old.items + weigh_stayed weight stayed.items) }
{
    for one in stayed {
        if let Some(part) = one {
            bags.push(part.rows)?;
        }
    }
    Ok(())
}

/// Takes all parts of a lane.
fn take_lane<R: Wait>(rt: &R, end: End, lane: Lane, bags: &mut Vec<Bag>) -> Result<(), NoMemory>
    requires { IsEndOf end lane }
    ensures { OnOk result ((weight : List ℤ → ℕ)
        → weigh_bags weight bags.new.items ≡ weigh_bags weight bags.old.items + weigh_parts weight (parts_of lane)) }
{
    let Lane {
        number: _,
        dues: _,
        sender,
        mut pass,
        boards,
        stayed,
    } = lane;
    sender.absorb::<Roles>(&mut pass, boards);
    take_sent(rt, &end.receiver, pass, bags)?;
    take_stayed(stayed, bags)?;
    Ok(())
}

/// Takes all parts of these lanes, of which these are the ends.
pub(crate) fn take_lanes<R: Wait>(
    rt: &R,
    ends: Vec<End>,
    lanes: Vec<Lane>,
    bags: &mut Vec<Bag>,
) -> Result<(), NoMemory>
    requires { AreEndsOf ends.items lanes.items }
    ensures { OnOk result ((weight : List ℤ → ℕ)
        → weigh_bags weight bags.new.items ≡ weigh_bags weight bags.old.items + weigh_lanes weight lanes.items) }
{
    for (end, lane) in ends.into_iter().zip(lanes) {
        take_lane(rt, end, lane, bags)?;
    }
    Ok(())
}
