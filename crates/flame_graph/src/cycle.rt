//! The cycle where nodes are left over.

ghost use Rattle.std.specs.Prelude.{◌≡◌, ℕ, [], ◌+◌, ◌^◌, ◌<◌, ◌≤◌, ◌==◌, ◌&&◌};
ghost use Rattle.std.specs.Prelude.{IfOk, None, Some, length, slice_index_or};
ghost use Rattle.std.specs.List.{All, position_or_len};
ghost use Rattle.flame_spec.specs.Below.{first_below, is_in};
ghost use Rattle.flame_spec.specs.ModelOrder.{order, step_back, walk_back, repeated_part, least_of, begun_with_least};
ghost use Rattle.flame_graph.specs.Graph.{AreAscending, AreWaiting, follows, waits};
ghost use Rattle.flame_graph.specs.Backs.{pointed, ArePointing, back_from};

use crate::lists::Successors;
use flame_rows::NoMemory;
use std::alloc::Global;

/// The first node that waits for another one.
pub fn first_waiting(waiting: &[usize]) -> Option<u32>
    requires { length waiting.now < 2 ^ 32 }
    ensures { result ≡ first_below (waits waiting.now) (length waiting.now) }
{
    for (g, open) in waiting.iter().enumerate() {
        if *open != 0 {
            return Some(g as u32);
        }
    }
    None
}

/// Points each of the successors that points nowhere yet to the node.
fn point(successors: &[u32], node: u32, backs: &mut [Option<u32>])
    requires { All (λ g. g < length backs.old) successors.now }
    ensures { (g : ℕ)
        → g < length backs.old
        → slice_index_or backs.new g None
        ≡ pointed node (is_in g successors.now) (slice_index_or backs.old g None) }
{
    for successor in successors {
        backs[*successor as usize] = backs[*successor as usize].or(Some(node));
    }
}

/// For each node the first one that stands before it and waits itself.
fn point_back(
    alloc: Global,
    lists: &[Successors],
    waiting: &[usize],
) -> Result<Vec<Option<u32>>, NoMemory>
    requires few { length lists.now < 2 ^ 32 }
    requires ascending { AreAscending lists.now }
    requires same { length waiting.now ≡ length lists.now }
    ensures { IfOk result (λ backs.
        ArePointing (length lists.now) (length lists.now) (follows lists.now) waiting.now backs.items) }
{
    let mut backs: Vec<Option<u32>> = vec![in alloc; None; lists.len()]?;
    for (f, open) in waiting.iter().enumerate() {
        if *open != 0 {
            point(lists[f].numbers(), f as u32, &mut backs);
        }
    }
    Ok(backs)
}

/// The place of a node in the path, or the path's length.
fn place_of(path: &[u32], node: u32) -> usize
    ensures place { result ≡ position_or_len (λ f. f == node) path.now }
    ensures within { result ≤ length path.now }
{
    let mut place = 0;
    for f in path {
        if *f == node {
            return place;
        }
        place += 1;
    }
    place
}

/// The path from the node's place on, turned round.
fn repeat_from(alloc: Global, path: &[u32], node: u32) -> Result<Vec<u32>, NoMemory>
    ensures { IfOk result (λ part. part.items ≡ repeated_part path.now node) }
{
    let place = place_of(path, node);
    let mut part = Vec::from_slice(alloc, &path[place..])?;
    part.reverse();
    Ok(part)
}

/// Where the node points to.
fn step_from(backs: &[Option<u32>], node: u32) -> Option<u32>
    requires { node < length backs.now }
    ensures { result ≡ back_from backs.now node }
{
    backs[node as usize]
}

/// What repeats on the way back from a node.
fn walk(alloc: Global, backs: &[Option<u32>], start: u32) -> Result<Vec<u32>, NoMemory>
    requires few { length backs.now < 2 ^ 32 }
    requires start { start < length backs.now }
    requires within { (g f : ℕ) → back_from backs.now g ≡ Some f → f < length backs.now }
    ensures { IfOk result (λ round. round.items ≡ walk_back (length backs.now + 1) (back_from backs.now) [] start) }
{
    let mut seen: Vec<bool> = vec![in alloc; false; backs.len()]?;
    let mut path: Vec<u32> = Vec::new(alloc);
    let mut node = start;
    for _turn in 0..backs.len() + 1 {
        if seen[node as usize] {
            return repeat_from(alloc, &path, node);
        }
        seen[node as usize] = true;
        path.push(node)?;
        match step_from(backs, node) {
            None => return Ok(Vec::new(alloc)),
            Some(before) => node = before,
        }
    }
    Ok(Vec::new(alloc))
}

/// What repeats on the way back from a node, again and again to the first node left over that stands before; nothing
/// where the way ends. It comes turned round, so that each of the nodes stands before the next one and the last before
/// the first. The counts are those of `put_in_order`.
///
/// # Errors
///
/// `NoMemory` where memory was not found.
pub fn walk_back(
    alloc: Global,
    lists: &[Successors],
    waiting: &[usize],
    start: u32,
) -> Result<Vec<u32>, NoMemory>
    requires few { length lists.now < 2 ^ 32 }
    requires ascending { AreAscending lists.now }
    requires waiting { AreWaiting
        (length lists.now)
        (length lists.now)
        (follows lists.now)
        (order (length lists.now) (follows lists.now))
        waiting.now }
    requires start { start < length lists.now }
    ensures { IfOk result (λ round.
        round.items
        ≡ walk_back (length lists.now + 1) (step_back (length lists.now) (follows lists.now)) [] start) }
{
    let backs = point_back(alloc, lists, waiting)?;
    walk(alloc, &backs, start)
}

/// The least of a number and some more.
fn least_in(first: u32, more: &[u32]) -> u32
    ensures { result ≡ least_of first more.now }
{
    let mut least = first;
    for number in more {
        least = least.min(*number);
    }
    least
}

/// Turns a round until it begins with its least number.
pub fn begin_with_least(round: &mut Vec<u32>)
    ensures { round.new.items ≡ begun_with_least round.old.items }
{
    if round.is_empty() {
        return;
    }
    let least = least_in(round[0], &round[1..]);
    let place = place_of(round, least);
    round.rotate_left(place);
}
