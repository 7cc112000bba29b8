//! The order in which nodes can be taken: each after those that stand before it.

ghost use Rattle.std.specs.Prelude.{◌≡◌, ℕ, [], ◌+◌, ◌<◌, ◌≤◌, ◌^◌, ◌==◌, ◌&&◌, ◌||◌, nat_lt};
ghost use Rattle.std.specs.Prelude.{IfOk, OnOk, length, slice_index};
ghost use Rattle.std.specs.List.{All};
ghost use Rattle.flame_spec.specs.Below.{first_below, is_in, times};
ghost use Rattle.flame_spec.specs.ModelOrder.{order, first_left};
ghost use Rattle.flame_graph.specs.Graph.{AreAscending, AreWaiting, follows, waits};

use crate::lists::Successors;
use crate::ready::Ready;
use flame_rows::NoMemory;
use std::alloc::Global;

/// Adds 1 for each of the successors.
fn raise(successors: &[u32], waiting: &mut [usize])
    requires within { All (λ g. g < length waiting.old) successors.now }
    requires small { (g : ℕ) → g < length waiting.old → slice_index waiting.old g < 2 ^ 63 }
    ensures { (g : ℕ)
        → g < length waiting.old
        → slice_index waiting.new g ≡ slice_index waiting.old g + times g successors.now }
{
    for successor in successors {
        waiting[*successor as usize] += 1;
    }
}

/// For each node how many nodes stand before it.
fn count_predecessors(alloc: Global, lists: &[Successors]) -> Result<Vec<usize>, NoMemory>
    requires { AreAscending lists.now }
    ensures { IfOk result (λ waiting.
        AreWaiting (length lists.now) (length lists.now) (follows lists.now) [] waiting.items) }
{
    let mut waiting: Vec<usize> = vec![in alloc; 0usize; lists.len()]?;
    for list in lists {
        raise(list.numbers(), &mut waiting);
    }
    Ok(waiting)
}

/// The nodes before which none stands.
fn first_ready(alloc: Global, waiting: &[usize]) -> Result<Ready, NoMemory>
    requires { length waiting.now < 2 ^ 32 }
    ensures { IfOk result (λ ready.
        (g : ℕ)
        → is_in g ready
        ≡ (nat_lt g (length waiting.now) && (slice_index waiting.now g == 0))) }
{
    let mut ready = Ready::new(alloc);
    for (g, open) in waiting.iter().enumerate() {
        if *open == 0 {
            ready.add(g as u32)?;
        }
    }
    Ok(ready)
}

/// Takes 1 away for each of the successors, and adds those that come to 0 to the nodes that are ready.
fn settle(successors: &[u32], waiting: &mut [usize], ready: &mut Ready) -> Result<(), NoMemory>
    requires within { All (λ g. g < length waiting.old) successors.now }
    requires enough { (g : ℕ) → g < length waiting.old → times g successors.now ≤ slice_index waiting.old g }
    ensures counts { OnOk result (
        (g : ℕ)
        → g < length waiting.old
        → slice_index waiting.new g + times g successors.now ≡ slice_index waiting.old g) }
    ensures ready { OnOk result (
        (g : ℕ)
        → is_in g ready.new
        ≡ (is_in g ready.old || (is_in g successors.now && (slice_index waiting.new g == 0)))) }
{
    for successor in successors {
        waiting[*successor as usize] -= 1;
        if waiting[*successor as usize] == 0 {
            ready.add(*successor)?;
        }
    }
    Ok(())
}

/// An order as far as it goes, and for each node how many nodes stand before it that are not in the order.
#[derive(Drop)]
pub struct Ordered {
    /// The nodes of the order.
    pub order: Vec<u32>,
    /// For each node its count: 0 for those of the order, and for no others.
    pub waiting: Vec<usize>,
}

/// The order, as far as it goes: again and again the first node is taken that is not taken and before which only taken
/// ones stand. With n nodes and e successors in all it takes time for about n log n + e steps.
///
/// # Errors
///
/// `NoMemory` where memory was not found.
pub fn put_in_order(alloc: Global, lists: &[Successors]) -> Result<Ordered, NoMemory>
    requires few { length lists.now < 2 ^ 32 }
    requires ascending { AreAscending lists.now }
    ensures order { IfOk result (λ ordered. ordered.order.items ≡ order (length lists.now) (follows lists.now)) }
    ensures waiting { IfOk result (λ ordered.
        AreWaiting
        (length lists.now)
        (length lists.now)
        (follows lists.now)
        (order (length lists.now) (follows lists.now))
        ordered.waiting.items) }
    ensures left { IfOk result (λ ordered.
        first_below (waits ordered.waiting.items) (length ordered.waiting.items)
        ≡ first_left (length lists.now) (follows lists.now)) }
{
    let mut waiting = count_predecessors(alloc, lists)?;
    let mut ready = first_ready(alloc, &waiting)?;
    let mut order: Vec<u32> = Vec::new(alloc);
    for _turn in 0..lists.len() {
        match ready.take() {
            None => return Ok(Ordered { order, waiting }),
            Some(next) => {
                settle(lists[next as usize].numbers(), &mut waiting, &mut ready)?;
                order.push(next)?;
            }
        }
    }
    Ok(Ordered { order, waiting })
}
