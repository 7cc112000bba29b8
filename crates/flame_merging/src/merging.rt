//! Bags are put together by several workers.

ghost use Rattle.std.specs.Prelude.{◌≡◌, ◌<◌, ℕ, ℤ, List, IfOk, length, slice_index_or};
ghost use Rattle.std.specs.List.{flat_map};
ghost use Rattle.flame_rows.specs.Bags.{ascending, merge_all, weigh};
ghost use Rattle.flame_merging.specs.RowLists.{rows_in, weigh_parts};

use crate::cutting::parts_of;
use crate::lists::{in_order, lists_of};
use crate::shapes::{are_worth_it, bounds_of};
use flame_rows::{Bag, NoMemory, Row, all_of};
use std::alloc::Global;
use std::thread;
use std::thread::Threads;

/// What the workers give back that put the rows of each part in order, each one of them; the caller is one of the workers.
/// Where no thread can be started, the caller does its work.
fn sort_each<R: Threads + Sync>(
    rt: &R,
    alloc: Global,
    parts: Vec<Vec<Vec<Row>>>,
) -> Result<Vec<Result<Bag, NoMemory>>, NoMemory>
    ensures count { IfOk result (λ bags. length bags.items ≡ length parts.items) }
    ensures each { IfOk result (λ bags. (place : ℕ) (other : _) (part : _) → place < length parts.items
        → IfOk (slice_index_or bags.items place other) (λ bag.
        bag ≡ ascending (rows_in (slice_index_or parts.items place part).items))) }
{
    let bags = thread::map_vec(
        rt,
        parts,
        &|part: Vec<Vec<Row>>| -> Result<Bag, NoMemory>
            ensures { IfOk result (λ bag. bag ≡ ascending (rows_in part.items)) }
        { in_order(alloc, part) },
    )?;
    Ok(bags)
}

/// The rows of each part in content order, of which each worker puts one in order.
fn sort_all<R: Threads + Sync>(
    rt: &R,
    alloc: Global,
    parts: Vec<Vec<Vec<Row>>>,
) -> Result<Vec<Bag>, NoMemory>
    ensures { IfOk result (λ bags. (weight : List ℤ → ℕ)
        → weigh weight (flat_map (λ bag. bag) bags.items) ≡ weigh_parts weight parts.items) }
{
    let results = sort_each(rt, alloc, parts)?;
    let bags = all_of(alloc, results)?;
    Ok(bags)
}

/// The rows of these bags, a list for each, of which the last comes first.
fn turned(alloc: Global, bags: Vec<Bag>) -> Result<Vec<Vec<Row>>, NoMemory>
    ensures { IfOk result (λ lists. (weight : List ℤ → ℕ)
        → weigh weight (rows_in lists.items) ≡ weigh weight (flat_map (λ bag. bag) bags.items)) }
{
    let mut bags = bags;
    let mut lists = Vec::new(alloc);
    while let Some(bag) = bags.pop() {
        lists.push(bag.into_rows())?;
    }
    Ok(lists)
}

/// The same as one bag, by so many workers: each puts those rows in order that lie between two bounds.
fn merge_parts<R: Threads + Sync>(
    rt: &R,
    alloc: Global,
    workers: u32,
    bags: Vec<Bag>,
) -> Result<Bag, NoMemory>
    ensures { IfOk result (λ bag. bag ≡ merge_all bags.items) }
{
    let bounds = bounds_of(alloc, bags.as_slice(), workers as usize)?;
    let lists = lists_of(alloc, bags)?;
    let parts = parts_of(alloc, lists, bounds)?;
    let sorted = sort_all(rt, alloc, parts)?;
    let turned = turned(alloc, sorted)?;
    let bag = in_order(alloc, turned)?;
    Ok(bag)
}

/// The rows of all bags as one bag, each as often, by the caller alone.
pub fn merge_here(alloc: Global, bags: Vec<Bag>) -> Result<Bag, NoMemory>
    ensures { IfOk result (λ bag. bag ≡ merge_all bags.items) }
{
    let lists = lists_of(alloc, bags)?;
    let bag = in_order(alloc, lists)?;
    Ok(bag)
}

/// The same by so many workers, of which the caller is one. Where the rows are few, or the bags lie in order one behind another,
/// the caller puts them together alone; so it does where no thread can be started.
pub fn merge_bags<R: Threads + Sync>(
    rt: &R,
    alloc: Global,
    workers: u32,
    bags: Vec<Bag>,
) -> Result<Bag, NoMemory>
    ensures { IfOk result (λ bag. bag ≡ merge_all bags.items) }
{
    if workers > 1 && are_worth_it(bags.as_slice()) {
        return merge_parts(rt, alloc, workers, bags);
    }
    merge_here(alloc, bags)
}
