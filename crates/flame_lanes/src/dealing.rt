//! Tasks are dealt to workers.

ghost use Rattle.std.specs.Prelude.{◌≡◌, ◌<◌, ℕ, ℤ, List, [], IfOk, length};
ghost use Rattle.std.specs.List.{flat_map};
ghost use Rattle.flame_rows.specs.Bags.{weigh};
ghost use Rattle.flame_lanes.specs.LaneTasks.{AreFrom, agents_at};

use crate::tasks::Task;
use flame_rows::NoMemory;
use std::alloc::Global;

/// `count` loads without tasks.
fn no_loads(alloc: Global, count: u32) -> Result<Vec<Vec<Task>>, NoMemory>
    ensures count { IfOk result (λ loads. length loads.items ≡ count) }
    ensures none { IfOk result (λ loads. flat_map (λ load. load.items) loads.items ≡ []) }
{
    let mut loads = Vec::new(alloc);
    for _load in 0..count {
        loads.push(Vec::new(alloc))?;
    }
    Ok(loads)
}

/// The tasks in so many loads: that in place p goes to load p mod loads. Of each function the agents stay together, in whatever
/// order.
pub fn deal_tasks(alloc: Global, tasks: Vec<Task>, count: u32) -> Result<Vec<Vec<Task>>, NoMemory>
    requires { 0 < count }
    ensures count { IfOk result (λ loads. length loads.items ≡ count) }
    ensures from { IfOk result (λ loads. AreFrom tasks.items (flat_map (λ load. load.items) loads.items)) }
    ensures agents { IfOk result (λ loads. (place : ℕ) (weight : List ℤ → ℕ)
        → weigh weight (agents_at place (flat_map (λ load. load.items) loads.items))
        ≡ weigh weight (agents_at place tasks.items)) }
{
    let mut loads = no_loads(alloc, count)?;
    for (place, task) in tasks.into_iter().enumerate() {
        loads[place % (count as usize)].push(task)?;
    }
    Ok(loads)
}
