//! Pools parted by choices, and joined again.

ghost use Rattle.std.specs.Prelude.{◌≡◌, ◌==◌, not, length, IfOk};
ghost use Rattle.std.specs.List.{flat_map};
ghost use Rattle.flame_rows.specs.Bags.{merge};
ghost use Rattle.flame_rows.specs.Parted.{whose};

use flame_rows::laws::parted_bags;
use flame_rows::{Bag, NoMemory, Row, Seq};

/// The agents of the pool whose choice is this number, and all others. No row is copied.
pub fn take(pool: Bag, choices: &Seq<u32>, number: u32) -> Result<(Bag, Bag), NoMemory>
    requires { length choices.now ≡ length pool }
    ensures takers { IfOk result (λ parts. parts.0 ≡ whose (λ choice. choice == number) pool choices.now) }
    ensures others { IfOk result (λ parts. parts.1 ≡ whose (λ choice. not (choice == number)) pool choices.now) }
    ensures all { IfOk result (λ parts. merge parts.0 parts.1 ≡ pool) }
{
    parted_bags();
    let _ascending = pool.rows();
    let parts = pool.chosen(choices.items(), number)?;
    Ok(parts)
}

/// All pools and the births together: what a type's agents are after an iteration.
pub fn turn_over(pools: Seq<Bag>, born: Bag) -> Result<Bag, NoMemory>
    ensures { IfOk result (λ bag. bag ≡ merge (flat_map (λ pool. pool) pools) born) }
{
    let mut rows = born.into_rows();
    for pool in pools.into_items() {
        let mut more = pool.into_rows();
        rows.append(&mut more)?;
    }
    Bag::of_rows(rows)
}
