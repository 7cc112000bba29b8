//! How an iteration ends that no agent faulted in.

ghost use Rattle.std.specs.Prelude.{◌≡◌, [], ◌∷◌, IfOk, OnOk, map};
ghost use Rattle.std.specs.List.{flat_map, zip};
ghost use Rattle.flame_rows.specs.Bags.{merge, merge_all};
ghost use Rattle.flame_world.specs.AgentRuns.{births_of};
ghost use Rattle.flame_world.specs.Fields.{changed, gathered, joined};
ghost use Rattle.flame_field.specs.KeptBoards.{board_bag};
ghost use Rattle.flame_field.specs.KeptFields.{field_of};
ghost use Rattle.flame_field.specs.KeptGatherings.{bag_of, bags_of};
ghost use Rattle.flame_field.specs.KeptPools.{pool_bags, pools_of};

use flame_field::{Board, Field, Gathering, Pool};
use flame_rows::{Bag, NoMemory, Row, Seq};
use flame_spec::Born;
use flame_world::{Boards, World};
use std::alloc::Global;

/// No births of the types that have these pools.
fn no_births(alloc: Global, types: &[Vec<Pool>]) -> Result<Vec<Gathering>, NoMemory>
    ensures { IfOk result (λ born. bags_of born ≡ map (λ pools. []) types.now) }
{
    let mut born = Vec::new(alloc);
    for _pools in types {
        born.push(Gathering::empty(alloc))?;
    }
    Ok(born)
}

/// Sets a birth aside; one of no type is none.
fn bear_one(born: &mut Vec<Gathering>, birth: Born) -> Result<(), NoMemory>
    ensures { OnOk result (bags_of born.new
        ≡ changed birth.agent (λ bag. merge bag (birth.row ∷ [])) (bags_of born.old)) }
{
    if birth.agent as usize >= born.len() {
        return Ok(());
    }
    born[birth.agent as usize].add(birth.row)?;
    Ok(())
}

/// The births of each of the types that have these pools.
fn borne(alloc: Global, types: &[Vec<Pool>], births: Vec<Born>) -> Result<Vec<Gathering>, NoMemory>
    ensures { IfOk result (λ born. bags_of born ≡ joined (births_of births.items) (map (λ pools. []) types.now)) }
{
    let mut born = no_births(alloc, types)?;
    for birth in births {
        bear_one(&mut born, birth)?;
    }
    Ok(born)
}

/// The agents in all states of a type, in any order.
fn resting(alloc: Global, pools: Vec<Pool>) -> Result<Gathering, NoMemory>
    ensures { IfOk result (λ all. bag_of all ≡ merge_all (pool_bags pools)) }
{
    let mut all = Gathering::empty(alloc);
    for pool in pools {
        pool.join(&mut all)?;
    }
    Ok(all)
}

/// The agents of a type: those in all its states, and its births. They are put in order once.
fn all_of(alloc: Global, pools: Vec<Pool>, born: Gathering) -> Result<Bag, NoMemory>
    ensures { IfOk result (λ bag. bag ≡ merge (flat_map (λ pool. pool) (pool_bags pools)) (bag_of born)) }
{
    let mut all = resting(alloc, pools)?;
    all.add_all(born.rows)?;
    all.into_bag()
}

/// The agents of each type.
fn agents_of(
    alloc: Global,
    pools: Vec<Vec<Pool>>,
    born: Vec<Gathering>,
) -> Result<Vec<Bag>, NoMemory>
    ensures { IfOk result (λ bags. bags.items
        ≡ map (λ (pools, born). merge (flat_map (λ pool. pool) pools) born) (zip (pools_of pools) (bags_of born))) }
{
    let mut bags = Vec::new(alloc);
    for (pools, born) in pools.into_iter().zip(born) {
        bags.push(all_of(alloc, pools, born)?)?;
    }
    Ok(bags)
}

/// The messages of each board.
fn bags_of_boards(alloc: Global, boards: Vec<Board>) -> Result<Vec<Bag>, NoMemory>
    ensures { IfOk result (λ bags. bags.items ≡ map board_bag boards.items) }
{
    let mut bags = Vec::new(alloc);
    for board in boards {
        bags.push(board.into_bag()?)?;
    }
    Ok(bags)
}

/// An iteration ends without a fault: survivors and births are the agents of the world.
pub fn closed(alloc: Global, constants: Row, field: Field) -> Result<(World, Boards), NoMemory>
    ensures world { IfOk result (λ end. end.0.agents ≡ gathered (field_of field)) }
    ensures constants { IfOk result (λ end. end.0.constants ≡ constants) }
    ensures boards { IfOk result (λ end. end.1.boards ≡ (field_of field).boards) }
{
    let Field {
        pools,
        born,
        boards,
    } = field;
    let born = borne(alloc, pools.as_slice(), born)?;
    let world = World {
        constants,
        agents: Seq::of(agents_of(alloc, pools, born)?),
    };
    let boards = Boards {
        boards: Seq::of(bags_of_boards(alloc, boards)?),
    };
    Ok((world, boards))
}
