//! How the field of an iteration begins.

ghost use Rattle.std.specs.Prelude.{◌≡◌, ◌<◌, ℕ, ℤ, List, [], Some, false, IfOk, length, map, slice_get};
ghost use Rattle.flame_rows.specs.Bags.{ascending};
ghost use Rattle.flame_world.specs.Fields.{changed, opening};
ghost use Rattle.flame_world.specs.WorldFits.{FitTypes};
ghost use Rattle.flame_field.specs.KeptBoards.{board_bag, is_board_frozen};
ghost use Rattle.flame_field.specs.KeptFields.{field_of};
ghost use Rattle.flame_field.specs.KeptPools.{pool_bags, pools_of, AreDealt, IsDealt};
ghost use Rattle.flame_field.specs.declared.pools.Pool.{Pool as Kept};

use flame_field::{Board, Field, Pool, exchanged};
use flame_program::Program;
use flame_rows::{Bag, NoMemory, Seq};
use flame_spec::MessageType;
use std::alloc::Global;

/// A pool for each of these states: these agents rest in that of this number, and none in the others. Nobody has chosen.
fn begun(alloc: Global, states: &[Seq<u32>], start: u32, agents: Bag) -> Result<Vec<Pool>, NoMemory>
    requires { start < length states.now }
    ensures bags { IfOk result (λ pools. pool_bags pools
        ≡ changed start (λ none. ascending agents) (map (λ state. []) states.now)) }
    ensures dealt { IfOk result (λ pools. (choose : ℕ → List ℤ → ℕ) (state : ℕ) (pool : Kept)
        → slice_get pools.items state ≡ Some pool → IsDealt (choose state) pool) }
{
    let mut pools = Vec::new(alloc);
    for _state in states {
        pools.push(Pool::empty(alloc))?;
    }
    let _none = exchanged(&mut pools, start, Pool::of(alloc, agents));
    Ok(pools)
}

/// The agents of each type in its start state.
fn pools_begun(
    alloc: Global,
    program: &Program,
    agents: Seq<Bag>,
) -> Result<Vec<Vec<Pool>>, NoMemory>
    requires { FitTypes program.now.model agents }
    ensures bags { IfOk result (λ pools. pools_of pools ≡ (opening program.now.model agents).pools) }
    ensures dealt { IfOk result (λ pools. (choose : ℕ → ℕ → List ℤ → ℕ) → AreDealt choose pools) }
{
    let _source = program.source();
    let routes = program.routes();
    let mut pools: Vec<Vec<Pool>> = Vec::new(alloc);
    for (bag, start) in agents.into_items().into_iter().zip(routes.starts.items()) {
        let states = routes.leaving.items()[pools.len()].items();
        let own = begun(alloc, states, *start, bag)?;
        pools.push(own)?;
    }
    Ok(pools)
}

/// Boards of these messages, which gather.
fn all_gathering(alloc: Global, messages: &[MessageType]) -> Result<Vec<Board>, NoMemory>
    ensures bags { IfOk result (λ boards. map board_bag boards.items ≡ map (λ message. []) messages.now) }
    ensures marks { IfOk result (λ boards. map is_board_frozen boards.items ≡ map (λ message. false) messages.now) }
{
    let mut boards = Vec::new(alloc);
    for _message in messages {
        boards.push(Board::empty(alloc))?;
    }
    Ok(boards)
}

/// An iteration begins: all agents rest in their start states, there are no births and no messages, and boards gather.
pub fn opened(alloc: Global, program: &Program, agents: Seq<Bag>) -> Result<Field, NoMemory>
    requires { FitTypes program.now.model agents }
    ensures field { IfOk result (λ field. field_of field ≡ opening program.now.model agents) }
    ensures marks { IfOk result (λ field. map is_board_frozen field.boards.items
        ≡ map (λ message. false) program.now.model.messages) }
    ensures dealt { IfOk result (λ field. (choose : ℕ → ℕ → List ℤ → ℕ) → AreDealt choose field.pools) }
{
    let model = &program.source().model;
    let pools = pools_begun(alloc, program, agents)?;
    let boards = all_gathering(alloc, model.messages.items())?;
    Ok(Field {
        pools,
        born: Vec::new(alloc),
        boards,
    })
}
