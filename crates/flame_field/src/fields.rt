//! Where agents, births and messages are, and how they move.

ghost use Rattle.std.specs.Prelude.{◌≡◌, ◌<◌, ℕ, ℤ, List, [], length, map, slice_index_or, OnOk, OnErr};
ghost use Rattle.std.specs.List.{All};
ghost use Rattle.flame_rows.specs.Bags.{ascending, merge};
ghost use Rattle.flame_world.specs.AgentRuns.{births_of, messages_of};
ghost use Rattle.flame_world.specs.Fields.{changed_pool, joined};
ghost use Rattle.flame_field.specs.KeptBoards.{board_bag};
ghost use Rattle.flame_field.specs.KeptFields.{field_of};
ghost use Rattle.flame_field.specs.KeptPools.{pools_of, AreDealt};

use crate::boards::Board;
use crate::pools::{Pool, arrive};
use flame_rows::{NoMemory, Row};
use flame_spec::{Born, Sent};
use std::alloc::Global;

/// Where agents, births and messages are between two events of an iteration.
#[derive(Debug, Drop)]
pub struct Field {
    /// For each agent type, for each of its states, the agents that rest there.
    pub pools: Vec<Vec<Pool>>,
    /// All births so far, of whatever type.
    pub born: Vec<Born>,
    /// The board of each message type.
    pub boards: Vec<Board>,
}

/// Messages join their boards.
fn send(alloc: Global, boards: &mut Vec<Board>, sent: Vec<Sent>) -> Result<(), NoMemory>
    requires { All (λ message. message.message < length boards.old.items) sent.items }
    ensures { OnOk result (map board_bag boards.new.items
        ≡ joined (messages_of sent.items) (map board_bag boards.old.items)) }
{
    for message in sent {
        boards[message.message as usize].add(alloc, message.row)?;
    }
    Ok(())
}

impl Field {
    /// Agents arrive in this state of this type, and births are set aside. Nothing changes where no memory is found.
    pub fn bring(
        &mut self,
        alloc: Global,
        agent: u32,
        state: u32,
        survivors: Vec<Row>,
        born: Vec<Born>,
    ) -> Result<(), NoMemory>
        requires { state < length (slice_index_or (pools_of self.old.pools) agent []) }
        ensures ok { OnOk result (field_of self.new ≡ record (field_of self.old) {
          pools = changed_pool agent state (λ pool. merge pool (ascending survivors.items)) (field_of self.old).pools;
          born = joined (births_of born.items) (field_of self.old).born;
        }) }
        ensures err { OnErr result (field_of self.new ≡ field_of self.old) }
        ensures boards { self.new.boards ≡ self.old.boards }
        ensures dealt { (choose : ℕ → ℕ → List ℤ → ℕ) → AreDealt choose self.old.pools → AreDealt choose self.new.pools }
    {
        let mut born = born;
        self.born.reserve(born.len())?;
        arrive(alloc, &mut self.pools, agent, state, survivors)?;
        let _room = self.born.append(&mut born);
        Ok(())
    }

    /// What some agents left goes where it belongs: survivors arrive in this state of this type, births are set aside,
    /// messages join their boards. After `NoMemory` a part of it may be there, and the field is of no further use.
    pub fn settle(
        &mut self,
        alloc: Global,
        agent: u32,
        state: u32,
        survivors: Vec<Row>,
        sent: Vec<Sent>,
        born: Vec<Born>,
    ) -> Result<(), NoMemory>
        requires there { state < length (slice_index_or (pools_of self.old.pools) agent []) }
        requires messages { All (λ message. message.message < length self.old.boards.items) sent.items }
        ensures field { OnOk result (field_of self.new ≡ record {
          pools = changed_pool agent state (λ pool. merge pool (ascending survivors.items)) (field_of self.old).pools;
          born = joined (births_of born.items) (field_of self.old).born;
          boards = joined (messages_of sent.items) (field_of self.old).boards;
        }) }
        ensures dealt { (choose : ℕ → ℕ → List ℤ → ℕ) → AreDealt choose self.old.pools → AreDealt choose self.new.pools }
    {
        self.bring(alloc, agent, state, survivors, born)?;
        send(alloc, &mut self.boards, sent)?;
        Ok(())
    }
}
