//! What the takers of a function left, put together from the shares of their pieces.

ghost use Rattle.std.specs.Prelude.{◌≡◌, ◌++◌, [], ℕ, ℤ, List, None, IfOk, OnOk, map};
ghost use Rattle.std.specs.List.{All, flat_map};
ghost use Rattle.flame_spec.specs.Below.{HasNoTwice};
ghost use Rattle.flame_spec.specs.declared.outcomes.Outcome.{Outcome};
ghost use Rattle.flame_leaving.specs.WholeLaws.{least_of};
ghost use Rattle.flame_world.specs.Shares.{piece_of};
ghost use Rattle.flame_nodes.specs.NodeLeavings.{AreLeftBy, IsOfRun, sent_in};
ghost use Rattle.flame_nodes.specs.NodePieces.{agents_in};

use flame_leaving::laws::parts_make_the_whole;
use flame_leaving::lesser_fault;
use flame_rows::{NoMemory, Row};
use flame_spec::{Born, Sent};
use flame_world::{Part, Rest, Share, SimFault};
use std::alloc::Global;

/// What some agents left, in any order.
#[derive(Debug, Drop)]
pub(crate) struct Left {
    /// The memories of those that live on.
    pub survivors: Vec<Row>,
    /// Their messages.
    pub sent: Vec<Sent>,
    /// The agents that they added.
    pub born: Vec<Born>,
    /// The fault of the least of them in content order that faulted.
    pub fault: Option<SimFault>,
}

/// Adds the messages of a part.
fn add_part(sent: &mut Vec<Sent>, part: Part) -> Result<(), NoMemory>
    ensures { OnOk result (sent.new.items ≡ sent.old.items ++ sent_in part) }
{
    let Part { message, rows, .. } = part;
    let rows = rows.into_rows();
    sent.reserve(rows.len())?;
    for row in rows {
        sent.push(Sent { message, row })?;
    }
    Ok(())
}

/// Adds the messages of these parts.
fn add_parts(sent: &mut Vec<Sent>, parts: Vec<Part>) -> Result<(), NoMemory>
    ensures { OnOk result (sent.new.items ≡ sent.old.items ++ flat_map sent_in parts.items) }
{
    for part in parts {
        add_part(sent, part)?;
    }
    Ok(())
}

impl Left {
    /// What nobody left.
    fn nothing(alloc: Global) -> Left
        ensures survivors { result.survivors.items ≡ [] }
        ensures sent { result.sent.items ≡ [] }
        ensures born { result.born.items ≡ [] }
        ensures fault { result.fault ≡ None }
    {
        Left {
            survivors: Vec::new(alloc),
            sent: Vec::new(alloc),
            born: Vec::new(alloc),
            fault: None,
        }
    }

    /// Adds what further agents left.
    fn add(&mut self, rest: Rest, parts: Vec<Part>) -> Result<(), NoMemory>
        ensures survivors { OnOk result (self.new.survivors.items ≡ self.old.survivors.items ++ rest.survivors) }
        ensures sent { OnOk result (self.new.sent.items ≡ self.old.sent.items ++ flat_map sent_in parts.items) }
        ensures born { OnOk result (self.new.born.items ≡ self.old.born.items ++ rest.born) }
        ensures fault { OnOk result (self.new.fault ≡ least_of self.old.fault rest.fault) }
    {
        let mut survivors = rest.survivors.into_rows();
        let mut born = rest.born.into_items();
        self.survivors.append(&mut survivors)?;
        self.born.append(&mut born)?;
        add_parts(&mut self.sent, parts)?;
        self.fault = lesser_fault(self.fault.take(), rest.fault);
        Ok(())
    }
}

/// What the agents of these shares left.
pub(crate) fn left_by(alloc: Global, shares: Vec<Share<'_>>) -> Result<Left, NoMemory>
    ensures { IfOk result (λ left.
        (iteration : ℤ) (function : ℕ) (run : List ℤ → Outcome) (outputs : List ℕ)
        → HasNoTwice outputs
        → All (IsOfRun iteration function run outputs) shares.entry.items
        → AreLeftBy iteration function run outputs (agents_in (map piece_of shares.entry.items)) left) }
{
    parts_make_the_whole();
    let mut left = Left::nothing(alloc);
    for share in shares {
        let _in_order = share.piece().agents.rows();
        let (rest, parts) = share.split();
        left.add(rest, parts.into_items())?;
    }
    Ok(left)
}
