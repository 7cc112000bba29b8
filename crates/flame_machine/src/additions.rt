//! What a run adds.

ghost use Rattle.std.specs.Prelude.{◌≡◌, [], ◌∷◌, ◌++◌, OnOk, OnErr};
ghost use Rattle.flame_machine.specs.MachineFrames.{nothing_added};
ghost use Rattle.flame_spec.specs.declared.outcomes.Sent.{Sent as Message};
ghost use Rattle.flame_spec.specs.declared.outcomes.Born.{Born as Birth};

use flame_rows::{NoMemory, Row};
use flame_spec::{Born, Sent};
use std::alloc::Global;
use std::marker::Model;

/// The messages and births that a run added, in order. They stand apart from its frame, whose fields then need no memory.
#[derive(Drop)]
pub struct Added {
    alloc: Global,
    sent: Vec<Sent>,
    born: Vec<Born>,
}

impl Model for Added {
    ghost use Rattle.flame_machine.specs.MachineFrames.{Additions};

    ghost Value = { Additions };

    ghost view = { λ a. record { sent = a.sent.items; born = a.born.items } };
}

impl Added {
    /// Nothing yet. It takes no memory.
    pub fn new(alloc: Global) -> Added
        ensures { result ≡ record { sent = []; born = [] } }
    {
        Added {
            alloc,
            sent: Vec::new(alloc),
            born: Vec::new(alloc),
        }
    }

    /// Where rows take their memory.
    #[inline(always)]
    pub fn alloc(&self) -> Global {
        self.alloc
    }

    /// Nothing again. The lists keep their memory.
    pub fn clear(&mut self)
        ensures { self.new ≡ nothing_added }
    {
        self.sent.clear();
        self.born.clear();
    }

    /// Adds a message.
    pub fn send(&mut self, message: u32, row: Row) -> Result<(), NoMemory>
        ensures { OnOk result (self.new ≡ record self.old {
          sent = self.old.sent ++ (let sent : Message = record { message = message; row = row } in sent) ∷ [];
        }) }
    {
        self.sent.push(Sent { message, row })?;
        Ok(())
    }

    /// Adds a birth.
    pub fn bear(&mut self, agent: u32, row: Row) -> Result<(), NoMemory>
        ensures { OnOk result (self.new ≡ record self.old {
          born = self.old.born ++ (let born : Birth = record { agent = agent; row = row } in born) ∷ [];
        }) }
    {
        self.born.push(Born { agent, row })?;
        Ok(())
    }

    /// Puts the messages and the births behind what these lists have. Where memory is not found the lists are as they were.
    pub fn give(&mut self, sent: &mut Vec<Sent>, born: &mut Vec<Born>) -> Result<(), NoMemory>
        ensures sent { OnOk result (sent.new.items ≡ sent.old.items ++ self.old.sent) }
        ensures born { OnOk result (born.new.items ≡ born.old.items ++ self.old.born) }
        ensures same_sent { OnErr result (sent.new.items ≡ sent.old.items) }
        ensures same_born { OnErr result (born.new.items ≡ born.old.items) }
    {
        if self.sent.is_empty() && self.born.is_empty() {
            return Ok(());
        }
        self.give_some(sent, born)
    }

    /// The same, where there is a message or a birth.
    #[inline(never)]
    fn give_some(&mut self, sent: &mut Vec<Sent>, born: &mut Vec<Born>) -> Result<(), NoMemory>
        ensures sent { OnOk result (sent.new.items ≡ sent.old.items ++ self.old.sent) }
        ensures born { OnOk result (born.new.items ≡ born.old.items ++ self.old.born) }
        ensures same_sent { OnErr result (sent.new.items ≡ sent.old.items) }
        ensures same_born { OnErr result (born.new.items ≡ born.old.items) }
    {
        let count = sent.len();
        sent.append(&mut self.sent)?;
        if born.append(&mut self.born).is_err() {
            sent.truncate(count);
            return Err(NoMemory);
        }
        Ok(())
    }
}
