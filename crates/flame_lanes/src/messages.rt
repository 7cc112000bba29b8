//! The messages that the functions of a layer output.

ghost use Rattle.std.specs.Prelude.{◌≡◌, ℕ, ◌<◌, ◌++◌, ◌∷◌, [], Some, IsTrue, IfSome, IsNone, OnOk, OnErr, false, length, slice_get, if◌then◌else◌};
ghost use Rattle.flame_spec.specs.Below.{is_in};
ghost use Rattle.flame_lanes.specs.ListedMessages.{AreOnce, with_message, with_messages};

use flame_rows::{NoMemory, number};
use std::alloc::Global;
use std::marker::Model;

/// Some messages, by number, each once, of which the place of each is found at once. They are seen as their list.
#[derive(Drop)]
pub struct Messages {
    listed: Vec<u32>,
    /// The place of each message that is listed.
    places: Vec<u32>,
}

impl Model for Messages {
    ghost use Rattle.std.specs.Prelude.{List, ℕ};
    ghost use Rattle.flame_lanes.specs.ListedMessages.{HavePlaces};

    ghost Value = { List ℕ };

    ghost view = { λ messages. messages.listed.items };

    ghost invariant = { λ messages. HavePlaces messages.listed.items messages.places.items };
}

/// Makes room for the place of the message. Each that has one keeps it.
fn make_room(places: &mut Vec<u32>, message: u32) -> Result<(), NoMemory>
    ensures kept { (other place : ℕ) → slice_get places.old.items other ≡ Some place
        → slice_get places.new.items other ≡ Some place }
    ensures room { OnOk result (message < length places.new.items) }
{
    while places.len() <= message as usize {
        places.push(0)?;
    }
    Ok(())
}

impl Messages {
    /// No messages.
    pub fn empty(alloc: Global) -> Messages
        ensures { result ≡ [] }
    {
        Messages {
            listed: Vec::new(alloc),
            places: Vec::new(alloc),
        }
    }

    /// None are listed any more. What memory was taken is kept.
    pub fn clear(&mut self)
        ensures { self.new ≡ [] }
    {
        self.listed.clear();
    }

    /// The messages, in the order in which they were added.
    pub fn listed(&self) -> &[u32]
        ensures same { result.now ≡ self.now }
        ensures once { AreOnce self.now }
    {
        self.listed.as_slice()
    }

    /// The place of the message, where it is listed.
    fn find(&self, message: u32) -> Option<usize>
        ensures some { IfSome result (λ place. slice_get self.now place ≡ Some message) }
        ensures none { IsNone result → is_in message self.now ≡ false }
        ensures only { IfSome result (λ place. (other : ℕ) → slice_get self.now other ≡ Some message → other ≡ place) }
    {
        let place = *self.places.get(message as usize)? as usize;
        if *self.listed.get(place)? == message {
            Some(place)
        } else {
            None
        }
    }

    /// The place of the message, which is listed.
    pub fn place(&self, message: u32) -> usize
        requires { IsTrue (is_in message self.now) }
        ensures there { slice_get self.now result ≡ Some message }
        ensures only { (place : ℕ) → slice_get self.now place ≡ Some message → place ≡ result }
        ensures below { result < length self.now }
    {
        match self.find(message) {
            Some(place) => place,
            None => unreachable!(),
        }
    }

    /// Lists the message, if it is not listed yet. After `NoMemory`, which comes also where 32 bits cannot number them, the
    /// same are listed.
    pub fn add(&mut self, message: u32) -> Result<(), NoMemory>
        ensures ok { OnOk result (self.new ≡ with_message message self.old) }
        ensures err { OnErr result (self.new ≡ self.old) }
    {
        if self.find(message).is_some() {
            return Ok(());
        }
        let place = number(self.listed.len())?;
        make_room(&mut self.places, message)?;
        self.listed.push(message)?;
        self.places[message as usize] = place;
        Ok(())
    }
}

/// Lists these messages.
pub fn add_all(messages: &mut Messages, outputs: &[u32]) -> Result<(), NoMemory>
    ensures { OnOk result (messages.new ≡ with_messages outputs.now messages.old) }
{
    for message in outputs {
        messages.add(*message)?;
    }
    Ok(())
}
