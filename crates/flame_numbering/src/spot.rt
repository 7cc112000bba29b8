//! What a place of a body sees.

ghost use Rattle.std.specs.Prelude.{◌≡◌, ◌∷◌, ℕ, List, length, IfOk, OnOk};
ghost use Rattle.std.specs.List.{list_any};
ghost use Rattle.flame_spec.specs.KnownNames.{is_among};
ghost use Rattle.flame_spec.specs.Scopes.{Sight, at_entry, in_scope, in_loop, after_name, names_seen, is_local as local};
ghost use Rattle.flame_spec.specs.Scopes.{is_name_of, is_open_over as open_over, is_outside as outside, is_over, Loop};
ghost use Rattle.flame_body.specs.WordSlots.{local_number};
ghost use Rattle.flame_numbering.specs.SightTables.{loop_of, name_of};

use crate::locals::Locals;
use flame_rows::NoMemory;
use flame_spec::MessageType;
use std::alloc::Global;
use std::marker::Model;

/// What a place sees: the locals of its scope and of those round it, the name of the item in whose value it is, and the
/// loops that are open.
#[derive(Drop)]
pub(crate) struct Spot<'a> {
    locals: Locals<'a>,
    here: u32,
    outer: Vec<u32>,
    own: Option<&'a str>,
    loops: Vec<Option<&'a str>>,
}

impl<'a> Model for Spot<'a> {
    ghost use Rattle.std.specs.Prelude.{◌≡◌, ◌+◌, ◌<◌, ◌^◌, length, reverse};
    ghost use Rattle.flame_spec.specs.Scopes.{Sight};
    ghost use Rattle.flame_numbering.specs.SightTables.{sight_of, total};

    ghost Value = { Sight };

    ghost view = { λ s. sight_of s.locals s.here s.outer.items s.own s.loops.items };

    ghost invariant = { λ s. s.here + total (reverse s.outer.items) ≡ length s.locals };
}

impl<'a> Spot<'a> {
    /// What the first parameter of a function sees.
    pub(crate) fn new(alloc: Global) -> Spot<'a>
        ensures { result ≡ at_entry }
    {
        Spot {
            locals: Locals::new(alloc),
            here: 0,
            outer: Vec::new(alloc),
            own: None,
            loops: Vec::new(alloc),
        }
    }

    /// The number of the newest local of this name.
    pub(crate) fn number(&self, word: &str) -> Option<u32>
        ensures { result ≡ local_number (names_seen self.now) word.now }
    {
        self.locals.number(word)
    }

    /// How many locals there are.
    pub(crate) fn count(&self) -> u32
        ensures { result ≡ length (names_seen self.now) }
    {
        self.locals.len()
    }

    /// Whether the word is a local of the scope or of one round it.
    pub(crate) fn is_local(&self, word: &str) -> bool
        ensures { result ≡ local self.now word.now }
    {
        self.locals.number(word).is_some()
    }

    /// Whether the scope declares the word.
    pub(crate) fn is_declared(&self, word: &str) -> bool
        ensures { result ≡ is_among word.now self.now.scope }
    {
        match self.locals.number(word) {
            None => false,
            Some(number) => self.locals.len() - self.here <= number,
        }
    }

    /// Whether the place is in the value of the item of this name.
    pub(crate) fn is_own(&self, word: &str) -> bool
        ensures { result ≡ is_name_of self.now.own word.now }
    {
        match self.own {
            None => false,
            Some(name) => name == word,
        }
    }

    /// Whether a loop over the message is open.
    pub(crate) fn is_open_over(&self, message: &MessageType) -> bool
        ensures { result ≡ open_over self.now message.now }
    {
        some_is_over(self.loops.as_slice(), message)
    }

    /// Whether no loop is open.
    pub(crate) fn is_outside(&self) -> bool
        ensures { result ≡ outside self.now.loops }
    {
        self.loops.is_empty()
    }

    /// The scope declares the name.
    pub(crate) fn declare(&mut self, name: &'a str) -> Result<(), NoMemory>
        ensures { OnOk result (self.new ≡ after_name self.old name.now) }
    {
        self.locals.push(name)?;
        self.here += 1;
        Ok(())
    }

    /// A scope begins.
    pub(crate) fn enter(&mut self) -> Result<(), NoMemory>
        ensures { OnOk result (self.new ≡ in_scope self.old) }
    {
        self.outer.push(self.here)?;
        self.here = 0;
        Ok(())
    }

    /// The body of a loop begins, over the message of this name or over none.
    pub(crate) fn enter_loop(&mut self, over: Option<&'a str>) -> Result<(), NoMemory>
        ensures { OnOk result (self.new ≡ in_loop (loop_of over.entry) self.old) }
    {
        self.loops.push(over)?;
        self.enter()
    }

    /// The scope ends. There is one round it.
    pub(crate) fn leave(&mut self)
        ensures { (scope : List (List ℕ)) (outer : List (List (List ℕ))) → self.old.outer ≡ scope ∷ outer
            → self.new ≡ record self.old { scope = scope; outer = outer } }
    {
        if let Some(here) = self.outer.pop() {
            self.locals.cut(self.here);
            self.here = here;
        }
    }

    /// The body of a loop ends. There is a scope round it.
    pub(crate) fn leave_loop(&mut self)
        ensures { (scope : List (List ℕ)) (outer : List (List (List ℕ))) (open_loop : Loop) (loops : List Loop)
            → self.old.outer ≡ scope ∷ outer → self.old.loops ≡ open_loop ∷ loops
            → self.new ≡ record self.old { scope = scope; outer = outer; loops = loops } }
    {
        self.loops.pop();
        self.leave();
    }

    /// The place is in the value of the item of this name, or in none; the result is in which it was before.
    pub(crate) fn swap_own(&mut self, own: Option<&'a str>) -> Option<&'a str>
        ensures before { name_of result ≡ self.old.own }
        ensures after { self.new ≡ record self.old { own = name_of own.entry } }
    {
        let before = self.own;
        self.own = own;
        before
    }
}

/// Whether the loop is over the message.
fn is_over(over: Option<&str>, message: &MessageType) -> bool
    ensures { result ≡ is_over message.now (loop_of over.entry) }
{
    match over {
        None => false,
        Some(name) => name == message.name.as_str(),
    }
}

/// Whether one of the loops is over the message.
fn some_is_over(loops: &[Option<&str>], message: &MessageType) -> bool
    ensures { result ≡ list_any (λ over. is_over message.now (loop_of over)) loops.now }
{
    for over in loops {
        if is_over(*over, message) {
            return true;
        }
    }
    false
}
