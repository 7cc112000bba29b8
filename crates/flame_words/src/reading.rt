//! Reading words, one after another.

ghost use Rattle.std.specs.Prelude.{◌≡◌, ◌<◌, length, None, option_map, OnOk, IfErr};
ghost use Rattle.std.specs.List.{list_any, find};
ghost use Rattle.std.specs.Str.{bytes_eq};
ghost use Rattle.flame_words.specs.WordRoles.{begins_option};

use crate::faults::Usage;
use crate::table::{Command, Flag};
use crate::value::fault_as;
use flame_rows::Fail;
use std::alloc::Global;

/// An option and the value that was given for it.
#[derive(Clone, Copy)]
pub(crate) struct Setting<'a> {
    pub option: Flag,
    pub value: &'a str,
}

/// What was read of the words behind a command.
#[derive(Drop)]
pub(crate) struct Reading<'a> {
    pub command: Command,
    pub words: Vec<&'a str>,
    pub settings: Vec<Setting<'a>>,
    pub pending: Option<Flag>,
}

impl<'a> Reading<'a> {
    ghost use Rattle.flame_words.specs.CommandTable.{flag_name};
    ghost use Rattle.flame_words.specs.GivenOrders.{word_at, word_of, value_of};
    ghost use Rattle.flame_words.specs.WordSteps.{seen_of, nothing_behind, fault_at, option_fault, place_fault};
    ghost use Rattle.flame_words.specs.WordSteps.{read_on};
    ghost use Rattle.flame_words.specs.WordSteps.{missing_at, FailsBy};

    /// Nothing yet.
    pub fn new(alloc: Global, command: Command) -> Reading<'a>
        ensures { seen_of result ≡ nothing_behind command }
    {
        Reading {
            command,
            words: Vec::new(alloc),
            settings: Vec::new(alloc),
            pending: None,
        }
    }

    /// Reads the next word, which has this number among the words.
    pub fn read(&mut self, number: u32, word: &'a str) -> Result<(), Fail<Usage>>
        ensures read { OnOk result (seen_of self.new ≡ read_on self.old.pending (seen_of self.old) word.now) }
        ensures no_fault { OnOk result (fault_at self.old.pending (seen_of self.old) number word.now ≡ None) }
        ensures fault { IfErr result (FailsBy (fault_at self.old.pending (seen_of self.old) number word.now)) }
    {
        if let Some(fault) = self.fault_of(number, word) {
            return Err(Fail::Fault(fault));
        }
        if let Some(option) = self.pending {
            self.settings.push(Setting {
                option,
                value: word,
            })?;
            self.pending = None;
        } else if begins_option(word) {
            self.pending = self.command.option(word);
        } else {
            self.words.push(word)?;
        }
        Ok(())
    }

    /// The fault of the next word, which has this number.
    fn fault_of(&self, number: u32, word: &str) -> Option<Usage>
        ensures { result ≡ fault_at self.now.pending (seen_of self.now) number word.now }
    {
        match self.pending {
            Some(option) => fault_as(option.takes(), number, word),
            None => {
                if begins_option(word) {
                    self.option_fault(number, word)
                } else {
                    self.place_fault(number, word)
                }
            }
        }
    }

    /// Why a word that begins with `--` is not taken.
    #[tactic(auto, using(flame_rows::proofs::Lists::list_any_map))]
    fn option_fault(&self, number: u32, word: &str) -> Option<Usage>
        ensures { result ≡ option_fault (seen_of self.now) number word.now }
    {
        if self.command.option(word).is_none() {
            Some(Usage::UnknownOption(number))
        } else if self.is_set(word) {
            Some(Usage::Repeated(number))
        } else {
            None
        }
    }

    /// Whether the option of this spelling was given.
    fn is_set(&self, word: &str) -> bool
        ensures { result ≡ list_any (λ set. bytes_eq (flag_name set.option) word.now) self.now.settings.items }
    {
        self.settings.iter().any(|s| s.option.name() == word)
    }

    /// Why a word that stands for itself is not taken.
    fn place_fault(&self, number: u32, word: &str) -> Option<Usage>
        ensures { result ≡ place_fault (seen_of self.now) number word.now }
    {
        match self.command.places().get(self.words.len()) {
            Some(place) => fault_as(place.takes(), number, word),
            None => Some(Usage::Extra(number)),
        }
    }

    /// The positional word of this number, from 0.
    pub fn word(&self, at: usize) -> &'a str
        requires { at < length self.now.words.items }
        ensures { result.now ≡ word_at (seen_of self.now).words at }
    {
        self.words[at]
    }

    /// The value of the option: the one that was given, or else its default, if it has one.
    #[tactic(auto, using(crate::proofs::Lists::find_mapped))]
    pub fn value(&self, option: Flag) -> Option<&'a str>
        ensures { option_map (λ word. word.now) result ≡ value_of (seen_of self.now).givens option }
    {
        match self.setting(option) {
            Some(set) => Some(set.value),
            None => option.default(),
        }
    }

    /// The value of an option that has a default.
    pub fn word_of(&self, option: Flag) -> &'a str
        ensures { result.now ≡ word_of (seen_of self.now).givens option }
    {
        match self.value(option) {
            Some(word) => word,
            None => "",
        }
    }

    /// The option with its value, if one was given.
    fn setting(&self, option: Flag) -> Option<Setting<'a>>
        ensures { result
            ≡ find (λ set. bytes_eq (flag_name set.option) (flag_name option)) self.now.settings.items }
    {
        self.settings
            .iter()
            .copied()
            .find(|s| s.option.name() == option.name())
    }

    /// What is missing where no word comes next.
    pub fn missing(&self) -> Option<&'static str>
        ensures { option_map (λ name. name.now) result ≡ missing_at self.now.pending (seen_of self.now) }
    {
        match self.pending {
            Some(option) => Some(option.name()),
            None => {
                let place = self.command.places().get(self.words.len())?;
                Some(place.name())
            }
        }
    }
}

/// Whether the word begins with `--`.
fn begins_option(word: &str) -> bool
    ensures { result ≡ begins_option word.now }
{
    word.as_bytes().starts_with(b"--")
}
