//! The numbers that define lines have given to words.

ghost use Rattle.std.specs.Prelude.{◌≡◌, ℕ, List, None, OnOk};
ghost use Rattle.flame_lex.specs.declared.found.Found.TheVariants.{Defined};
ghost use Rattle.flame_lex.specs.Lexing.{known_after, meant};
ghost use Rattle.flame_lex.specs.LexSteps.{known_in};

use crate::define::Define;
use crate::token::Kind;
use flame_rows::{NoMemory, Text};
use std::alloc::Global;
use std::collections::HashMap;

/// A number for each word that a define line has named.
#[derive(Drop)]
pub(crate) struct DefineTable {
    numbers: HashMap<String, i32>,
}

impl DefineTable {
    /// The table before any define line.
    pub fn new(alloc: Global) -> DefineTable
        ensures { (word : List ℕ) → known_in result word ≡ None }
    {
        DefineTable {
            numbers: HashMap::new(alloc),
        }
    }

    /// The number of the word, none where no define line has named it.
    pub fn number(&self, word: &Text) -> Option<i32>
        ensures { result ≡ known_in self.now word.now }
    {
        self.numbers.get(word.as_str()).copied()
    }

    /// Adds what a define line says.
    pub fn add(&mut self, alloc: Global, define: Define) -> Result<(), NoMemory>
        ensures { OnOk result (
            (word : List ℕ)
            → known_in self.new word ≡ known_after (Defined define) (known_in self.old) word) }
    {
        let name = String::from_str(alloc, define.name.as_str())?;
        self.numbers.insert(name, define.value)?;
        Ok(())
    }

    /// The kind of the token that a lexeme makes: a word that has a number is that number.
    pub fn meant(&self, kind: Kind) -> Kind
        ensures { result ≡ meant (known_in self.now) kind }
    {
        match kind {
            Kind::Word(name) => match self.number(&name) {
                Some(value) => Kind::Number(value),
                None => Kind::Word(name),
            },
            other => other,
        }
    }
}
