//! Tables of spellings.

ghost use Rattle.std.specs.List.{starts_with};
ghost use Rattle.std.specs.Prelude.{nat_eq, ◌≡◌, ◌<◌, ◌≤◌, length, slice_get, Contains, IfSome, IfNone};
ghost use Rattle.flame_ops.specs.Spellings.{spelling, IsTable, IsLongest, NoneStands};

use crate::spelling::Spelling;
use std::marker::Model;

/// At most 64 spellings, none of them empty and none standing twice, seen as their list. A spelling's number is its
/// place in the list, from 0.
#[derive(Debug, Drop)]
pub struct Table<const N: usize> {
    spellings: [Spelling; N],
}

impl<const N: usize> Model for Table<N> {
    ghost use Rattle.std.specs.Prelude.{List, ℕ};
    ghost use Rattle.flame_ops.specs.Spellings.{IsTable};

    ghost Value = { List (List ℕ) };

    ghost view = { λ t. t.spellings };

    ghost invariant = { λ t. IsTable t.spellings };
}

impl<const N: usize> Table<N> {
    /// The table of these spellings in this order.
    pub(crate) fn of(spellings: [Spelling; N]) -> Table<N>
        requires { IsTable spellings }
        ensures { result ≡ spellings.entry }
    {
        Table { spellings }
    }

    /// The bytes of the spelling of this number, and what the type keeps of the list.
    pub fn spelling(&self, number: usize) -> &[u8]
        requires { number < length self.now }
        ensures spelling { result.now ≡ spelling self.now number }
        ensures table { IsTable self.now }
        ensures size { length self.now ≡ N }
    {
        let spellings = &self.spellings;
        spellings[number].bytes()
    }

    /// The number of the spelling that equals the word, None exactly where none does. Compares the word with each
    /// spelling at most once.
    pub fn number_of(&self, word: &[u8]) -> Option<usize>
        ensures found { IfSome result (λ number. slice_get self.now number ≡ Some word.now) }
        ensures missing { IfNone result (¬ Contains self.now word.now) }
    {
        for (number, spelling) in self.spellings.iter().enumerate() {
            if spelling.bytes() == word {
                return Some(number);
            }
        }
        None
    }

    /// The number of the longest spelling at the front of the bytes.
    pub(crate) fn longest(&self, rest: &[u8]) -> Option<usize>
        ensures found { IfSome result (λ number. IsLongest self.now rest.now number) }
        ensures missing { IfNone result (NoneStands self.now rest.now) }
    {
        let mut best = None;
        let mut most = 0;
        for (number, spelling) in self.spellings.iter().enumerate() {
            let text = spelling.bytes();
            if text.len() > most && begins(rest, text) {
                best = Some(number);
                most = text.len();
            }
        }
        best
    }
}

/// Whether the bytes begin with the text. Most texts differ in their first byte, which costs no call.
#[inline]
fn begins(bytes: &[u8], text: &[u8]) -> bool
    ensures { result ≡ starts_with nat_eq bytes.now text.now }
{
    if let [first, ..] = bytes {
        if let [wanted, ..] = text {
            if first != wanted {
                return false;
            }
        }
    }
    bytes.starts_with(text)
}
