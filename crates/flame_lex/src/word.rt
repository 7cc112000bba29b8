//! Words.

ghost use Rattle.std.specs.Prelude.{◌≡◌, ℕ, true, List, IfOk, MatchOption};
ghost use Rattle.std.specs.List.{list_all};
ghost use Rattle.flame_ops.specs.Words.{keyword_spellings};
ghost use Rattle.flame_ops.specs.Ascii.{is_word_byte};
ghost use Rattle.flame_lex.specs.SourceWords.{IsLoopWord, IsWordKind};

use crate::token::Kind;
use flame_ops::Table;
use flame_rows::{NoMemory, Text};
use std::alloc::Global;

/// What the word is.
pub(crate) fn word_kind(alloc: Global, keywords: &Table<10>, word: &[u8]) -> Result<Kind, NoMemory>
    requires table { keywords.now ≡ keyword_spellings }
    requires word { list_all is_word_byte word.now ≡ true }
    ensures { IfOk result (λ kind. IsWordKind kind word.now) }
{
    if let Some(number) = keywords.number_of(word) {
        return Ok(Kind::Key(number as u32));
    }
    if let Some(name) = loop_name(b"START_", word) {
        return Ok(Kind::Start(text_of(alloc, name)?));
    }
    if let Some(name) = loop_name(b"FINISH_", word) {
        return Ok(Kind::Finish(text_of(alloc, name)?));
    }
    Ok(Kind::Word(text_of(alloc, word)?))
}

/// The name between the opening and `_MESSAGE_LOOP`, none where the word is not made so or the name is empty.
fn loop_name<'a>(opening: &[u8], word: &'a [u8]) -> Option<&'a [u8]>
    ensures { MatchOption result
        ((name : List ℕ) → ¬ IsLoopWord opening.now name word.now)
        (λ name. IsLoopWord opening.now name.now word.now) }
{
    let behind = word.strip_prefix(opening)?;
    let name = behind.strip_suffix(b"_MESSAGE_LOOP")?;
    if name.is_empty() { None } else { Some(name) }
}

/// The letters, digits and `_` as a text.
fn text_of(alloc: Global, word: &[u8]) -> Result<Text, NoMemory>
    requires { list_all is_word_byte word.now ≡ true }
    ensures { IfOk result (λ text. text ≡ word.now) }
{
    match str::from_utf8(word) {
        Ok(text) => Text::of(alloc, text),
        Err(_) => unreachable!(),
    }
}
