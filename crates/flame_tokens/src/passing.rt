//! Values that are passed over.

ghost use Rattle.std.specs.Prelude.{◌≡◌, ◌∷◌, suc, option_map, IfSome, OnSome};
ghost use Rattle.json.specs.Token.{begin_array, begin_object};
ghost use Rattle.flame_tokens.specs.PassedTrees.{key_or_end, HasPassed};

use crate::numbers::printed;
use json::{Reader, Token};

/// Passes the value that comes next, in which stand whole numbers of int, texts, lists and objects, nested no deeper than this.
#[cycle(pass)]
pub(crate) fn pass(reader: &mut Reader<'_>, deep: u32) -> Option<()>
    ensures { OnSome result (HasPassed deep reader.old reader.new) }
{
    match reader.next()? {
        Token::String(_) => Some(()),
        Token::Number(text) => {
            printed(text)?;
            Some(())
        }
        Token::BeginArray => if deep == 0 {
            None
        } else {
            pass_items(reader, deep - 1)
        },
        Token::BeginObject => if deep == 0 {
            None
        } else {
            pass_members(reader, deep - 1)
        },
        _ => None,
    }
}

/// Passes the list that has begun.
#[cycle(pass)]
fn pass_items(reader: &mut Reader<'_>, deep: u32) -> Option<()>
    ensures { OnSome result (HasPassed (suc deep) (begin_array ∷ reader.old) reader.new) }
{
    for _turn in 0..u64::MAX {
        if reader.take_end_array() {
            return Some(());
        }
        pass(reader, deep)?;
    }
    None
}

/// The key that comes next, or none where the object ends.
fn next_member<'a>(reader: &mut Reader<'a>) -> Option<Option<&'a str>>
    ensures { IfSome result (λ name.
        reader.old ≡ key_or_end (option_map (λ text. text.now) name) ∷ reader.new) }
{
    match reader.next()? {
        Token::EndObject => Some(None),
        Token::Key(name) => Some(Some(name)),
        _ => None,
    }
}

/// Passes the object that has begun.
#[cycle(pass)]
fn pass_members(reader: &mut Reader<'_>, deep: u32) -> Option<()>
    ensures { OnSome result (HasPassed (suc deep) (begin_object ∷ reader.old) reader.new) }
{
    for _turn in 0..u64::MAX {
        let Some(_) = next_member(reader)? else {
            return Some(());
        };
        pass(reader, deep)?;
    }
    None
}
