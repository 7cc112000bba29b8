//! Places in a model file.

ghost use Rattle.std.specs.Prelude.{◌≡◌, ◌++◌, IfOk, OnOk, codes, decimal, string_bytes};
ghost use Rattle.flame_names.specs.PlacePaths.{text_of};

use flame_rows::{NoMemory, Text};
use std::alloc::Global;
use std::fmt::Write;

/// A place in a model file, by its last step and the place before it. It gets no text until a fault wants one.
#[derive(Clone, Copy)]
pub enum Place<'a> {
    /// The whole file.
    Root,
    /// What an object has at a key.
    Key(&'a Place<'a>, &'static str),
    /// A member of a list, numbered from 0.
    Member(&'a Place<'a>, usize),
}

impl<'a> Place<'a> {
    /// The path: the keys and numbers from the root, each after a `/`.
    pub fn text(&self, alloc: Global) -> Result<Text, NoMemory>
        ensures { IfOk result (λ text. text ≡ text_of self.now) }
    {
        let mut text = String::new(alloc);
        self.write(&mut text)?;
        Ok(Text::from(text))
    }

    /// Adds the path to the text.
    fn write(&self, text: &mut String) -> Result<(), NoMemory>
        ensures { OnOk result (string_bytes text.new ≡ string_bytes text.old ++ text_of self.now) }
    {
        match self {
            Place::Root => Ok(()),
            Place::Key(before, key) => {
                before.write(text)?;
                write_key(text, key)
            }
            Place::Member(before, number) => {
                before.write(text)?;
                write_number(text, *number)
            }
        }
    }
}

/// Adds a key, after a `/`, to the text.
fn write_key(text: &mut String, key: &str) -> Result<(), NoMemory>
    ensures { OnOk result (string_bytes text.new ≡ string_bytes text.old ++ (codes "/" ++ key.now)) }
{
    text.push_str("/")?;
    text.push_str(key)?;
    Ok(())
}

/// Adds a number, after a `/`, to the text.
fn write_number(text: &mut String, number: usize) -> Result<(), NoMemory>
    ensures { OnOk result (string_bytes text.new ≡ string_bytes text.old ++ (codes "/" ++ decimal number)) }
{
    write!(text, "/{number}")?;
    Ok(())
}
