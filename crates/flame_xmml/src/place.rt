//! Places in a value.

ghost use Rattle.std.specs.Prelude.{◌≡◌, ◌++◌, string_bytes, IfOk, IfErr};
ghost use Rattle.flame_xmml.specs.ValuePlaces.{path_of};

use flame_rows::{NoMemory, Text};
use std::alloc::Global;

/// A place, by the way from the root: it holds what the path needs, and no path.
#[derive(Clone, Copy)]
pub enum Place<'a> {
    /// The root.
    Root,
    /// What stands at a key of the object at a place.
    Key(&'a Place<'a>, &'a str),
    /// A member of the list at a place, by its number from 0.
    Member(&'a Place<'a>, usize),
}

/// The path of the place: its keys and numbers from the root, each after a `/`. The error is want of memory.
pub fn path(alloc: Global, place: &Place<'_>) -> Result<Text, NoMemory>
    ensures { IfOk result (λ path. path ≡ path_of place.now) }
{
    let mut path = String::new(alloc);
    write_path(place, &mut path)?;
    Ok(Text::from(path))
}

/// Adds the path of the place.
fn write_path(place: &Place<'_>, path: &mut String) -> Result<(), NoMemory>
    ensures { IfOk result (λ _. string_bytes path.new ≡ string_bytes path.old ++ path_of place.now) }
{
    match place {
        Place::Root => Ok(()),
        Place::Key(parent, key) => {
            write_path(parent, path)?;
            write!(path, "/{key}")?;
            Ok(())
        }
        Place::Member(parent, number) => {
            write_path(parent, path)?;
            write!(path, "/{number}")?;
            Ok(())
        }
    }
}
