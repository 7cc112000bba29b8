//! How the names of a model are written in function files.

ghost use Rattle.std.specs.Prelude.{◌≡◌, ◌++◌, IfOk, string_bytes};
ghost use Rattle.flame_lookup.specs.WrittenForms.{written};

use flame_rows::NoMemory;
use std::alloc::Global;

/// A way in which a word of a function file names something of the model.
#[derive(Clone, Copy)]
pub(crate) enum Form {
    /// The name as it is.
    Same,
    /// The name in ASCII capitals.
    Capitals,
    /// `get_x`
    Get,
    /// `set_x`
    Set,
    /// `add_m_message`
    AddMessage,
    /// `add_a_agent`
    AddAgent,
    /// `m_message`
    Row,
}

impl Form {
    /// The name, written in this way.
    pub(crate) fn written(self, alloc: Global, name: &str) -> Result<String, NoMemory>
        ensures { IfOk result (λ text. string_bytes text ≡ written self name.now) }
    {
        match self {
            Form::Same => Ok(String::from_str(alloc, name)?),
            Form::Capitals => Ok(name.to_ascii_uppercase(alloc)?),
            Form::Get => joined(alloc, "get_", name),
            Form::Set => joined(alloc, "set_", name),
            Form::AddMessage => framed(alloc, "add_", name, "_message"),
            Form::AddAgent => framed(alloc, "add_", name, "_agent"),
            Form::Row => joined(alloc, name, "_message"),
        }
    }
}

/// The two, one behind the other.
fn joined(alloc: Global, front: &str, back: &str) -> Result<String, NoMemory>
    ensures { IfOk result (λ text. string_bytes text ≡ front.now ++ back.now) }
{
    let mut text = String::from_str(alloc, front)?;
    text.push_str(back)?;
    Ok(text)
}

/// The name between the two.
fn framed(alloc: Global, front: &str, name: &str, back: &str) -> Result<String, NoMemory>
    ensures { IfOk result (λ text. string_bytes text ≡ front.now ++ (name.now ++ back.now)) }
{
    let tail = joined(alloc, name, back)?;
    joined(alloc, front, tail.as_str())
}
