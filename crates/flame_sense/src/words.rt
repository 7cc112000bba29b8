//! How the names of a model are written in function files.

ghost use Rattle.std.specs.Prelude.{◌≡◌, option_map};
ghost use Rattle.flame_ops.specs.Ascii.{capitals};
ghost use Rattle.flame_sense.specs.StandsFor.{is_written, within_reach, span_of, is_joined};
ghost use Rattle.flame_spec.specs.Columns.{column, columned_where};
ghost use Rattle.std.specs.Str.{bytes_eq};

use flame_spec::Variable;

/// A way in which a word of a function file names something of the model.
#[derive(Clone, Copy)]
pub(crate) enum Form {
    /// The name as it is.
    Same,
    /// The name in ASCII capitals.
    Capitals,
    /// `get_x`
    Get,
    /// `set_x`
    Set,
    /// `add_m_message`
    AddMessage,
    /// `add_a_agent`
    AddAgent,
    /// `m_message`
    Row,
}

/// Where a variable's numbers stand in a row.
#[derive(Clone, Copy)]
pub(crate) struct Span {
    /// The column of the first.
    pub(crate) column: usize,
    /// How many they are, where it is an array.
    pub(crate) length: Option<u32>,
}

impl Form {
    /// Whether the word is the name, written in this way.
    pub(crate) fn is_written(self, word: &str, name: &str) -> bool
        ensures { result ≡ is_written self word.now name.now }
    {
        match self {
            Form::Same => name == word,
            Form::Capitals => is_capitals(word, name),
            Form::Get => is_joined("get_", "", word, name),
            Form::Set => is_joined("set_", "", word, name),
            Form::AddMessage => is_joined("add_", "_message", word, name),
            Form::AddAgent => is_joined("add_", "_agent", word, name),
            Form::Row => is_joined("", "_message", word, name),
        }
    }
}

/// Whether the word is the name in ASCII capitals.
fn is_capitals(word: &str, name: &str) -> bool
    ensures { result ≡ bytes_eq (capitals name.now) word.now }
{
    let word = word.as_bytes();
    let name = name.as_bytes();
    if name.len() != word.len() {
        return false;
    }
    for (i, letter) in name.iter().enumerate() {
        if letter.to_ascii_uppercase() != word[i] {
            return false;
        }
    }
    true
}

/// Whether the word is the name between these two.
fn is_joined(before: &str, behind: &str, word: &str, name: &str) -> bool
    ensures { result ≡ is_joined before.now behind.now word.now name.now }
{
    match word.as_bytes().strip_prefix(before.as_bytes()) {
        None => false,
        Some(rest) => match rest.strip_prefix(name.as_bytes()) {
            None => false,
            Some(rest) => rest == behind.as_bytes(),
        },
    }
}

/// Where the first variable stands that the word names in this way, as far as places can be counted.
pub(crate) fn span_where(form: Form, word: &str, variables: &[Variable]) -> Option<Span>
    ensures { result
        ≡ option_map span_of (columned_where (λ variable. is_written form word.now variable.name) variables.now) }
{
    let mut column = 0usize;
    for variable in variables {
        if form.is_written(word, variable.name.as_str()) {
            let length = variable.length;
            return Some(Span { column, length });
        }
        column = column.saturating_add(variable.width() as usize);
    }
    None
}

/// The column of the variable of this name, and without one the width of all, as far as places can be counted.
pub(crate) fn column_of(name: &str, variables: &[Variable]) -> usize
    ensures { result ≡ within_reach (column name.now variables.now) }
{
    let mut at = 0usize;
    for variable in variables {
        if variable.name.as_str() == name {
            return at;
        }
        at = at.saturating_add(variable.width() as usize);
    }
    at
}
