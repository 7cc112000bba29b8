//! Why words give no order.

ghost use Rattle.std.specs.Prelude.{◌≡◌, option_map};
ghost use Rattle.flame_words.specs.UsageTexts.{fault_name, word_number, missing_word};

use flame_rows::Text;

/// A fault of usage. A number is that of a word, from 1; word 1 is the command.
#[derive(Debug, Drop)]
pub enum Usage {
    /// There are no words.
    NoCommand,
    /// This word, the first, is no command.
    UnknownCommand(u32),
    /// The words end before this: the spelling of an option that has no value, or the name of a positional word.
    Missing(Text),
    /// This positional word is one too many.
    Extra(u32),
    /// This word has to be a number, one or more digits, and is none.
    BadNumber(u32),
    /// This number is outside its limits.
    OutOfRange(u32),
    /// This option was given before.
    Repeated(u32),
    /// This word begins with `--` and is no option of the command.
    UnknownOption(u32),
    /// This word is none of those that its option takes.
    BadChoice(u32),
}

impl Usage {
    /// The kind's name, as it is printed.
    pub fn name(&self) -> &'static str
        ensures { result.now ≡ fault_name self.now }
    {
        match self {
            Usage::NoCommand => "NoCommand",
            Usage::UnknownCommand(_) => "UnknownCommand",
            Usage::Missing(_) => "Missing",
            Usage::Extra(_) => "Extra",
            Usage::BadNumber(_) => "BadNumber",
            Usage::OutOfRange(_) => "OutOfRange",
            Usage::Repeated(_) => "Repeated",
            Usage::UnknownOption(_) => "UnknownOption",
            Usage::BadChoice(_) => "BadChoice",
        }
    }

    /// The number of the word at fault, from 1. None for `NoCommand` and `Missing`, which are no word's.
    pub fn word(&self) -> Option<u32>
        ensures { result ≡ word_number self.now }
    {
        match self {
            Usage::NoCommand | Usage::Missing(_) => None,
            Usage::UnknownCommand(number)
            | Usage::Extra(number)
            | Usage::BadNumber(number)
            | Usage::OutOfRange(number)
            | Usage::Repeated(number)
            | Usage::UnknownOption(number)
            | Usage::BadChoice(number) => Some(*number),
        }
    }

    /// What is missing: the spelling of an option that has no value, or the name of a positional word. Some for
    /// `Missing` alone.
    pub fn missing(&self) -> Option<&str>
        ensures { option_map (λ name. name.now) result ≡ missing_word self.now }
    {
        match self {
            Usage::Missing(name) => Some(name.as_str()),
            _ => None,
        }
    }
}
