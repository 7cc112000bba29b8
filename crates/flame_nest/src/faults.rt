//! Why model files have no flat model.

ghost use Rattle.std.specs.Prelude.{◌≡◌};
ghost use Rattle.flame_nest.specs.NestKindNames.{name_of_nest_kind};

use flame_rows::Text;

/// What is wrong in model files with data types and nested files.
#[derive(Debug, Drop)]
pub struct NestFault {
    /// What is wrong.
    pub kind: NestKind,
    /// The name of the model file in which it stands.
    pub file: Text,
    /// The name of the message, of the data type or of the variable, as it is declared.
    pub name: Text,
}

/// What is wrong with a message, a data type or a variable.
#[derive(Clone, Copy, Debug)]
pub enum NestKind {
    /// A message or data type of an earlier file has this name and other variables.
    Differs,
    /// An earlier data type of the file has this name, or the name is `int`.
    TwiceType,
    /// The variable is neither of `int` nor of a data type that stands before it.
    UnknownType,
    /// The variable is of a data type and has a length.
    TypedArray,
    /// Flat, the data type or the variable of a data type has more than 4,096 columns.
    TooWide,
    /// Flat, the variable has a name of more than 100 bytes.
    LongName,
}

impl NestKind {
    /// The kind's name, as it is printed.
    pub fn name(&self) -> &'static str
        ensures { result.now ≡ name_of_nest_kind self.now }
    {
        match self {
            NestKind::Differs => "Differs",
            NestKind::TwiceType => "TwiceType",
            NestKind::UnknownType => "UnknownType",
            NestKind::TypedArray => "TypedArray",
            NestKind::TooWide => "TooWide",
            NestKind::LongName => "LongName",
        }
    }
}
