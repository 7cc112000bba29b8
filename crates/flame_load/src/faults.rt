//! Why no program is loaded.

use flame_depend::DependFault;
use flame_expr::ParseFault;
use flame_lex::LexFault;
use flame_nest::NestFault;
use flame_rows::{NoMemory, Text};
use flame_spec::{CheckFault, Model, NameFault};
use flame_xmml::Shape;
use std::alloc::AllocFailed;

/// Why a file is not read as it is wanted.
#[derive(Clone, Copy, Debug, PartialEq, Eq)]
pub enum FileFault {
    /// No file has that name.
    Missing,
    /// The file has more bytes than it may have.
    TooLarge,
    /// serde_json does not read the file.
    NotJson,
}

/// Why a text is no function file.
#[derive(Clone, Copy, Debug, PartialEq, Eq)]
pub enum TextFault {
    /// It cannot be cut into lexemes.
    Lex(LexFault),
    /// Its tokens are no function definitions. The line is that of the token that the fault names; at the end of the
    /// tokens that of the last one, or 1 where there is none.
    Parse(u32, ParseFault),
}

/// Why files are refused: the first fault in the order in which they are read.
#[derive(Debug, Drop)]
pub enum LoadFault {
    /// No file has this name.
    Missing(Text),
    /// The file of this name has more than 4,194,304 bytes.
    TooLarge(Text),
    /// serde_json does not read the model file of this name.
    NotJson(Text),
    /// In the value of the model file of this name something else is wanted.
    Shape(Text, Shape),
    /// The names of the flat model have a fault. The numbers in its path are those of the lists of that model; the file to
    /// name is the root.
    Name(NameFault),
    /// The function file of this name cannot be cut into lexemes.
    Lex(Text, LexFault),
    /// The tokens of the function file of this name are no function definitions. The line is that of the token that the
    /// fault names; at the end of the tokens that of the last one, or 1 where there is none.
    Parse(Text, u32, ParseFault),
    /// The function files have a fault.
    Check(CheckFault),
    /// The functions have no order, or a type has many start states.
    Depend(DependFault),
    /// The data types or nested files have a fault, which names its file.
    Nest(NestFault),
    /// The model file of this name would be the 65th.
    TooMany(Text),
}

/// Why no program is loaded.
#[derive(Drop)]
pub enum LoadFail {
    /// The function files have a fault, the functions have no order, or a type has many start states. This is the flat
    /// model, of whose parts the fault has the numbers.
    RefusedModel(LoadFault, Model),
    /// The files have another fault.
    Refused(LoadFault),
    /// The input of this name, before which none is refused, could not be read. The count of failed reads rose.
    ReadFault(Text),
    /// Memory was not found, or 32 bits cannot number the parts of the model.
    NoMemory,
}

impl From<NoMemory> for LoadFail {
    ghost use Rattle.std.specs.Prelude.{◌≡◌};
    ghost use Rattle.flame_load.specs.declared.faults.LoadFail.TheVariants.{NoMemory as OutOfMemory};

    ghost from_gives = { λ _ fail. fail ≡ OutOfMemory };

    fn from(_cause: NoMemory) -> LoadFail {
        LoadFail::NoMemory
    }
}

impl<T: Drop> From<AllocFailed<T>> for LoadFail {
    ghost use Rattle.std.specs.Prelude.{◌≡◌};
    ghost use Rattle.flame_load.specs.declared.faults.LoadFail.TheVariants.{NoMemory as OutOfMemory};

    ghost from_gives = { λ _ fail. fail ≡ OutOfMemory };

    fn from(_cause: AllocFailed<T>) -> LoadFail {
        LoadFail::NoMemory
    }
}
