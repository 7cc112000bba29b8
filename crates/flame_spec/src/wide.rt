//! Model files as they stand: with variables of data types, and with the names of further model files.

use crate::models::{Function, TimeUnit};
use flame_rows::{Seq, Text};

/// What one model file says. It means the model that is got by joining it with the files that it names, where a message,
/// a data type or a function file of a name that an earlier file gave is passed over, and by putting the fields of a data
/// type in the place of each variable of it.
#[derive(Drop)]
pub struct Wide {
    /// The names of the constants.
    pub constants: Seq<Text>,
    /// The names of the function files.
    pub files: Seq<Text>,
    /// The time units.
    pub units: Seq<TimeUnit>,
    /// The data types.
    pub types: Seq<DataType>,
    /// The message types.
    pub messages: Seq<WideMessage>,
    /// The agent types.
    pub agents: Seq<WideAgent>,
    /// The names of the model files that it takes in, without those that are not enabled.
    pub nested: Seq<Text>,
}

/// A variable of `int` or of a data type, or an array.
#[derive(Drop)]
pub struct WideVariable {
    /// Its name.
    pub name: Text,
    /// `int`, or the name of a data type.
    pub kind: Text,
    /// The length of an array, 1 to 1000; `None` is a single variable.
    pub length: Option<u32>,
}

/// A data type: variables that stand together.
#[derive(Drop)]
pub struct DataType {
    /// Its name.
    pub name: Text,
    /// Its variables.
    pub variables: Seq<WideVariable>,
}

/// A message type.
#[derive(Drop)]
pub struct WideMessage {
    /// Its name.
    pub name: Text,
    /// Its variables.
    pub variables: Seq<WideVariable>,
}

/// An agent type.
#[derive(Drop)]
pub struct WideAgent {
    /// Its name.
    pub name: Text,
    /// The variables of its agents' memory.
    pub memory: Seq<WideVariable>,
    /// Its transition functions. In conditions, filters and sorts they name the variables that are got so.
    pub functions: Seq<Function>,
}
