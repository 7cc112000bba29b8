//! Faults of transition functions, of names in models, and of the bodies in function files.

ghost use Rattle.std.specs.Prelude.{◌≡◌};
ghost use Rattle.flame_spec.specs.KindNames.{name_of_kind, name_of_check_kind};

use flame_ops::Cause;
use flame_rows::Text;

/// Why an agent's run of its function has no outcome.
#[derive(Clone, Copy, Debug, PartialEq, Eq)]
pub struct Fault {
    /// Why the operator, or the function, has no value.
    pub cause: Cause,
    /// The line from 1: of the operator, of the `[`, or of the loop or the call that lacks fuel.
    pub line: u32,
}

/// A name of a model that cannot stand where it stands.
#[derive(Debug, Drop)]
pub struct NameFault {
    /// What is wrong.
    pub kind: NameKind,
    /// Where the fault stands in the model file: the keys and list numbers from the root, each after a `/`. Of a model
    /// that was joined from several files, or that had data types, the numbers are those of the model's own lists.
    pub path: Text,
    /// The name as it stands there, with `a.` or `m.` in a condition; of `RandomOrder` the message's, of `LongUnit` the
    /// unit's, of `TooWide` the variable's.
    pub name: Text,
}

/// What is wrong with a name of a model.
#[derive(Clone, Copy, Debug, PartialEq, Eq)]
pub enum NameKind {
    /// An earlier one of its kind has this name; of a unit also `iteration`, of a function one with the same states
    /// too, of an input or an output one of the same message.
    Duplicate,
    /// In capitals, as function files write it, it is equal to an earlier name: a constant's, a message's or a memory
    /// variable's among its like, or of a memory variable a constant's.
    Clash,
    /// No message has this name.
    UnknownMessage,
    /// No variable that can be read there has this name.
    UnknownVariable,
    /// It is neither `iteration` nor a time unit that is known there.
    UnknownUnit,
    /// A function of an earlier agent type has this name.
    FunctionShared,
    /// A random order of messages is asked for.
    RandomOrder,
    /// The unit is longer than 2147483647 iterations.
    LongUnit,
    /// It is an array, and a single variable is wanted.
    NotSingle,
    /// With this array the variables before it and it are wider than 4,096 numbers.
    TooWide,
}

impl NameKind {
    /// The kind's name, as it is printed.
    pub fn name(&self) -> &'static str
        ensures { result.now ≡ name_of_kind self.now }
    {
        match self {
            NameKind::Duplicate => "Duplicate",
            NameKind::Clash => "Clash",
            NameKind::UnknownMessage => "UnknownMessage",
            NameKind::UnknownVariable => "UnknownVariable",
            NameKind::UnknownUnit => "UnknownUnit",
            NameKind::FunctionShared => "FunctionShared",
            NameKind::RandomOrder => "RandomOrder",
            NameKind::LongUnit => "LongUnit",
            NameKind::NotSingle => "NotSingle",
            NameKind::TooWide => "TooWide",
        }
    }
}

/// A place of the function files that cannot stand in a function of the model.
#[derive(Debug, Drop)]
pub struct CheckFault {
    /// What is wrong.
    pub kind: CheckKind,
    /// The number of the function file among the model's files; 0 for `MissingFunction`.
    pub file: u32,
    /// The line of the word, from 1. Of `DefinedTwice`, `HasParameters`, `Recursive`, `DeepCalls` and a parameter that is
    /// `Redeclared` it is that of `int`, of the variable in `word->variable` that of the word; of `MissingFunction` it is 0.
    pub line: u32,
    /// The word; of `Recursive` the names of the cycle, as `a -> b -> a`.
    pub name: Text,
}

/// What is wrong with a function file.
#[derive(Clone, Copy, Debug, PartialEq, Eq)]
pub enum CheckKind {
    /// No function file has this function of the model.
    MissingFunction,
    /// An earlier function has this name.
    DefinedTwice,
    /// Nothing that is visible there has this name.
    UnknownName,
    /// Its scope declares it already, or it is `iteration_loop` or, in capitals, a constant or a memory variable that the
    /// function has.
    Redeclared,
    /// The word can do nothing there: it has no form of a call that may stand there, and names no helper.
    UnknownCall,
    /// The call has another number of arguments than it wants: one to set a variable, one for each declared variable of
    /// a message or an agent, one for each parameter of a helper.
    WrongCount,
    /// The function does not output this message.
    NotOutput,
    /// The function does not input this message.
    NotInput,
    /// No loop over this message is open.
    OutsideLoop,
    /// A loop over this message is open already.
    NestedSame,
    /// FINISH has another name than START.
    LoopMismatch,
    /// No loop is open.
    StrayBreak,
    /// It is a constant or `iteration_loop`.
    ReadOnly,
    /// It has an index and is no array.
    NotArray,
    /// It is an array and has no index.
    NeedsIndex,
    /// The argument for an array does not name an array of its length. The fault stands at the word of the call.
    WrongLength,
    /// A C function for a function of the model has parameters.
    HasParameters,
    /// Calls of helpers go in a cycle.
    Recursive,
    /// The helper's calls of helpers are more than 64 levels deep, its own counted.
    DeepCalls,
}

impl CheckKind {
    /// The kind's name, as it is printed.
    pub fn name(&self) -> &'static str
        ensures { result.now ≡ name_of_check_kind self.now }
    {
        match self {
            CheckKind::MissingFunction => "MissingFunction",
            CheckKind::DefinedTwice => "DefinedTwice",
            CheckKind::UnknownName => "UnknownName",
            CheckKind::Redeclared => "Redeclared",
            CheckKind::UnknownCall => "UnknownCall",
            CheckKind::WrongCount => "WrongCount",
            CheckKind::NotOutput => "NotOutput",
            CheckKind::NotInput => "NotInput",
            CheckKind::OutsideLoop => "OutsideLoop",
            CheckKind::NestedSame => "NestedSame",
            CheckKind::LoopMismatch => "LoopMismatch",
            CheckKind::StrayBreak => "StrayBreak",
            CheckKind::ReadOnly => "ReadOnly",
            CheckKind::NotArray => "NotArray",
            CheckKind::NeedsIndex => "NeedsIndex",
            CheckKind::WrongLength => "WrongLength",
            CheckKind::HasParameters => "HasParameters",
            CheckKind::Recursive => "Recursive",
            CheckKind::DeepCalls => "DeepCalls",
        }
    }
}
