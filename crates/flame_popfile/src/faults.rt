//! Faults of populations.

ghost use Rattle.std.specs.Prelude.{◌≡◌};
ghost use Rattle.flame_popfile.specs.PopulationKinds.{name_of_pop_kind};

use flame_rows::Text;

/// A place of a population's value where something is wrong.
#[derive(Debug, Drop)]
pub struct PopFault {
    /// What is wrong there.
    pub kind: PopKind,
    /// The keys and list numbers from the root, each after a `/`; the root has the empty path.
    pub path: Text,
}

/// What is wrong at a place of a population's value.
#[derive(Clone, Copy, Debug, PartialEq, Eq)]
pub enum PopKind {
    /// Something else is wanted.
    Shape,
    /// No agent type has this name.
    UnknownAgent,
    /// No variable of the agent's memory has this name.
    UnknownVariable,
    /// The number is out of the range of int, or is no number of an iteration.
    OutOfInt,
    /// No constant has this name.
    UnknownConstant,
    /// An iteration would have a number above 2147483647.
    IterationLimit,
    /// An earlier member of the agents names the same type.
    Duplicate,
}

impl PopKind {
    /// The kind's name, as it is printed.
    pub fn name(&self) -> &'static str
        ensures { result.now ≡ name_of_pop_kind self.now }
    {
        match self {
            PopKind::Shape => "Shape",
            PopKind::UnknownAgent => "UnknownAgent",
            PopKind::UnknownVariable => "UnknownVariable",
            PopKind::OutOfInt => "OutOfInt",
            PopKind::UnknownConstant => "UnknownConstant",
            PopKind::IterationLimit => "IterationLimit",
            PopKind::Duplicate => "Duplicate",
        }
    }
}
