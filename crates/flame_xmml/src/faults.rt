//! Faults of the shape of a model's value.

ghost use Rattle.std.specs.Prelude.{◌≡◌};
ghost use Rattle.flame_xmml.specs.WantNames.{name_of_want};

use flame_rows::Text;

/// A place of a model's value where something else was wanted.
#[derive(Debug, Drop)]
pub struct Shape {
    /// The keys and list numbers from the root, each after a `/`; the root has the empty path.
    pub path: Text,
    /// What was wanted there.
    pub want: Want,
}

/// What is wanted at a place of a model's value.
#[derive(Clone, Copy, Debug)]
pub enum Want {
    /// An object.
    Object,
    /// A list.
    List,
    /// An empty list.
    Empty,
    /// A text of 1 to 100 bytes, an ASCII letter or `_` first, then ASCII letters, digits and `_`.
    Name,
    /// A text of at least one byte.
    State,
    /// A text of at least one byte.
    FileName,
    /// The text `int`.
    Int,
    /// A whole number from 1 to 2147483647.
    Positive,
    /// true, false, or the text `true` or `false`.
    Truth,
    /// The text `ascend` or `descend`.
    Order,
    /// An object that is a condition; in a filter, one without `time`.
    Condition,
    /// One of the texts EQ, NEQ, LT, GT, LEQ, GEQ, AND and OR.
    Op,
    /// A whole number in the range of int, or `a.` or `m.` and a name.
    Operand,
    /// A whole number in the range of int, or `a.` and a name.
    Phase,
    /// A whole number from 1 to 1000.
    Length,
}

impl Want {
    /// The want's name, as it is printed.
    pub fn name(&self) -> &'static str
        ensures { result.now ≡ name_of_want self.now }
    {
        match self {
            Want::Object => "Object",
            Want::List => "List",
            Want::Empty => "Empty",
            Want::Name => "Name",
            Want::State => "State",
            Want::FileName => "FileName",
            Want::Int => "Int",
            Want::Positive => "Positive",
            Want::Truth => "Truth",
            Want::Order => "Order",
            Want::Condition => "Condition",
            Want::Op => "Op",
            Want::Operand => "Operand",
            Want::Phase => "Phase",
            Want::Length => "Length",
        }
    }
}
