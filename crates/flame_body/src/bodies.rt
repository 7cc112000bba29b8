//! Checked bodies.

ghost use Rattle.std.specs.Prelude.{◌≡◌, IsTrue};
ghost use Rattle.flame_body.specs.BodyFits.{tree_fits};

use crate::slots::SlotStmt;
use flame_rows::Seq;
use flame_spec::Widths;
use std::marker::Model;

/// The body of a function of the model, or of a helper, with numbers in place of its names. It fits the widths of the
/// rows that it sees: each column, constant, input, message and agent type that it names is within them; a message and
/// a birth have as many values as their rows are wide; a store has one value; arrays without an index are arguments of
/// messages and births alone; a variable of a message is read in a loop of its input; no loop stands in another of the
/// same input; `break` and `continue` stand in a loop.
#[derive(Drop)]
pub struct Body {
    function: u32,
    widths: Widths,
    tree: Seq<SlotStmt>,
}

impl Model for Body {
    ghost use Rattle.std.specs.Prelude.{IsTrue};
    ghost use Rattle.std.specs.Coded.{codes};
    ghost use Rattle.flame_body.specs.FunctionBodies.{NumberedBody};
    ghost use Rattle.flame_body.specs.BodyFits.{tree_fits};
    ghost use Rattle.flame_body.specs.contracts.slots.SlotStmt as e;

    ghost Value = { NumberedBody };

    ghost coded = { Prim.hlevel (codes, e.the_row.coded) };

    ghost view = { λ b. record { function = b.function; widths = b.widths; tree = b.tree } };

    ghost invariant = { λ b. IsTrue (tree_fits b.widths b.tree) };
}

impl Body {
    /// The body of the function, or of the helper, of this number; the tree fits the widths.
    pub fn of(function: u32, widths: Widths, tree: Seq<SlotStmt>) -> Body
        requires { IsTrue (tree_fits widths tree) }
        ensures { result ≡ record { function = function; widths = widths; tree = tree } }
    {
        Body {
            function,
            widths,
            tree,
        }
    }

    /// The number of its function among the functions of the model, or of its helper among the helpers.
    pub fn function(&self) -> u32
        ensures { result ≡ self.now.function }
    {
        self.function
    }

    /// The widths of the rows that it sees. A helper sees no memory, input, message or agent type.
    pub fn widths(&self) -> &Widths
        ensures { result.now ≡ self.now.widths }
    {
        &self.widths
    }

    /// Its statements, which fit the widths.
    pub fn tree(&self) -> &Seq<SlotStmt>
        ensures same { result.now ≡ self.now.tree }
        ensures fits { IsTrue (tree_fits self.now.widths self.now.tree) }
    {
        &self.tree
    }

    /// The widths of the rows that it sees, without its statements.
    pub fn into_widths(self) -> Widths
        ensures { result ≡ self.widths }
    {
        self.widths
    }
}
