//! What is given for the whole of a run.

ghost use Rattle.std.specs.Prelude.{◌≡◌, ◌<◌, length};
ghost use Rattle.flame_spec.specs.Conditions.{number_at};

use flame_rows::Row;
use std::marker::Model;

/// The constants and the iteration's number.
#[derive(Drop)]
pub struct Given<'a> {
    constants: &'a [i32],
    iteration: i32,
}

impl<'a> Model for Given<'a> {
    ghost use Rattle.flame_code.specs.Machine.{Given as Whole};

    ghost Value = { Whole };

    ghost view = { λ g. record { constants = g.constants.now; iteration = g.iteration } };
}

impl<'a> Given<'a> {
    /// These constants and this iteration.
    pub fn of(constants: &'a Row, iteration: i32) -> Given<'a>
        ensures { result ≡ record { constants = constants.entry.now; iteration = iteration } }
    {
        Given {
            constants: constants.values(),
            iteration,
        }
    }

    /// The constant of this number.
    #[inline(always)]
    pub fn constant(&self, constant: u32) -> i32
        requires { constant < length self.now.constants }
        ensures { result ≡ number_at self.now.constants constant }
    {
        self.constants[constant as usize]
    }

    /// The iteration's number.
    #[inline(always)]
    pub fn iteration(&self) -> i32
        ensures { result ≡ self.now.iteration }
    {
        self.iteration
    }
}
