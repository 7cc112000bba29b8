//! The messages that a function reads.

ghost use Rattle.std.specs.Prelude.{◌≡◌, ◌<◌, List, length, IsSome, Some};
ghost use Rattle.flame_code.specs.Feeds.{Fed, at_start, has_next, at_next, field};

/// The rows of each input of a function, in order, and how many of them have come (libmboard's iterators).
pub trait Feed {
    ghost feeds: { Self → List Fed };

    /// Goes before the first row of the input.
    fn begin(&mut self, input: u32)
        requires { input < length (feeds self.old) }
        ensures { feeds self.new ≡ at_start input (feeds self.old) };

    /// Goes to the next row of the input, and says whether there is one. Where there is none, as many have come as
    /// before.
    fn advance(&mut self, input: u32) -> bool
        requires { input < length (feeds self.old) }
        ensures there { result ≡ has_next input (feeds self.old) }
        ensures moved { feeds self.new ≡ at_next input (feeds self.old) };

    /// The number in a column of the row that came last. There is such a row, and it has that column.
    fn value(&self, input: u32, variable: u32) -> i32
        requires { IsSome (field input variable (feeds self.now)) }
        ensures { field input variable (feeds self.now) ≡ Some result };
}
