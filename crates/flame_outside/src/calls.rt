//! Calls that are made to fail by their number.

ghost use Rattle.std.specs.Prelude.{◌≡◌, ◌≤◌};
ghost use Rattle.flame_outside.specs.Calls.{counted_on, fails_next, last_number};

use std::marker::Model;

/// The calls so far, counted from 0 up to the last number of 64 bits, and the numbers of those that fail.
#[derive(Drop)]
pub struct NumberedCalls {
    failing: Vec<u64>,
    counted: u64,
}

impl Model for NumberedCalls {
    ghost use Rattle.flame_outside.specs.Calls.{Calls};

    ghost Value = { Calls };

    ghost view = { λ a. record { failing = a.failing.items; counted = a.counted } };
}

impl NumberedCalls {
    /// No call so far.
    pub fn new(failing: Vec<u64>) -> NumberedCalls
        ensures { result ≡ record { failing = failing.items; counted = 0 } }
    {
        NumberedCalls {
            failing,
            counted: 0,
        }
    }

    /// Whether the next call fails.
    pub fn fails_next(&self) -> bool
        ensures { result ≡ fails_next self.now }
    {
        self.counted < u64::MAX && self.failing.contains(&self.counted)
    }

    /// Counts one more call.
    pub fn count(&mut self)
        ensures { self.new ≡ counted_on self.old }
    {
        if self.counted < u64::MAX {
            self.counted += 1;
        }
    }
}
