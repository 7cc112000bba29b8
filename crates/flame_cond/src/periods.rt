//! Lengths of time units.

ghost use Rattle.std.specs.Prelude.{◌≤ℤ◌, pos};

/// The length of a time unit.
#[derive(Clone, Copy)]
pub struct Period {
    /// Its iterations, at least 1.
    pub length: i32,
    ghost positive: { pos 1 ≤ℤ length },
}
