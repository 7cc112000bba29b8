//! Forms of conditions by columns.

ghost use Rattle.std.specs.Prelude.{◌≡◌, ℤ, pos, ◌+ℤ◌, ◌≤ℤ◌, ◌&&◌, int_le, int_lt};
ghost use Rattle.std.specs.Int.{int_rem_euclid};
ghost use Rattle.flame_spec.specs.Conditions.{compares, in_time};
ghost use Rattle.flame_cond.specs.Tests.{moment, term_value, answer};

use crate::numbers::number_at;
use crate::periods::Period;
use flame_ops::Op;
use flame_rows::Boxed;

/// What a test compares.
#[derive(Clone, Copy)]
pub enum Term {
    /// A number.
    Number(i32),
    /// The number in this column of the agent's memory.
    Memory(u32),
    /// The number in this column of the message's row.
    Row(u32),
}

/// A condition with columns for names and lengths for units.
#[derive(Drop)]
pub enum Test {
    /// A comparison.
    Compare(Op, Term, Term),
    /// Both hold.
    And(Boxed<Test>, Boxed<Test>),
    /// One of the two holds, or both.
    Or(Boxed<Test>, Boxed<Test>),
    /// The other does not hold.
    Not(Boxed<Test>),
    /// A time condition: the length of its unit, the phase, and the duration.
    Time(Period, Term, i32),
}

fn value(term: Term, memory: &[i32], row: &[i32]) -> i32
    ensures { (iteration : ℤ) → result ≡ term_value term (moment memory.now row.now iteration) }
{
    match term {
        Term::Number(number) => number,
        Term::Memory(column) => number_at(memory, column),
        Term::Row(column) => number_at(row, column),
    }
}

#[inline(always)]
pub fn compare(op: Op, a: i32, b: i32) -> bool
    ensures { result ≡ compares op a b }
{
    match op {
        Op::Lt => a < b,
        Op::Gt => a > b,
        Op::Le => a <= b,
        Op::Ge => a >= b,
        Op::Eq => a == b,
        Op::Ne => a != b,
        _ => false,
    }
}

/// The place of the iteration in the period.
fn place_in(period: Period, iteration: i32) -> i64
    ensures value { result ≡ int_rem_euclid iteration period.length }
    ensures low { pos 0 ≤ℤ result }
    ensures high { result ≤ℤ pos 2147483647 }
{
    i64::from(iteration).rem_euclid(i64::from(period.length))
}

/// Whether the place lies in the part of the period that begins with the phase. The sum has 64 bits.
fn lies(place: i64, phase: i32, duration: i32) -> bool
    ensures { result ≡ (int_le phase place && int_lt place (phase +ℤ duration)) }
{
    let start = i64::from(phase);
    let end = start + i64::from(duration);
    start <= place && place < end
}

fn in_period(period: Period, phase: i32, duration: i32, iteration: i32) -> bool
    ensures { result ≡ in_time period.length phase duration iteration }
{
    lies(place_in(period, iteration), phase, duration)
}

impl Test {
    /// Whether the test holds of an agent's memory and a message's row in the iteration.
    pub fn answer(&self, memory: &[i32], row: &[i32], iteration: i32) -> bool
        ensures { result ≡ answer self.now (moment memory.now row.now iteration) }
    {
        match self {
            Test::Compare(op, a, b) => compare(*op, value(*a, memory, row), value(*b, memory, row)),
            Test::And(a, b) => a.answer(memory, row, iteration) && b.answer(memory, row, iteration),
            Test::Or(a, b) => a.answer(memory, row, iteration) || b.answer(memory, row, iteration),
            Test::Not(a) => !a.answer(memory, row, iteration),
            Test::Time(period, phase, duration) => in_period(
                *period,
                value(*phase, memory, row),
                *duration,
                iteration,
            ),
        }
    }
}
