//! Equalities that filters ask for.

ghost use Rattle.std.specs.Prelude.{◌≡◌};
ghost use Rattle.flame_cond.specs.Equalities.{equal_value, equality_between, equality_compared, first_equality, is_one_equality, is_remembered, reads_memory};
ghost use Rattle.flame_cond.specs.TestForms.{form_of};

use crate::forms::{Term, Test};
use crate::numbers::number_at;
use flame_ops::Op;
use flame_rows::Row;

/// What the number in a column is to be equal to.
#[derive(Clone, Copy, Debug, PartialEq, Eq)]
pub enum EqualTo {
    /// This number.
    Number(i32),
    /// The number in this column of the agent's memory.
    Memory(u32),
}

/// What a filter asks for in one column of a message's row.
#[derive(Clone, Copy, Debug, PartialEq, Eq)]
pub struct Equality {
    /// The column.
    pub column: u32,
    /// What its number is to be equal to.
    pub equal: EqualTo,
}

impl EqualTo {
    /// The number for an agent with this memory. A column that the memory lacks counts as 0.
    pub fn value(&self, memory: &Row) -> i32
        ensures { result ≡ equal_value self.now memory.now }
    {
        match self {
            EqualTo::Number(number) => *number,
            EqualTo::Memory(column) => number_at(memory.values(), *column),
        }
    }
}

/// The equality of these two, where it fixes a column.
fn between(a: Term, b: Term) -> Option<Equality>
    ensures { result ≡ equality_between a b }
{
    match (a, b) {
        (Term::Row(column), Term::Number(number)) | (Term::Number(number), Term::Row(column)) => {
            Some(Equality {
                column,
                equal: EqualTo::Number(number),
            })
        }
        (Term::Row(column), Term::Memory(place)) | (Term::Memory(place), Term::Row(column)) => {
            Some(Equality {
                column,
                equal: EqualTo::Memory(place),
            })
        }
        _ => None,
    }
}

fn compared(op: Op, a: Term, b: Term) -> Option<Equality>
    ensures { result ≡ equality_compared op a b }
{
    match op {
        Op::Eq => between(a, b),
        _ => None,
    }
}

fn is_remembered(term: Term) -> bool
    ensures { result ≡ is_remembered term }
{
    matches!(term, Term::Memory(_))
}

impl Test {
    /// The first equality that it reaches through AND alone, from the left.
    pub fn first_equality(&self) -> Option<Equality>
        ensures { result ≡ first_equality (form_of self.now) }
    {
        match self {
            Test::Compare(op, a, b) => compared(*op, *a, *b),
            Test::And(a, b) => {
                let left = a.first_equality();
                if left.is_some() {
                    return left;
                }
                b.first_equality()
            }
            _ => None,
        }
    }

    /// Whether it is one equality and nothing else.
    pub fn is_one_equality(&self) -> bool
        ensures { result ≡ is_one_equality (form_of self.now) }
    {
        match self {
            Test::Compare(op, a, b) => compared(*op, *a, *b).is_some(),
            _ => false,
        }
    }

    /// Whether a number of the memory stands in it.
    pub fn reads_memory(&self) -> bool
        ensures { result ≡ reads_memory (form_of self.now) }
    {
        match self {
            Test::Compare(_, a, b) => is_remembered(*a) || is_remembered(*b),
            Test::And(a, b) => a.reads_memory() || b.reads_memory(),
            Test::Or(a, b) => a.reads_memory() || b.reads_memory(),
            Test::Not(a) => a.reads_memory(),
            Test::Time(_, phase, _) => is_remembered(*phase),
        }
    }
}
