//! Filters as tests of a row alone, for an agent with a memory that is given.

ghost use Rattle.std.specs.Prelude.{◌≡◌};
ghost use Rattle.flame_cond.specs.TestForms.{form_of};
ghost use Rattle.flame_cond.specs.RowTests.{column_passes, row_passes};
ghost use Rattle.flame_cond.specs.ColumnTests.{turned, column_test, first_column_test, only_column_test};

use crate::filters::Filter;
use crate::forms::{Term, Test, compare};
use crate::numbers::number_at;
use flame_ops::Op;
use flame_rows::Row;

/// A comparison of the number in a column of a row, on the left, with a number.
#[derive(Clone, Copy)]
pub struct ColumnTest {
    /// The column.
    pub column: u32,
    /// How its number is to compare.
    pub op: Op,
    /// The number that it is compared with.
    pub number: i32,
}

/// What a filter asks of a row, for an agent with a memory that is given.
#[derive(Drop)]
pub enum RowTest<'a> {
    /// Nothing: every row passes, as where there is no filter.
    Every,
    /// This comparison and nothing else.
    Column(ColumnTest),
    /// This comparison, and the filter with this memory.
    ColumnFirst(ColumnTest, &'a Filter, &'a Row),
    /// The filter with this memory.
    Whole(&'a Filter, &'a Row),
}

impl ColumnTest {
    /// Whether the number in the column compares so. A column that the row lacks counts as 0.
    #[inline(always)]
    pub fn passes(&self, row: &Row) -> bool
        ensures { result ≡ column_passes self.now row.now }
    {
        compare(self.op, number_at(row.values(), self.column), self.number)
    }
}

impl<'a> RowTest<'a> {
    /// Whether the row passes. Where it fails a comparison that was told apart, that alone is looked at.
    #[inline(always)]
    pub fn passes(&self, row: &Row) -> bool
        ensures { result ≡ row_passes self.now row.now }
    {
        match self {
            RowTest::Every => true,
            RowTest::Column(test) => test.passes(row),
            RowTest::ColumnFirst(test, filter, memory) => {
                test.passes(row) && filter.passes(memory, row)
            }
            RowTest::Whole(filter, memory) => filter.passes(memory, row),
        }
    }
}

/// The operator that says the same of the two numbers the other way round.
fn turned(op: Op) -> Op
    ensures { result ≡ turned op }
{
    match op {
        Op::Lt => Op::Gt,
        Op::Gt => Op::Lt,
        Op::Le => Op::Ge,
        Op::Ge => Op::Le,
        _ => op,
    }
}

/// The comparison of these two, where one of them alone is a column of the row.
fn column_test(op: Op, a: Term, b: Term, memory: &[i32]) -> Option<ColumnTest>
    ensures { result ≡ column_test op a b memory.now }
{
    match (a, b) {
        (Term::Row(column), Term::Number(number)) => Some(ColumnTest { column, op, number }),
        (Term::Row(column), Term::Memory(place)) => Some(ColumnTest {
            column,
            op,
            number: number_at(memory, place),
        }),
        (Term::Number(number), Term::Row(column)) => Some(ColumnTest {
            column,
            op: turned(op),
            number,
        }),
        (Term::Memory(place), Term::Row(column)) => Some(ColumnTest {
            column,
            op: turned(op),
            number: number_at(memory, place),
        }),
        _ => None,
    }
}

impl Test {
    /// The first comparison of a column of the row that it reaches through AND alone, from the left.
    pub fn first_column_test(&self, memory: &[i32]) -> Option<ColumnTest>
        ensures { result ≡ first_column_test (form_of self.now) memory.now }
    {
        match self {
            Test::Compare(op, a, b) => column_test(*op, *a, *b, memory),
            Test::And(a, b) => {
                let left = a.first_column_test(memory);
                if left.is_some() {
                    return left;
                }
                b.first_column_test(memory)
            }
            _ => None,
        }
    }

    /// The comparison of a column of the row that it is.
    pub fn only_column_test(&self, memory: &[i32]) -> Option<ColumnTest>
        ensures { result ≡ only_column_test (form_of self.now) memory.now }
    {
        match self {
            Test::Compare(op, a, b) => column_test(*op, *a, *b, memory),
            _ => None,
        }
    }
}
