//! Conditions by names, read as tests by columns.

ghost use Rattle.std.specs.Prelude.{◌≡◌, ◌<◌, ◌^◌, pos, int_le, All, IfOk, IsTrue, List};
ghost use Rattle.flame_spec.specs.declared.models.TimeUnit.{TimeUnit as Unit};
ghost use Rattle.flame_spec.specs.Columns.{width};
ghost use Rattle.flame_spec.specs.Conditions.{has_lengths};
ghost use Rattle.flame_cond.specs.TestForms.{both, either, negation, form_of, term_of, test_of};
ghost use Rattle.flame_cond.specs.Tests.{names};

use crate::forms::{Term, Test};
use crate::names::{column, period};
use flame_rows::{Boxed, NoMemory};
use flame_spec::{Condition, Operand, TimeUnit, Variable};
use std::alloc::Global;

/// What is compared, by its column.
fn term(operand: &Operand, memory: &[Variable], message: &[Variable]) -> Term
    requires memory_fits { width memory.now < 2 ^ 32 }
    requires message_fits { width message.now < 2 ^ 32 }
    ensures { (units : List Unit) → result ≡ term_of (names memory.now message.now units) operand.now }
{
    match operand {
        Operand::Number(number) => Term::Number(*number),
        Operand::Agent(name) => Term::Memory(column(memory, name.as_str())),
        Operand::Message(name) => Term::Row(column(message, name.as_str())),
    }
}

/// Both hold.
fn both(alloc: Global, left: Test, right: Test) -> Result<Test, NoMemory>
    ensures { IfOk result (λ test. form_of test ≡ both (form_of left) (form_of right)) }
{
    let left = Boxed::of(alloc, left)?;
    let right = Boxed::of(alloc, right)?;
    Ok(Test::And(left, right))
}

/// One of the two holds, or both.
fn either(alloc: Global, left: Test, right: Test) -> Result<Test, NoMemory>
    ensures { IfOk result (λ test. form_of test ≡ either (form_of left) (form_of right)) }
{
    let left = Boxed::of(alloc, left)?;
    let right = Boxed::of(alloc, right)?;
    Ok(Test::Or(left, right))
}

/// The other does not hold.
fn negation(alloc: Global, inner: Test) -> Result<Test, NoMemory>
    ensures { IfOk result (λ test. form_of test ≡ negation (form_of inner)) }
{
    let inner = Boxed::of(alloc, inner)?;
    Ok(Test::Not(inner))
}

/// The condition by columns.
pub fn test(
    alloc: Global,
    condition: &Condition,
    memory: &[Variable],
    message: &[Variable],
    units: &[TimeUnit],
) -> Result<Test, NoMemory>
    requires lengths { IsTrue (has_lengths units.now condition.now) }
    requires periods { All (λ unit. IsTrue (int_le (pos 1) unit.period)) units.now }
    requires memory_fits { width memory.now < 2 ^ 32 }
    requires message_fits { width message.now < 2 ^ 32 }
    ensures { IfOk result (λ test. form_of test ≡ test_of (names memory.now message.now units.now) condition.now) }
{
    match condition {
        Condition::Compare(op, a, b) => Ok(Test::Compare(
            *op,
            term(a, memory, message),
            term(b, memory, message),
        )),
        Condition::And(a, b) => {
            let left = test(alloc, a, memory, message, units)?;
            let right = test(alloc, b, memory, message, units)?;
            both(alloc, left, right)
        }
        Condition::Or(a, b) => {
            let left = test(alloc, a, memory, message, units)?;
            let right = test(alloc, b, memory, message, units)?;
            either(alloc, left, right)
        }
        Condition::Not(a) => {
            let inner = test(alloc, a, memory, message, units)?;
            negation(alloc, inner)
        }
        Condition::Time(unit, phase, duration) => Ok(Test::Time(
            period(units, unit),
            term(phase, memory, message),
            *duration,
        )),
    }
}
