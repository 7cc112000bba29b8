//! What arguments of calls stand for, and the rows that are made of them.

ghost use Rattle.std.specs.Prelude.{◌≡◌, ◌+◌, ℕ, Ok, Option, option_map, IfOk, IfSome};
ghost use Rattle.flame_spec.specs.declared.models.Variable.{Variable as Declared};
ghost use Rattle.flame_spec.specs.Columns.{width};
ghost use Rattle.flame_spec.specs.Conditions.{number_at};
ghost use Rattle.flame_spec.specs.Seen.{expression, expressions};
ghost use Rattle.flame_meaning.specs.Scenes.{numbers_from, numbers_of};
ghost use Rattle.flame_meaning.specs.Expressions.{one_of, argument_values, values_of};
ghost use Rattle.flame_meaning.specs.Statements.{fitted};
ghost use Rattle.flame_sense.specs.StandsFor.{within_reach, span_of, scene_seen, progress_seen};

use crate::expression::{field_value, value};
use crate::scene::{Open, Progress, Scene, number_at};
use crate::words::Span;
use flame_rows::{NoMemory, Row};
use flame_spec::{Expr, Fault, Variable};
use std::alloc::Global;

/// The number of a row at this place of a variable.
fn number_in(row: &[i32], start: usize, place: usize) -> i32
    ensures { (column : ℕ) → start ≡ within_reach column → result ≡ number_at row.now (column + place) }
{
    number_at(row, start.saturating_add(place))
}

/// `length` numbers of the row, from this column on.
fn numbers_from(alloc: Global, start: usize, length: usize, row: &[i32]) -> Result<Row, NoMemory>
    ensures { IfOk result (λ numbers.
        (column : ℕ) → start ≡ within_reach column → numbers ≡ numbers_from length column row.now) }
{
    let mut numbers = Vec::new(alloc);
    for place in 0..length {
        numbers.push(number_in(row, start, place))?;
    }
    Ok(Row::of(numbers))
}

/// The one number of a value.
fn one_of(alloc: Global, value: Result<i32, Fault>) -> Result<Result<Row, Fault>, NoMemory>
    ensures { IfOk result (λ numbers. numbers ≡ one_of value) }
{
    match value {
        Ok(value) => {
            let mut numbers = Vec::new(alloc);
            numbers.push(value)?;
            Ok(Ok(Row::of(numbers)))
        }
        Err(fault) => Ok(Err(fault)),
    }
}

/// The numbers of an array of the row, or the value where there is none.
fn numbers_of(
    alloc: Global,
    found: Option<Span>,
    row: &[i32],
    value: i32,
) -> Result<Result<Row, Fault>, NoMemory>
    ensures { IfOk result (λ numbers. (variable : Option (ℕ × Declared)) → found ≡ option_map span_of variable
        → numbers ≡ Ok (numbers_of variable row.now value)) }
{
    match found {
        None => one_of(alloc, Ok(value)),
        Some(span) => match span.length {
            None => one_of(alloc, Ok(value)),
            Some(length) => {
                let numbers = numbers_from(alloc, span.column, length as usize, row)?;
                Ok(Ok(numbers))
            }
        },
    }
}

/// The numbers that an argument stands for, or its fault.
fn argument_values(
    e: &Expr,
    scene: &Scene<'_, '_>,
    open_loops: &Open<'_>,
    s: &Progress<'_>,
) -> Result<Result<Row, Fault>, NoMemory>
    ensures { IfOk result (λ numbers. numbers
        ≡ argument_values (expression e.now) (scene_seen scene.now open_loops.now) (progress_seen s.now)) }
{
    let alloc = scene.alloc;
    match e {
        Expr::Name(_, word) => {
            let word = word.as_str();
            let named = scene.named(word, s);
            numbers_of(
                alloc,
                scene.array_named(word, s),
                s.memory.as_slice(),
                named,
            )
        }
        Expr::Field(_, word, variable) => {
            let (word, variable) = (word.as_str(), variable.as_str());
            let field = field_value(word, variable, scene, open_loops);
            let row = scene.row_read(word, open_loops);
            numbers_of(alloc, scene.member_read(word, variable), row, field)
        }
        Expr::Number(_) => one_of(alloc, value(e, scene, open_loops, s)),
        Expr::Get(_, _) => one_of(alloc, value(e, scene, open_loops, s)),
        Expr::At(_, _, _) => one_of(alloc, value(e, scene, open_loops, s)),
        Expr::FieldAt(_, _, _, _) => one_of(alloc, value(e, scene, open_loops, s)),
        Expr::Unary(_, _) => one_of(alloc, value(e, scene, open_loops, s)),
        Expr::Chain(_, _) => one_of(alloc, value(e, scene, open_loops, s)),
        Expr::All(_) => one_of(alloc, value(e, scene, open_loops, s)),
        Expr::Any(_) => one_of(alloc, value(e, scene, open_loops, s)),
    }
}

/// The values of the arguments, from left to right, or the first fault.
pub(crate) fn values_of(
    arguments: &[Expr],
    scene: &Scene<'_, '_>,
    open_loops: &Open<'_>,
    s: &Progress<'_>,
) -> Result<Result<Row, Fault>, NoMemory>
    ensures { IfOk result (λ values. values
        ≡ values_of (expressions arguments.now) (scene_seen scene.now open_loops.now) (progress_seen s.now)) }
{
    let mut values = Vec::new(scene.alloc);
    for e in arguments {
        match argument_values(e, scene, open_loops, s)? {
            Ok(numbers) => values.extend_from_slice(numbers.values())?,
            Err(fault) => return Ok(Err(fault)),
        }
    }
    Ok(Ok(Row::of(values)))
}

/// The width of a row of these variables, if it can be counted.
fn width(variables: &[Variable]) -> Option<usize>
    ensures { IfSome result (λ wide. wide ≡ width variables.now) }
{
    let mut wide = 0usize;
    for variable in variables {
        wide = wide.checked_add(variable.width() as usize)?;
    }
    Some(wide)
}

/// A row of this width: the values in order, made up by 0 or cut off.
fn fitted(alloc: Global, wide: usize, values: &[i32]) -> Result<Row, NoMemory>
    ensures { IfOk result (λ row. row ≡ fitted wide values.now) }
{
    let mut row = Vec::new(alloc);
    for column in 0..wide {
        row.push(number_at(values, column))?;
    }
    Ok(Row::of(row))
}

/// A row of these variables with the values.
pub(crate) fn row_of(alloc: Global, variables: &[Variable], values: &[i32]) -> Result<Row, NoMemory>
    ensures { IfOk result (λ row. row ≡ fitted (width variables.now) values.now) }
{
    match width(variables) {
        Some(wide) => fitted(alloc, wide, values),
        None => Err(NoMemory),
    }
}
