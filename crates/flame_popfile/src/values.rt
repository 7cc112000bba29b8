//! The texts of values, which are written from their end. Each call puts a text before the text that stands.

ghost use Rattle.std.specs.Prelude.{◌≡◌, ◌++◌, take, drop, OnOk};
ghost use Rattle.flame_popfile.specs.RowTexts.{with_commas, numbers_text, row_text, value_text, variable_texts};
ghost use Rattle.flame_popfile.specs.TailTexts.{held};
ghost use Rattle.flame_popfile.specs.ObjectTexts.{written_object};

use crate::fields::Field;
use crate::objects::Object;
use crate::puts::{put_byte, put_bytes, put_comma, put_number};
use crate::tails::Tail;
use flame_rows::NoMemory;

/// Puts these numbers before the text, with commas between them.
pub(crate) fn put_numbers(tail: &mut Tail, numbers: &[i32]) -> Result<(), NoMemory>
    ensures { OnOk result (held tail.new ≡ numbers_text numbers.now ++ held tail.old) }
{
    let mut left = numbers.len();
    let mut more = false;
    while left > 0 {
        left -= 1;
        put_comma(tail, more)?;
        put_number(tail, numbers[left])?;
        more = true;
    }
    Ok(())
}

/// Puts the list of these numbers before the text.
pub(crate) fn put_list(tail: &mut Tail, numbers: &[i32]) -> Result<(), NoMemory>
    ensures { OnOk result (held tail.new ≡ row_text numbers.now ++ held tail.old) }
{
    put_byte(tail, b']')?;
    put_numbers(tail, numbers)?;
    put_byte(tail, b'[')?;
    Ok(())
}

/// The first numbers of a row, so many or all.
fn first(row: &[i32], count: usize) -> &[i32]
    ensures { result.now ≡ take count row.now }
{
    if count < row.len() {
        &row[..count]
    } else {
        row
    }
}

/// The numbers of a row from a column on.
fn left_from(row: &[i32], column: usize) -> &[i32]
    ensures { result.now ≡ drop column row.now }
{
    if column < row.len() {
        &row[column..]
    } else {
        &[]
    }
}

/// Puts the first of these numbers before the text, where there is one.
fn put_first(tail: &mut Tail, row: &[i32]) -> Result<(), NoMemory>
    ensures { OnOk result (held tail.new ≡ numbers_text (take 1 row.now) ++ held tail.old) }
{
    match row {
        [number, ..] => put_number(tail, *number),
        [] => Ok(()),
    }
}

/// Puts the value of a variable without a length, or of this length, with which these numbers begin, before the text.
fn put_value(tail: &mut Tail, array: Option<u32>, row: &[i32]) -> Result<(), NoMemory>
    ensures { OnOk result (held tail.new ≡ value_text array row.now ++ held tail.old) }
{
    match array {
        None => put_first(tail, row),
        Some(length) => put_list(tail, first(row, length as usize)),
    }
}

/// Puts a variable of a row before the text.
fn put_field(tail: &mut Tail, field: &Field<'_>, row: &[i32]) -> Result<(), NoMemory>
    ensures { OnOk result (held tail.new
        ≡ field.now.key.items
        ++ (value_text field.now.variable.now.length (drop field.now.column row.now) ++ held tail.old)) }
{
    put_value(tail, field.variable.length, left_from(row, field.column))?;
    put_bytes(tail, field.key.as_slice())?;
    Ok(())
}

/// Puts the variables of a row before the text, in declared order.
fn put_variables(tail: &mut Tail, object: &Object<'_>, row: &[i32]) -> Result<(), NoMemory>
    ensures { OnOk result (held tail.new
        ≡ with_commas (variable_texts object.now.variables.now row.now) ++ held tail.old) }
{
    let fields = object.fields.as_slice();
    let mut left = fields.len();
    while left > 0 {
        left -= 1;
        put_field(tail, &fields[left], row)?;
    }
    Ok(())
}

/// Puts a row as such an object before the text.
pub(crate) fn put_object(tail: &mut Tail, object: &Object<'_>, row: &[i32]) -> Result<(), NoMemory>
    ensures { OnOk result (held tail.new ≡ written_object object.now row.now ++ held tail.old) }
{
    put_byte(tail, b'}')?;
    put_variables(tail, object, row)?;
    put_bytes(tail, object.head.as_slice())?;
    Ok(())
}
