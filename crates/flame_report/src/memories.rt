//! The numbers of memories, by their variables.

ghost use Rattle.std.specs.Prelude.{◌≡◌, ◌++◌, OnOk, codes, min, length, string_bytes};
ghost use Rattle.std.specs.Fmt.{signed_decimal};
ghost use Rattle.std.specs.List.{flat_map};
ghost use Rattle.flame_report.specs.LineParts.{numbers_text, value_text, variable_text, memory_text};

use flame_rows::NoMemory;
use flame_spec::Variable;
use itoa::Buffer;
use std::fmt::Write;

/// Adds these numbers, each behind a comma.
fn push_more(text: &mut String, numbers: &[i32]) -> Result<(), NoMemory>
    ensures { OnOk result (string_bytes text.new ≡ string_bytes text.old
        ++ flat_map (λ number. codes "," ++ signed_decimal number) numbers.now) }
{
    for number in numbers {
        let mut digits = Buffer::new();
        text.push_str(",")?;
        text.push_str(digits.format(*number))?;
    }
    Ok(())
}

/// Adds these numbers with commas between them.
fn push_numbers(text: &mut String, numbers: &[i32]) -> Result<(), NoMemory>
    ensures { OnOk result (string_bytes text.new ≡ string_bytes text.old ++ numbers_text numbers.now) }
{
    let Some((first, others)) = numbers.split_first() else {
        return Ok(());
    };
    let mut digits = Buffer::new();
    text.push_str(digits.format(*first))?;
    push_more(text, others)
}

/// Adds the numbers of a variable; an array's stand in brackets.
fn push_value(text: &mut String, length: Option<u32>, numbers: &[i32]) -> Result<(), NoMemory>
    ensures { OnOk result (string_bytes text.new ≡ string_bytes text.old ++ value_text length numbers.now) }
{
    match length {
        None => push_numbers(text, numbers),
        Some(_) => {
            text.push_str("[")?;
            push_numbers(text, numbers)?;
            text.push_str("]")?;
            Ok(())
        }
    }
}

/// Adds a variable with its numbers: ` x=1` or ` x=[1,2]`.
fn push_variable(text: &mut String, variable: &Variable, numbers: &[i32]) -> Result<(), NoMemory>
    ensures { OnOk result (string_bytes text.new ≡ string_bytes text.old ++ variable_text variable.now numbers.now) }
{
    let name = variable.name.as_str();
    write!(text, " {name}=")?;
    push_value(text, variable.length, numbers)
}

/// Adds the variables, each with its numbers of the row.
pub(crate) fn push_memory(
    text: &mut String,
    variables: &[Variable],
    row: &[i32],
) -> Result<(), NoMemory>
    ensures { OnOk result (string_bytes text.new ≡ string_bytes text.old ++ memory_text variables.now row.now) }
{
    let mut rest = row;
    for variable in variables {
        let (numbers, others) = rest.split_at((variable.width() as usize).min(rest.len()));
        push_variable(text, variable, numbers)?;
        rest = others;
    }
    Ok(())
}
