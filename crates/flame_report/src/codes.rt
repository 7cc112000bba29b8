//! The text of `code`.

ghost use Rattle.std.specs.Prelude.{◌≡◌, ◌++◌, IfOk, OnOk, Some, map, slice_get, string_bytes};
ghost use Rattle.flame_lookup.specs.WordsFound.{definition_found, place_found};
ghost use Rattle.flame_body.specs.FunctionBodies.{function_body, helper_body};
ghost use Rattle.flame_compile.specs.Emit.{emitted};
ghost use Rattle.flame_report.specs.CodeTexts.{function_listing, helper_listing, code_lines};
ghost use Rattle.flame_spec.specs.Definitions.{helpers};
ghost use Rattle.flame_spec.specs.Functions.{functions};
ghost use Rattle.flame_spec.specs.Lists.{each};

use crate::listings::push_instrs;
use flame_code::Instr;
use flame_lookup::{CFunction, Tables, Transition};
use flame_program::Program;
use flame_rows::{Blob, NoMemory, number};
use std::alloc::Global;
use std::fmt::Write;

/// The instructions of the program's function of this number, which stands there.
fn function_instrs<'p>(program: &'p Program, number: u32, place: &Transition<'_>) -> &'p [Instr]
    requires { slice_get (functions program.now.model) number ≡ Some (place_found place.now) }
    ensures { result.now
        ≡ emitted (function_body program.now.model program.now.units number (place_found place.now)).tree }
{
    program.code(number).instrs()
}

/// Adds the listing of the program's function of this number, which stands there.
fn push_function_code(
    text: &mut String,
    program: &Program,
    number: u32,
    place: &Transition<'_>,
) -> Result<(), NoMemory>
    requires { slice_get (functions program.now.model) number ≡ Some (place_found place.now) }
    ensures { OnOk result (string_bytes text.new
        ≡ string_bytes text.old ++ function_listing program.now number (place_found place.now)) }
{
    let agent = place.agent.name.as_str();
    let name = place.function.name.as_str();
    write!(text, "{agent}.{name}\n")?;
    push_instrs(text, function_instrs(program, number, place))
}

/// Adds the listings of the program's functions, which stand in these places.
fn push_functions(
    text: &mut String,
    program: &Program,
    places: &[Transition<'_>],
) -> Result<(), NoMemory>
    requires { map place_found places.now ≡ functions program.now.model }
    ensures { OnOk result (string_bytes text.new
        ≡ string_bytes text.old ++ each (function_listing program.now) (functions program.now.model)) }
{
    for (i, place) in places.iter().enumerate() {
        push_function_code(text, program, number(i)?, place)?;
    }
    Ok(())
}

/// The instructions of the program's helper of this number, of which this is the C function.
#[tactic(auto, using(crate::proofs::CodesFound::helper_within))]
fn helper_instrs<'p>(program: &'p Program, number: u32, helper: &CFunction<'_>) -> &'p [Instr]
    requires { slice_get (helpers program.now.model program.now.units) number ≡ Some (definition_found helper.now) }
    ensures { result.now
        ≡ emitted (helper_body program.now.model program.now.units number (definition_found helper.now)).tree }
{
    program.helpers().code(number).instrs()
}

/// Adds the listing of the program's helper of this number, of which this is the C function.
fn push_helper_code(
    text: &mut String,
    program: &Program,
    number: u32,
    helper: &CFunction<'_>,
) -> Result<(), NoMemory>
    requires { slice_get (helpers program.now.model program.now.units) number ≡ Some (definition_found helper.now) }
    ensures { OnOk result (string_bytes text.new
        ≡ string_bytes text.old ++ helper_listing program.now number (definition_found helper.now)) }
{
    let name = helper.def.name.as_str();
    write!(text, "helper {name}\n")?;
    push_instrs(text, helper_instrs(program, number, helper))
}

/// Adds the listings of the program's helpers, of which these are the C functions.
fn push_helpers(
    text: &mut String,
    program: &Program,
    found: &[CFunction<'_>],
) -> Result<(), NoMemory>
    requires { map definition_found found.now ≡ helpers program.now.model program.now.units }
    ensures { OnOk result (string_bytes text.new ≡ string_bytes text.old
        ++ each (helper_listing program.now) (helpers program.now.model program.now.units)) }
{
    for (i, helper) in found.iter().enumerate() {
        push_helper_code(text, program, number(i)?, helper)?;
    }
    Ok(())
}

/// Adds the listings of the program's functions and helpers, which these tables tell.
fn push_listings(text: &mut String, program: &Program, tables: &Tables<'_>) -> Result<(), NoMemory>
    requires { tables.now ≡ record { model = program.now.model; units = program.now.units } }
    ensures { OnOk result (string_bytes text.new ≡ string_bytes text.old ++ code_lines program.now) }
{
    push_functions(text, program, tables.transitions())?;
    push_helpers(text, program, tables.helpers())?;
    Ok(())
}

/// Adds the listings of the program's functions and helpers.
fn push_program(alloc: Global, text: &mut String, program: &Program) -> Result<(), NoMemory>
    ensures { OnOk result (string_bytes text.new ≡ string_bytes text.old ++ code_lines program.now) }
{
    let source = program.source();
    let tables = Tables::of(alloc, &source.model, &source.units)?;
    push_listings(text, program, &tables)
}

/// The text of `code`: the listing of each function in document order, under `Type.function`, and then of each helper in
/// source order, under `helper NAME`. An instruction has a line: its place from 0, its name and its arguments. The text of a
/// model without functions and helpers is empty. The error is want of memory; it comes too where 32 bits cannot number the
/// functions, C functions or variables, and no program has so many.
pub fn code_text(alloc: Global, program: &Program) -> Result<Blob, NoMemory>
    ensures { IfOk result (λ text. text ≡ code_lines program.now) }
{
    let mut text = String::new(alloc);
    push_program(alloc, &mut text, program)?;
    Ok(Blob::of(text.into_bytes()))
}
