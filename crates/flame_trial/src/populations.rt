//! Populations of the meadow.

ghost use Rattle.std.specs.Prelude.{◌≡◌, ◌++◌, OnOk, string_bytes, IfOk};
ghost use Rattle.flame_trial.specs.MeadowPopulations.{next_number, type_name, agent_text};
ghost use Rattle.flame_trial.specs.MeadowPopulations.{agents, with_commas, comma_before, opening_text, population_text};

use flame_rows::{Blob, NoMemory};
use itoa::Buffer;
use std::alloc::Global;
use std::fmt::Write;

/// The number that comes after this one.
fn next_number(number: u32) -> u32
    ensures { result ≡ next_number number }
{
    ((number as u64 * 1664525 + 1013904223) % 4294967296) as u32
}

/// The type of the agent of this number.
fn type_name(place: u32) -> &'static str
    ensures { result.now ≡ type_name place }
{
    if place % 4 == 3 { "Fox" } else { "Rabbit" }
}

/// Adds an agent of this type, in this cell, with this energy.
fn push_agent(text: &mut String, name: &str, cell: u32, energy: u32) -> Result<(), NoMemory>
    ensures { OnOk result (string_bytes text.new ≡ string_bytes text.old ++ agent_text name.now cell energy) }
{
    let mut cells = Buffer::new();
    let mut energies = Buffer::new();
    let cell = cells.format(cell);
    let energy = energies.format(energy);
    write!(
        text,
        r#"{{"name":"{name}","memory":{{"cell":{cell},"energy":{energy}}}}}"#
    )?;
    Ok(())
}

/// Adds a comma before each agent but the first.
fn push_comma(text: &mut String, place: u32) -> Result<(), NoMemory>
    ensures { OnOk result (string_bytes text.new ≡ string_bytes text.old ++ comma_before place) }
{
    if 0 < place {
        text.push_str(",")?;
    }
    Ok(())
}

/// Adds so many agents that are drawn from the seed, with commas between them.
fn push_agents(text: &mut String, seed: u32, size: u32) -> Result<(), NoMemory>
    ensures { OnOk result (string_bytes text.new ≡ string_bytes text.old ++ with_commas (agents seed size)) }
{
    let cells = size / 4 + 1;
    let mut number = seed;
    for place in 0..size {
        let first = next_number(number);
        let second = next_number(first);
        push_comma(text, place)?;
        push_agent(
            text,
            type_name(place),
            first / 65536 % cells,
            second / 65536 % 10 + 1,
        )?;
        number = second;
    }
    Ok(())
}

/// What stands before the agents.
fn opening(alloc: Global, size: u32) -> Result<String, NoMemory>
    ensures { IfOk result (λ text. string_bytes text ≡ opening_text size) }
{
    let mut numbers = Buffer::new();
    let cells = numbers.format(size / 4 + 1);
    Ok(format!(in alloc;
        r#"{{"states":{{"itno":0,"environment":{{"cells":{cells},"grass":3}},"agents":["#
    )?)
}

/// The population file of the meadow with so many agents, drawn from the seed, for iteration 0: every fourth agent is a
/// fox, and the others are rabbits. There may be any number of agents, and the time is linear in it. The error is want
/// of memory.
pub fn meadow_population(alloc: Global, seed: u32, size: u32) -> Result<Blob, NoMemory>
    ensures { IfOk result (λ bytes. bytes ≡ population_text seed size) }
{
    let mut text = opening(alloc, size)?;
    push_agents(&mut text, seed, size)?;
    text.push_str("],\"boards\":[]}}\n")?;
    Ok(Blob::of(text.into_bytes()))
}
