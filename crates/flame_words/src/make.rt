//! Making the order of the words that were read.

ghost use Rattle.std.specs.Prelude.{◌≡◌, ◌<◌, ◌≤◌, length, IfOk};
ghost use Rattle.flame_words.specs.GivenOrders.{how_of, word_at, value_of, run_of, trial_of, trace_of, order_from};
ghost use Rattle.flame_words.specs.WordValues.{number_value};
ghost use Rattle.flame_words.specs.TakenWords.{IsSmallNumber, NumbersSuit};
ghost use Rattle.flame_words.specs.WordSteps.{seen_of, IsComplete};

use crate::orders::{How, Order, RunOrder, TraceOrder, TrialOrder};
use crate::reading::Reading;
use crate::table::{Command, Flag};
use crate::value::{format_of, number_value, way_of};
use flame_rows::{NoMemory, Text};
use std::alloc::Global;

/// The order of words that have no fault.
pub(crate) fn order_from(alloc: Global, reading: &Reading<'_>) -> Result<Order, NoMemory>
    requires { IsComplete (seen_of reading.now) }
    ensures { IfOk result (λ order. order
        ≡ order_from (seen_of reading.now).command (seen_of reading.now).words (seen_of reading.now).givens) }
{
    match reading.command {
        Command::Run => Ok(Order::Run(run_of(alloc, reading)?)),
        Command::Check => Ok(Order::Check(text_at(alloc, reading, 0)?)),
        Command::Graph => Ok(Order::Graph(text_at(alloc, reading, 0)?)),
        Command::Code => Ok(Order::Code(text_at(alloc, reading, 0)?)),
        Command::Trial => Ok(Order::Trial(trial_of(alloc, reading)?)),
        Command::Migrate => migrate_of(alloc, reading),
        Command::Trace => Ok(Order::Trace(trace_of(alloc, reading)?)),
        Command::Replay => replay_of(alloc, reading),
    }
}

fn run_of(alloc: Global, reading: &Reading<'_>) -> Result<RunOrder, NoMemory>
    requires complete { IsComplete (seen_of reading.now) }
    requires command { reading.now.command ≡ Command.Run }
    ensures { IfOk result (λ run. run ≡ run_of (seen_of reading.now).words (seen_of reading.now).givens) }
{
    Ok(RunOrder {
        model: text_at(alloc, reading, 0)?,
        pop: text_at(alloc, reading, 1)?,
        out: text_at(alloc, reading, 2)?,
        turns: number_at(reading, 3),
        format: format_of(reading.word_of(Flag::Format)),
        how: how_of(alloc, reading)?,
    })
}

fn trial_of(alloc: Global, reading: &Reading<'_>) -> Result<TrialOrder, NoMemory>
    requires complete { IsComplete (seen_of reading.now) }
    requires command { reading.now.command ≡ Command.Trial }
    ensures { IfOk result (λ trial. trial ≡ trial_of (seen_of reading.now).words (seen_of reading.now).givens) }
{
    Ok(TrialOrder {
        seed: number_at(reading, 0),
        size: number_at(reading, 1),
        turns: number_at(reading, 2),
        how: how_of(alloc, reading)?,
    })
}

fn migrate_of(alloc: Global, reading: &Reading<'_>) -> Result<Order, NoMemory>
    requires complete { IsComplete (seen_of reading.now) }
    requires command { reading.now.command ≡ Command.Migrate }
    ensures { IfOk result (λ order. order
        ≡ order_from Command.Migrate (seen_of reading.now).words (seen_of reading.now).givens) }
{
    Ok(Order::Migrate(
        text_at(alloc, reading, 0)?,
        text_at(alloc, reading, 1)?,
        text_at(alloc, reading, 2)?,
    ))
}

fn trace_of(alloc: Global, reading: &Reading<'_>) -> Result<TraceOrder, NoMemory>
    requires complete { IsComplete (seen_of reading.now) }
    requires command { reading.now.command ≡ Command.Trace }
    ensures { IfOk result (λ trace. trace ≡ trace_of (seen_of reading.now).words (seen_of reading.now).givens) }
{
    Ok(TraceOrder {
        model: text_at(alloc, reading, 0)?,
        pop: text_at(alloc, reading, 1)?,
        out: text_at(alloc, reading, 2)?,
        workers: number(reading.word_of(Flag::Workers)),
        fuel: number(reading.word_of(Flag::Fuel)),
    })
}

fn replay_of(alloc: Global, reading: &Reading<'_>) -> Result<Order, NoMemory>
    requires complete { IsComplete (seen_of reading.now) }
    requires command { reading.now.command ≡ Command.Replay }
    ensures { IfOk result (λ order. order
        ≡ order_from Command.Replay (seen_of reading.now).words (seen_of reading.now).givens) }
{
    Ok(Order::Replay(
        text_at(alloc, reading, 0)?,
        text_at(alloc, reading, 1)?,
        text_at(alloc, reading, 2)?,
    ))
}

/// How the options say that iterations are run.
fn how_of(alloc: Global, reading: &Reading<'_>) -> Result<How, NoMemory>
    requires { NumbersSuit (seen_of reading.now).givens }
    ensures { IfOk result (λ how. how ≡ how_of (seen_of reading.now).givens) }
{
    Ok(How {
        workers: number(reading.word_of(Flag::Workers)),
        fuel: number(reading.word_of(Flag::Fuel)),
        way: way_of(reading.word_of(Flag::Sync)),
        by: text_of(alloc, reading, Flag::By)?,
    })
}

/// The value of the option as a text, if it has one.
fn text_of(alloc: Global, reading: &Reading<'_>, option: Flag) -> Result<Option<Text>, NoMemory>
    ensures { IfOk result (λ text. text ≡ value_of (seen_of reading.now).givens option) }
{
    match reading.value(option) {
        Some(word) => Ok(Some(Text::of(alloc, word)?)),
        None => Ok(None),
    }
}

/// The positional word of this number as a text.
fn text_at(alloc: Global, reading: &Reading<'_>, at: usize) -> Result<Text, NoMemory>
    requires { at < length reading.now.words.items }
    ensures { IfOk result (λ text. text ≡ word_at (seen_of reading.now).words at) }
{
    Text::of(alloc, reading.word(at))
}

/// The positional word of this number as a number.
fn number_at(reading: &Reading<'_>, at: usize) -> u32
    requires there { at < length reading.now.words.items }
    requires number { IsSmallNumber (word_at (seen_of reading.now).words at) }
    ensures { result ≡ number_value (word_at (seen_of reading.now).words at) }
{
    number(reading.word(at))
}

/// The number that the word is.
fn number(word: &str) -> u32
    requires { IsSmallNumber word.now }
    ensures { result ≡ number_value word.now }
{
    match number_value(word) {
        Some(value) => value,
        None => unreachable!(),
    }
}
