//! Command lines, carried out.

ghost use Rattle.std.specs.Prelude.{◌≡◌, Some, Ok, map, string_bytes};
ghost use Rattle.flame_outside.specs.Files.{Files};
ghost use Rattle.flame_outside.specs.Scripts.{outside};
ghost use Rattle.flame_words.specs.CommandLines.{order_of};
ghost use Rattle.flame_words.specs.OrderLimits.{IsWithin};
ghost use Rattle.flame_load.specs.TextReads.{Reader, ReadsTexts};
ghost use Rattle.flame_top.specs.CallAnswers.{OrdersTrial, OrdersIterations, OrdersText, PutsNothing};
ghost use Rattle.flame_top.specs.Ordering.{IsUsageEnding, IsApartBy, CarriesTrial, KeepsOrder};
ghost use Rattle.flame_top.specs.Standing.{Keeps, IsFaulted};
ghost use Rattle.flame_top.specs.TraceAnswers.{CarriesOrder, CarriesWords};

use crate::ending::{Carried, Ending};
use crate::migrations::carry_migrate;
use crate::replays::carry_replay;
use crate::runs::carry_run;
use crate::texts::{TextOf, carry_text};
use crate::traces::carry_trace;
use crate::trials::carry_trial;
use flame_outside::{Depot, Gate, Sink};
use flame_report::usage_text;
use flame_rows::{Fail, NoMemory};
use flame_words::{Order, Usage, order};
use std::alloc::Global;
use std::sync::Wait;
use std::thread::Threads;

/// How a call ends whose words have this fault.
fn usage_ending(alloc: Global, usage: &Usage) -> Ending
    ensures { IsUsageEnding usage.now result }
{
    match usage_text(alloc, usage) {
        Ok(line) => Ending::RefusedWords(line),
        Err(NoMemory) => Ending::NoMemory,
    }
}

/// Carries out an order, up to its end or to the first device that fails.
fn carry_order<Rt: Threads + Wait + Sync, D: Depot, S: Sink, G: Gate>(
    rt: &Rt,
    alloc: Global,
    gate: &G,
    order: &Order,
    depot: &mut D,
    out: &mut S,
) -> Carried
    requires within { IsWithin order.now }
    ensures carries { (told : Files) (read : Reader) → (D.seen depot.old).files ≡ Some told → ReadsTexts read
        → CarriesOrder read told order.now result.ending result.files
        (outside (D.seen depot.old) (S.seen out.old)) (outside (D.seen depot.new) (S.seen out.new)) }
    ensures keeps { Keeps result.ending result.files
        (outside (D.seen depot.old) (S.seen out.old)) (outside (D.seen depot.new) (S.seen out.new)) }
    ensures carries_trial { (read : Reader) → ReadsTexts read
        → CarriesTrial read (Ok order.now) result.ending result.files
        (outside (D.seen depot.old) (S.seen out.old)) (outside (D.seen depot.new) (S.seen out.new)) }
    ensures faulted { IsFaulted result.ending → OrdersIterations (Ok order.now) }
    ensures trial { OrdersTrial (Ok order.now) → IsApartBy result.ending result.files
        (outside (D.seen depot.old) (S.seen out.old)) (outside (D.seen depot.new) (S.seen out.new)) }
    ensures text { OrdersText (Ok order.now) → PutsNothing result.files
        (outside (D.seen depot.old) (S.seen out.old)) (outside (D.seen depot.new) (S.seen out.new)) }
{
    match order {
        Order::Run(order) => carry_run(rt, alloc, gate, order, depot, out),
        Order::Check(model) => carry_text(alloc, model.as_str(), TextOf::Counts, depot, out),
        Order::Graph(model) => carry_text(alloc, model.as_str(), TextOf::Graph, depot, out),
        Order::Code(model) => carry_text(alloc, model.as_str(), TextOf::Code, depot, out),
        Order::Trial(order) => carry_trial(rt, alloc, gate, order, out),
        Order::Migrate(model, pop, to) => carry_migrate(
            alloc,
            model.as_str(),
            pop.as_str(),
            to.as_str(),
            depot,
            out,
        ),
        Order::Trace(order) => carry_trace(rt, alloc, gate, order, depot, out),
        Order::Replay(model, pop, name) => carry_replay(
            alloc,
            model.as_str(),
            pop.as_str(),
            name.as_str(),
            depot,
            out,
        ),
    }
}

/// Carries out what the words order, up to its end or to the first device that fails.
pub(crate) fn carry<Rt: Threads + Wait + Sync, D: Depot, S: Sink, G: Gate>(
    rt: &Rt,
    alloc: Global,
    gate: &G,
    words: &[String],
    depot: &mut D,
    out: &mut S,
) -> Carried
    ensures carries { (told : Files) (read : Reader) → (D.seen depot.old).files ≡ Some told → ReadsTexts read
        → CarriesWords read told (order_of (map string_bytes words.now)) result.ending result.files
        (outside (D.seen depot.old) (S.seen out.old)) (outside (D.seen depot.new) (S.seen out.new)) }
    ensures carries_trial { (read : Reader) → ReadsTexts read
        → CarriesTrial read (order_of (map string_bytes words.now)) result.ending result.files
        (outside (D.seen depot.old) (S.seen out.old)) (outside (D.seen depot.new) (S.seen out.new)) }
    ensures keeps { KeepsOrder (order_of (map string_bytes words.now)) result.ending result.files
        (outside (D.seen depot.old) (S.seen out.old)) (outside (D.seen depot.new) (S.seen out.new)) }
{
    match order(alloc, words) {
        Ok(order) => carry_order(rt, alloc, gate, &order, depot, out),
        Err(Fail::Fault(usage)) => Carried::before_files(usage_ending(alloc, &usage)),
        Err(Fail::NoMemory) => Carried::before_files(Ending::NoMemory),
    }
}
