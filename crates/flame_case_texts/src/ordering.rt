//! Cases of `order`: the section `words` has a word a line; the order, a part of it a line, or the fault of usage, as
//! `BadNumber at word 5` or `Missing POP`.

use flame_case_files::Case;
use flame_rows::Fail;
use flame_words::{How, Order, RunOrder, TraceOrder, TrialOrder, Usage, Way, order};
use std::alloc::{AllocError, Global};

fn print_how(out: &mut String, how: &How) -> Result<(), AllocError> {
    let way = match how.way {
        Way::Layers => "layers",
        Way::Flow => "flow",
        Way::Nodes => "nodes",
    };
    writeln!(out, "workers={}", how.workers)?;
    writeln!(out, "fuel={}", how.fuel)?;
    writeln!(out, "way={way}")?;
    if let Some(by) = &how.by {
        writeln!(out, "by={by}")?;
    }
    Ok(())
}

fn print_run(out: &mut String, run: &RunOrder) -> Result<(), AllocError> {
    writeln!(out, "run\nmodel={}\npop={}", run.model, run.pop)?;
    writeln!(
        out,
        "out={}\nturns={}\nformat={}",
        run.out, run.turns, run.format
    )?;
    print_how(out, &run.how)
}

fn print_trial(out: &mut String, trial: &TrialOrder) -> Result<(), AllocError> {
    writeln!(out, "trial\nseed={}", trial.seed)?;
    writeln!(out, "size={}\nturns={}", trial.size, trial.turns)?;
    print_how(out, &trial.how)
}

fn print_trace(out: &mut String, trace: &TraceOrder) -> Result<(), AllocError> {
    writeln!(out, "trace\nmodel={}\npop={}", trace.model, trace.pop)?;
    writeln!(
        out,
        "out={}\nworkers={}\nfuel={}",
        trace.out, trace.workers, trace.fuel
    )
}

fn print_order(out: &mut String, order: &Order) -> Result<(), AllocError> {
    match order {
        Order::Run(run) => print_run(out, run),
        Order::Check(model) => writeln!(out, "check\nmodel={model}"),
        Order::Graph(model) => writeln!(out, "graph\nmodel={model}"),
        Order::Code(model) => writeln!(out, "code\nmodel={model}"),
        Order::Trial(trial) => print_trial(out, trial),
        Order::Migrate(model, pop, written) => {
            writeln!(out, "migrate\nmodel={model}\npop={pop}\nout={written}")
        }
        Order::Trace(trace) => print_trace(out, trace),
        Order::Replay(model, pop, traced) => {
            writeln!(out, "replay\nmodel={model}\npop={pop}\ntrace={traced}")
        }
    }
}

fn print_usage(out: &mut String, usage: &Usage) -> Result<(), AllocError> {
    write!(out, "{}", usage.name())?;
    if let Some(number) = usage.word() {
        write!(out, " at word {number}")?;
    }
    if let Some(name) = usage.missing() {
        write!(out, " {name}")?;
    }
    writeln!(out)
}

/// The order that the words give, or the fault of usage.
fn ordered(alloc: Global, words: &[String]) -> Result<String, AllocError> {
    let mut out = String::new(alloc);
    match order(alloc, words) {
        Ok(order) => print_order(&mut out, &order)?,
        Err(Fail::Fault(usage)) => print_usage(&mut out, &usage)?,
        Err(Fail::NoMemory) => out.push_str("no memory\n")?,
    }
    Ok(out)
}

/// The answer to a case of the kind `words`: the order, or the fault of usage.
pub fn answer_order(alloc: Global, case: &Case) -> Result<String, AllocError> {
    let words = case.lines(alloc, "words")?;
    ordered(alloc, words.as_slice())
}
