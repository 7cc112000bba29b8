//! Cases of `edges` and `plan`: the section `model`; which functions stand before which, as `edges 0>1 1>2`, and then
//! the order, the layers and the start states, as `plan [0 1] [0 1] [start]`, or the fault, as `cycle [0 1]` or
//! `starts 0 [a b]`. Functions and agent types are numbered from 0.

use crate::modeling::{Found, model_in};
use flame_case_files::Case;
use flame_depend::{DependFault, Edge, edges, plan};
use flame_rows::Fail;
use flame_spec::Model;
use std::alloc::{AllocError, Global};
use std::fmt::Display;

fn print_list<T: Display>(out: &mut String, items: &[T]) -> Result<(), AllocError> {
    write!(out, " [")?;
    let mut gap = "";
    for item in items {
        write!(out, "{gap}{item}")?;
        gap = " ";
    }
    write!(out, "]")
}

fn print_edges(out: &mut String, edges: &[Edge]) -> Result<(), AllocError> {
    write!(out, "edges")?;
    for edge in edges {
        write!(out, " {}>{}", edge.before, edge.after)?;
    }
    writeln!(out)
}

fn print_fault(out: &mut String, fault: &DependFault) -> Result<(), AllocError> {
    match fault {
        DependFault::Cycle(cycle) => {
            write!(out, "cycle")?;
            print_list(out, cycle.functions.items())?;
        }
        DependFault::Starts(starts) => {
            write!(out, "starts {}", starts.agent)?;
            print_list(out, starts.states.items())?;
        }
    }
    writeln!(out)
}

/// The edges and the plan of a model.
fn print_plan(alloc: Global, out: &mut String, model: &Model) -> Result<(), AllocError> {
    if !model.has_few_functions() || model.agents.len() >= 4294967296 {
        return writeln!(out, "too large");
    }
    if let Ok(edges) = edges(alloc, model) {
        print_edges(out, edges.items())?;
    }
    match plan(alloc, model) {
        Ok(plan) => {
            write!(out, "plan")?;
            print_list(out, plan.order.items())?;
            print_list(out, plan.layers.items())?;
            print_list(out, plan.starts.items())?;
            writeln!(out)
        }
        Err(Fail::Fault(fault)) => print_fault(out, &fault),
        Err(Fail::NoMemory) => writeln!(out, "no memory"),
    }
}

/// The answer to a case of the kind `plan`: the edges, and the plan or the fault.
pub fn answer_plan(alloc: Global, case: &Case) -> Result<String, AllocError> {
    match model_in(alloc, case)? {
        Found::Told(told) => Ok(told),
        Found::Model(model) => {
            let mut out = String::new(alloc);
            print_plan(alloc, &mut out, &model)?;
            Ok(out)
        }
    }
}
