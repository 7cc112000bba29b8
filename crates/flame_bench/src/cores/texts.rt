//! The cases that models are read from.

use crate::cores::grids::Grid;
use flame_case_files::{Case, Section};
use std::alloc::{AllocError, Global};

/// Adds a comma before each but the first.
fn comma(out: &mut String, place: u32) -> Result<(), AllocError> {
    if place > 0 {
        out.push_str(",")?;
    }
    Ok(())
}

/// Adds the message type of each layer.
fn print_messages(out: &mut String, grid: Grid) -> Result<(), AllocError> {
    for layer in 0..grid.layers {
        comma(out, layer)?;
        out.push_str("{\"name\":\"m")?;
        write!(out, "{layer}")?;
        out.push_str("\",\"variables\":[{\"type\":\"int\",\"name\":\"v\"}]}")?;
    }
    Ok(())
}

/// Adds a list, of this title, that has the message of this layer alone.
fn print_named(out: &mut String, title: &str, layer: u32) -> Result<(), AllocError> {
    out.push_str(",\"")?;
    out.push_str(title)?;
    out.push_str("\":[{\"messageName\":\"m")?;
    write!(out, "{layer}")?;
    out.push_str("\"}]")
}

/// Adds the function of a type in a layer.
fn print_function(out: &mut String, grid: Grid, kind: u32, layer: u32) -> Result<(), AllocError> {
    let next = layer.saturating_add(1);
    out.push_str("{\"name\":\"")?;
    write!(out, "f{kind}_{layer}")?;
    out.push_str("\",\"currentState\":\"")?;
    write!(out, "s{layer}")?;
    out.push_str("\",\"nextState\":\"")?;
    write!(out, "s{next}")?;
    out.push_str("\"")?;
    if let (true, Some(before)) = (grid.boards, layer.checked_sub(1)) {
        print_named(out, "inputs", before)?;
    }
    if grid.boards && kind == 0 {
        print_named(out, "outputs", layer)?;
    }
    out.push_str("}")
}

/// Adds an agent type.
fn print_type(out: &mut String, grid: Grid, kind: u32) -> Result<(), AllocError> {
    out.push_str("{\"name\":\"A")?;
    write!(out, "{kind}")?;
    out.push_str("\",\"memory\":[{\"type\":\"int\",\"name\":\"x\"}],\"functions\":[")?;
    for layer in 0..grid.layers {
        comma(out, layer)?;
        print_function(out, grid, kind, layer)?;
    }
    out.push_str("]}")
}

/// The model.
fn model(alloc: Global, grid: Grid) -> Result<String, AllocError> {
    let mut out = String::new(alloc);
    out.push_str("{\"xmodel\":{\"environment\":{\"functionFiles\":[\"f.c\"]},\"messages\":[")?;
    if grid.boards {
        print_messages(&mut out, grid)?;
    }
    out.push_str("],\"agents\":[")?;
    for kind in 0..grid.types {
        comma(&mut out, kind)?;
        print_type(&mut out, grid, kind)?;
    }
    out.push_str("]}}")?;
    Ok(out)
}

/// Adds what the function of a type does in a layer.
fn print_body(out: &mut String, grid: Grid, kind: u32, layer: u32) -> Result<(), AllocError> {
    write!(out, "int f{kind}_{layer}")?;
    out.push_str("() { ")?;
    if grid.boards && kind == 0 {
        write!(out, "add_m{layer}")?;
        out.push_str("_message(X); ")?;
    }
    out.push_str("X = X + 1; return 0; }\n")
}

/// The function file.
fn bodies(alloc: Global, grid: Grid) -> Result<String, AllocError> {
    let mut out = String::new(alloc);
    for kind in 0..grid.types {
        for layer in 0..grid.layers {
            print_body(&mut out, grid, kind, layer)?;
        }
    }
    Ok(out)
}

/// The agents of each type.
fn agents(alloc: Global, grid: Grid) -> Result<String, AllocError> {
    let mut out = String::new(alloc);
    for kind in 0..grid.types {
        for agent in 0..grid.agents {
            writeln!(out, "agent {kind} [{agent}]")?;
        }
    }
    Ok(out)
}

/// Adds a section of this title and this text.
fn add_section(
    sections: &mut Vec<Section>,
    alloc: Global,
    title: &str,
    text: String,
) -> Result<(), AllocError> {
    let title = String::from_str(alloc, title)?;
    let bytes = text.into_bytes();
    Ok(sections.push(Section { title, bytes })?)
}

/// The sections of the model, the function file and the agents.
fn sections_of(alloc: Global, grid: Grid) -> Result<Vec<Section>, AllocError> {
    let mut sections = Vec::new(alloc);
    add_section(&mut sections, alloc, "model", model(alloc, grid)?)?;
    add_section(&mut sections, alloc, "text", bodies(alloc, grid)?)?;
    add_section(&mut sections, alloc, "given", agents(alloc, grid)?)?;
    Ok(sections)
}

/// The model, the function file and the agents, as a case gives them.
pub(crate) fn case_of(alloc: Global, grid: Grid) -> Result<Case, AllocError> {
    Ok(Case {
        name: String::new(alloc),
        sections: sections_of(alloc, grid)?,
    })
}
