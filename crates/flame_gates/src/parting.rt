//! How three nodes part four agents, as the gate sees it that they call: by the numbers of their pieces.

use crate::runs::{Given, is_carried_out_so};
use flame_outside::Gate;
use flame_rows::NoMemory;
use std::alloc::Global;
use std::sync::{Mutex, Wait};
use std::test::Fail;
use std::thread::Threads;

/// A type with one function, and four agents, which have a single variable and an array.
const GIVEN: Given = Given {
    model: concat!(
        r#"{"xmodel":{"environment":{"functionFiles":["f.c"]},"agents":[{"name":"A","#,
        r#""memory":[{"type":"int","name":"x"},{"type":"int","name":"h","length":2}],"#,
        r#""functions":[{"name":"f","currentState":"s","nextState":"e"}]}]}}"#,
    ),
    source: "int f() { X++; return 0; }",
    population: concat!(
        r#"{"states":{"itno":0,"agents":[{"name":"A","memory":{"x":1,"h":[0,0]}},"#,
        r#"{"name":"A","memory":{"x":2,"h":[0,0]}},{"name":"A","memory":{"x":3,"h":[0,0]}},"#,
        r#"{"name":"A","memory":{"x":4,"h":[0,0]}}]}}"#,
    ),
};

/// The calls, by their pieces.
#[derive(Clone, Copy, Debug, PartialEq, Eq)]
struct Calls {
    first: u32,
    second: u32,
    third: u32,
    others: u32,
}

/// A gate that counts calls.
#[derive(Drop)]
struct Counting {
    calls: Mutex<Calls>,
}

impl Counting {
    fn new() -> Counting {
        Counting {
            calls: Mutex::new(Calls {
                first: 0,
                second: 0,
                third: 0,
                others: 0,
            }),
        }
    }

    /// The calls so far.
    fn calls<Rt: Wait>(&self, rt: &Rt) -> Calls {
        let calls = self.calls.lock(rt);
        *calls
    }
}

impl Gate for Counting {
    fn enter<Rt: Threads + Wait + Sync>(&self, rt: &Rt, function: u32, piece: u32) {
        let mut calls = self.calls.lock(rt);
        match (function, piece) {
            (0, 0) => calls.first = calls.first.saturating_add(1),
            (0, 1) => calls.second = calls.second.saturating_add(1),
            (0, 2) => calls.third = calls.third.saturating_add(1),
            _ => calls.others = calls.others.saturating_add(1),
        }
    }
}

/// The calls of the gate in a run with these words; none where it was not carried out.
fn calls_with<Rt: Threads + Wait + Sync>(
    rt: &Rt,
    alloc: Global,
    words: &[&str],
) -> Result<Option<Calls>, NoMemory> {
    let gate = Counting::new();
    let carried = is_carried_out_so(rt, alloc, &GIVEN, words, &gate)?;
    Ok(if carried { Some(gate.calls(rt)) } else { None })
}

/// The words of a run of one iteration by three nodes.
const BY_NODES: [&str; 9] = [
    "run",
    "m.json",
    "p.json",
    "o",
    "1",
    "--workers",
    "3",
    "--sync",
    "nodes",
];

/// The calls of the gate in such a run where agents are parted by the variable of this name.
fn calls_by<Rt: Threads + Wait + Sync>(
    rt: &Rt,
    alloc: Global,
    name: &str,
) -> Result<Option<Calls>, NoMemory> {
    let words = [
        "run",
        "m.json",
        "p.json",
        "o",
        "1",
        "--workers",
        "3",
        "--sync",
        "nodes",
        "--by",
        name,
    ];
    calls_with(rt, alloc, &words)
}

/// Two agents, one and one, in turn.
const IN_TURN: Calls = Calls {
    first: 1,
    second: 1,
    third: 1,
    others: 0,
};

/// Two agents and two: an equal share of four among three is two, rounded up, so that the last node has none.
const BY_RANGES: Calls = Calls {
    first: 1,
    second: 1,
    third: 0,
    others: 0,
};

#[test]
fn agents_are_dealt_out_in_turn(rt: HostRuntime) -> Result<(), Fail> {
    assert!(rt; calls_with(&rt, rt.alloc(), &BY_NODES)? == Some(IN_TURN));
    Ok(())
}

#[test]
fn a_variable_parts_by_ranges(rt: HostRuntime) -> Result<(), Fail> {
    assert!(rt; calls_by(&rt, rt.alloc(), "x")? == Some(BY_RANGES));
    Ok(())
}

#[test]
fn an_array_parts_in_turn(rt: HostRuntime) -> Result<(), Fail> {
    assert!(rt; calls_by(&rt, rt.alloc(), "h")? == Some(IN_TURN));
    Ok(())
}

#[test]
fn another_name_parts_in_turn(rt: HostRuntime) -> Result<(), Fail> {
    assert!(rt; calls_by(&rt, rt.alloc(), "cell")? == Some(IN_TURN));
    Ok(())
}
