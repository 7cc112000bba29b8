//! Two workers who meet at a gate.

use crate::runs::{Given, TURNS, is_carried_out};
use flame_outside::Gate;
use flame_rows::NoMemory;
use std::alloc::Global;
use std::sync::{Mutex, Wait};
use std::test::Fail;
use std::thread;
use std::thread::Threads;

/// A type with one function, and two agents.
const GIVEN: Given = Given {
    model: concat!(
        r#"{"xmodel":{"environment":{"functionFiles":["f.c"]},"agents":[{"name":"A","#,
        r#""memory":[{"type":"int","name":"x"}],"#,
        r#""functions":[{"name":"f","currentState":"s","nextState":"e"}]}]}}"#,
    ),
    source: "int f() { X++; return 0; }",
    population: concat!(
        r#"{"states":{"itno":0,"agents":[{"name":"A","memory":{"x":1}},"#,
        r#"{"name":"A","memory":{"x":2}}]}}"#,
    ),
};

/// The calls so far, by their pieces.
#[derive(Clone, Copy, Debug, PartialEq, Eq)]
struct Calls {
    first: u32,
    second: u32,
    others: u32,
    /// Those that waited in vain.
    alone: u32,
}

/// A gate that holds each call until calls for the pieces 0 and 1 of function 0 have come.
#[derive(Drop)]
struct Meeting {
    calls: Mutex<Calls>,
}

impl Meeting {
    fn new() -> Meeting {
        Meeting {
            calls: Mutex::new(Calls {
                first: 0,
                second: 0,
                others: 0,
                alone: 0,
            }),
        }
    }

    /// Notes a call.
    fn note<Rt: Wait>(&self, rt: &Rt, function: u32, piece: u32) {
        let mut calls = self.calls.lock(rt);
        match (function, piece) {
            (0, 0) => calls.first = calls.first.saturating_add(1),
            (0, 1) => calls.second = calls.second.saturating_add(1),
            _ => calls.others = calls.others.saturating_add(1),
        }
    }

    /// Notes that a call waited in vain.
    fn give_up<Rt: Wait>(&self, rt: &Rt) {
        let mut calls = self.calls.lock(rt);
        calls.alone = calls.alone.saturating_add(1);
    }

    /// The calls so far.
    fn calls<Rt: Wait>(&self, rt: &Rt) -> Calls {
        let calls = self.calls.lock(rt);
        *calls
    }
}

impl Gate for Meeting {
    fn enter<Rt: Threads + Wait + Sync>(&self, rt: &Rt, function: u32, piece: u32) {
        self.note(rt, function, piece);
        for _ in 0..TURNS {
            let calls = self.calls(rt);
            if calls.first > 0 && calls.second > 0 {
                return;
            }
            thread::yield_now();
        }
        self.give_up(rt);
    }
}

/// The calls of the gate in a run by this way; none where it was not carried out.
fn calls_of<Rt: Threads + Wait + Sync>(
    rt: &Rt,
    alloc: Global,
    way: &str,
) -> Result<Option<Calls>, NoMemory> {
    let gate = Meeting::new();
    let carried = is_carried_out(rt, alloc, &GIVEN, way, &gate)?;
    Ok(if carried { Some(gate.calls(rt)) } else { None })
}

/// Each piece was entered once, no other was, and none waited in vain.
const MET: Calls = Calls {
    first: 1,
    second: 1,
    others: 0,
    alone: 0,
};

#[test]
fn workers_of_a_layer_meet(rt: HostRuntime) -> Result<(), Fail> {
    assert!(rt; calls_of(&rt, rt.alloc(), "layers")? == Some(MET));
    Ok(())
}

#[test]
fn workers_of_a_flow_meet(rt: HostRuntime) -> Result<(), Fail> {
    assert!(rt; calls_of(&rt, rt.alloc(), "flow")? == Some(MET));
    Ok(())
}

#[test]
fn nodes_meet(rt: HostRuntime) -> Result<(), Fail> {
    assert!(rt; calls_of(&rt, rt.alloc(), "nodes")? == Some(MET));
    Ok(())
}
