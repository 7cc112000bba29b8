//! A function of a later layer that runs while one of an earlier layer does.

use crate::runs::{Given, TURNS, is_carried_out, trace_of};
use flame_outside::Gate;
use flame_rows::NoMemory;
use std::alloc::Global;
use std::sync::{Mutex, Wait};
use std::test::Fail;
use std::thread;
use std::thread::Threads;

/// Three types with a function each: a, b and c. c reads what b sends, so that it stands a layer behind a and b.
const GIVEN: Given = Given {
    model: concat!(
        r#"{"xmodel":{"environment":{"functionFiles":["f.c"]},"agents":["#,
        r#"{"name":"A","memory":[{"type":"int","name":"x"}],"#,
        r#""functions":[{"name":"a","currentState":"s","nextState":"e"}]},"#,
        r#"{"name":"B","memory":[{"type":"int","name":"x"}],"#,
        r#""functions":[{"name":"b","currentState":"s","nextState":"e","outputs":[{"messageName":"m"}]}]},"#,
        r#"{"name":"C","memory":[{"type":"int","name":"x"}],"#,
        r#""functions":[{"name":"c","currentState":"s","nextState":"e","inputs":[{"messageName":"m"}]}]}],"#,
        r#""messages":[{"name":"m","variables":[{"type":"int","name":"v"}]}]}}"#,
    ),
    source: concat!(
        "int a() { X++; return 0; } ",
        "int b() { add_m_message(X); return 0; } ",
        "int c() { START_M_MESSAGE_LOOP X = X + m_message->v; FINISH_M_MESSAGE_LOOP return 0; }",
    ),
    population: concat!(
        r#"{"states":{"itno":0,"agents":[{"name":"A","memory":{"x":1}},"#,
        r#"{"name":"B","memory":{"x":2}},{"name":"C","memory":{"x":3}}]}}"#,
    ),
};

/// The calls so far, by their functions.
#[derive(Clone, Copy, Debug, PartialEq, Eq)]
struct Calls {
    a: u32,
    b: u32,
    c: u32,
    others: u32,
    /// Those that waited in vain.
    alone: u32,
}

/// A gate that holds the call for a until one for c has come.
#[derive(Drop)]
struct Overtaking {
    calls: Mutex<Calls>,
}

impl Overtaking {
    fn new() -> Overtaking {
        Overtaking {
            calls: Mutex::new(Calls {
                a: 0,
                b: 0,
                c: 0,
                others: 0,
                alone: 0,
            }),
        }
    }

    /// Notes a call.
    fn note<Rt: Wait>(&self, rt: &Rt, function: u32, piece: u32) {
        let mut calls = self.calls.lock(rt);
        match (function, piece) {
            (0, 0) => calls.a = calls.a.saturating_add(1),
            (1, 0) => calls.b = calls.b.saturating_add(1),
            (2, 0) => calls.c = calls.c.saturating_add(1),
            _ => calls.others = calls.others.saturating_add(1),
        }
    }

    /// Notes that a call waited in vain.
    fn give_up<Rt: Wait>(&self, rt: &Rt) {
        let mut calls = self.calls.lock(rt);
        calls.alone = calls.alone.saturating_add(1);
    }

    /// The calls so far.
    fn calls<Rt: Wait>(&self, rt: &Rt) -> Calls {
        let calls = self.calls.lock(rt);
        *calls
    }
}

impl Gate for Overtaking {
    fn enter<Rt: Threads + Wait + Sync>(&self, rt: &Rt, function: u32, piece: u32) {
        self.note(rt, function, piece);
        if function != 0 {
            return;
        }
        for _ in 0..TURNS {
            if self.calls(rt).c > 0 {
                return;
            }
            thread::yield_now();
        }
        self.give_up(rt);
    }
}

/// The calls of the gate in a run by flow; none where it was not carried out.
fn calls_of<Rt: Threads + Wait + Sync>(rt: &Rt, alloc: Global) -> Result<Option<Calls>, NoMemory> {
    let gate = Overtaking::new();
    let carried = is_carried_out(rt, alloc, &GIVEN, "flow", &gate)?;
    Ok(if carried { Some(gate.calls(rt)) } else { None })
}

/// Each function was entered once, and c while a was held.
const OVERTOOK: Calls = Calls {
    a: 1,
    b: 1,
    c: 1,
    others: 0,
    alone: 0,
};

#[test]
fn a_flow_waits_for_no_layer(rt: HostRuntime) -> Result<(), Fail> {
    assert!(rt; calls_of(&rt, rt.alloc())? == Some(OVERTOOK));
    Ok(())
}

/// Whether the first text stands in the trace before the second.
fn stand_so(trace: &str, first: &str, second: &str) -> bool {
    match (trace.find(first), trace.find(second)) {
        (Some(first), Some(second)) => first < second,
        _ => false,
    }
}

/// Whether the trace of an iteration has b shut before the agent of a has run, and none waited in vain.
fn is_traced_so<Rt: Threads + Wait + Sync>(rt: &Rt, alloc: Global) -> Result<bool, NoMemory> {
    let gate = Overtaking::new();
    let trace = trace_of(rt, alloc, &GIVEN, &gate)?;
    Ok(gate.calls(rt) == OVERTOOK && stand_so(trace.as_str(), "\nshut 1\n", "\nagent 0 0\n"))
}

#[test]
fn a_trace_tells_what_overtook(rt: HostRuntime) -> Result<(), Fail> {
    assert!(rt; is_traced_so(&rt, rt.alloc())?);
    Ok(())
}
