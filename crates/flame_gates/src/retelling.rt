//! Traces by two workers that are replayed.

use crate::runs::{Given, is_retold};
use std::test::Fail;

/// Three types with a function each: what A reads B sends, and A and C fault. The fault of A is told, whichever came first.
const FAULTING: Given = Given {
    model: concat!(
        r#"{"xmodel":{"environment":{"functionFiles":["f.c"]},"agents":["#,
        r#"{"name":"A","memory":[{"type":"int","name":"x"}],"#,
        r#""functions":[{"name":"read","currentState":"s","nextState":"e","inputs":[{"messageName":"m"}]}]},"#,
        r#"{"name":"B","memory":[{"type":"int","name":"x"}],"#,
        r#""functions":[{"name":"write","currentState":"s","nextState":"e","outputs":[{"messageName":"m"}]}]},"#,
        r#"{"name":"C","memory":[{"type":"int","name":"x"}],"#,
        r#""functions":[{"name":"late","currentState":"s","nextState":"e"}]}],"#,
        r#""messages":[{"name":"m","variables":[{"type":"int","name":"v"}]}]}}"#,
    ),
    source: concat!(
        "int read() { START_M_MESSAGE_LOOP FINISH_M_MESSAGE_LOOP set_x(1 / 0); return 0; }\n",
        "int write() { add_m_message(get_x()); return 0; }\n",
        "int late() { set_x(1 % 0); return 0; }\n",
    ),
    population: concat!(
        r#"{"states":{"itno":0,"agents":[{"name":"A","memory":{"x":1}},"#,
        r#"{"name":"B","memory":{"x":2}},{"name":"C","memory":{"x":3}}]}}"#,
    ),
};

/// Two agents who send, in two pieces, and one who counts what was sent.
const COUNTING: Given = Given {
    model: concat!(
        r#"{"xmodel":{"environment":{"functionFiles":["f.c"]},"agents":["#,
        r#"{"name":"S","memory":[{"type":"int","name":"x"}],"#,
        r#""functions":[{"name":"send","currentState":"s","nextState":"e","outputs":[{"messageName":"m"}]}]},"#,
        r#"{"name":"R","memory":[{"type":"int","name":"n"}],"#,
        r#""functions":[{"name":"count","currentState":"s","nextState":"e","inputs":[{"messageName":"m"}]}]}],"#,
        r#""messages":[{"name":"m","variables":[{"type":"int","name":"v"}]}]}}"#,
    ),
    source: concat!(
        "int send() { add_m_message(5); return 0; } ",
        "int count() { START_M_MESSAGE_LOOP N++; FINISH_M_MESSAGE_LOOP return 0; }",
    ),
    population: concat!(
        r#"{"states":{"itno":0,"agents":[{"name":"S","memory":{"x":1}},"#,
        r#"{"name":"S","memory":{"x":2}},{"name":"R","memory":{"n":0}}]}}"#,
    ),
};

/// The line of the fault of A.
const FAULT: &str = "fault: iteration 1: A.read: DivideByZero at line 1: memory x=1\n";

#[test]
fn the_trace_of_a_fault_is_replayed(rt: HostRuntime) -> Result<(), Fail> {
    assert!(rt; is_retold(&rt, rt.alloc(), &FAULTING, 3, FAULT)?);
    Ok(())
}

#[test]
fn the_trace_of_a_board_is_replayed(rt: HostRuntime) -> Result<(), Fail> {
    assert!(rt; is_retold(&rt, rt.alloc(), &COUNTING, 0, "")?);
    Ok(())
}
