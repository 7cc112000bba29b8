//! The codes that are timed, as the compiler makes them: listings with an instruction a line, behind the height of the
//! stack before it.

use flame_case_codes::code_in;
use flame_code::{Code, Helpers};
use flame_machine::helpers_of;
use flame_rows::Seq;
use flame_spec::Widths;
use std::alloc::{AllocError, Global};

/// The width of the memory: `X`, and `H` of length 7.
pub(crate) const WIDTH: u32 = 8;

/// `int i; int s = 0; for (i = 0;`
const HEAD: &str = "0 Push 0\n1 SetLoc 0\n0 Push 0\n1 SetLoc 1\n0 Push 0\n1 SetLoc 0\n";

/// `i++`, and the left side of the test
const STEP: &str = "0 Loc 0\n1 Push 1\n2 Add 1\n1 SetLoc 0\n0 Loc 0\n";

/// The rest of the test, and `X = s; return 0;`
const END: &str =
    "2 Lt\n1 JumpNotZero 7\n0 Loc 1\n1 SetMem 0\n0 Push 0\n1 Return\n0 Push 0\n1 Return\n";

/// `s = s + i % 7;`
const SUM: &str = "0 Loc 1\n1 Loc 0\n2 Push 7\n3 Rem 1\n2 Add 1\n1 SetLoc 1\n";

/// `{ int t = rest(i); s = s + t; }`
const CALL: &str = "0 Loc 0\n1 Call 1 0 1\n1 SetLoc 2\n0 Loc 1\n1 Loc 2\n2 Add 1\n1 SetLoc 1\n";

/// `H[i % 7]`, of which the index stays, and which then is on the stack
const ELEMENT: &str = "0 Loc 0\n1 Push 7\n2 Rem 1\n1 Loc 0\n2 Push 7\n3 Rem 1\n2 MemAt 1 1 7\n";

/// `H[i % 7] = ` the same `+ 1;`
const MORE: &str = "2 Push 1\n3 Add 1\n2 SetMemAt 1 1 7\n";

/// `int rest(int n) { return n % 7; }`
const REST: &str = "0 Loc 0\n1 Push 7\n2 Rem 1\n1 Return\n0 Push 0\n1 Return\n";

/// A loop that is timed.
#[derive(Clone, Copy)]
pub(crate) enum Timed {
    /// The loop of a sum.
    Sum,
    /// The loop with a call of a helper.
    Helper,
    /// The loop with an element of an array.
    Element,
}

/// The valid code of a listing, which sees this much memory.
fn valid(alloc: Global, text: &str, memory: u32) -> Result<Option<Code>, AllocError> {
    let widths = Widths {
        memory,
        constants: 0,
        inputs: Seq::of(Vec::new(alloc)),
        messages: Seq::of(Vec::new(alloc)),
        agents: Seq::of(Vec::new(alloc)),
    };
    code_in(alloc, text, widths)
}

/// The listing of the loop with this body, which begins at place 8, and with its test at this place.
fn listing(alloc: Global, body: &str, test: u32, turns: i32) -> Result<String, AllocError> {
    let mut text = format!(in alloc; "{HEAD}0 Jump {test}\n0 Pay 1\n")?;
    text.push_str(body)?;
    text.push_str(STEP)?;
    writeln!(text, "1 Push {turns}")?;
    text.push_str(END)?;
    Ok(text)
}

/// The loop with this body, and with its test at this place.
fn looped(alloc: Global, body: &str, test: u32, turns: i32) -> Result<Option<Code>, AllocError> {
    let text = listing(alloc, body, test, turns)?;
    valid(alloc, text.as_str(), WIDTH)
}

/// The loop of an element.
fn elements(alloc: Global, turns: i32) -> Result<Option<Code>, AllocError> {
    let body = format!(in alloc; "{ELEMENT}{MORE}")?;
    looped(alloc, body.as_str(), 22, turns)
}

impl Timed {
    /// Its name.
    pub(crate) fn name(self) -> &'static str {
        match self {
            Timed::Sum => "sum",
            Timed::Helper => "helper",
            Timed::Element => "element",
        }
    }

    /// How many instructions run in each turn.
    pub(crate) fn in_turn(self) -> u64 {
        match self {
            Timed::Sum => 15,
            Timed::Helper => 20,
            Timed::Element => 19,
        }
    }

    /// Its code, which turns so often.
    pub(crate) fn code(self, alloc: Global, turns: i32) -> Result<Option<Code>, AllocError> {
        match self {
            Timed::Sum => looped(alloc, SUM, 18, turns),
            Timed::Helper => looped(alloc, CALL, 19, turns),
            Timed::Element => elements(alloc, turns),
        }
    }
}

/// A list of this alone.
fn alone<T: Drop>(alloc: Global, item: T) -> Result<Seq<T>, AllocError> {
    let mut items = Vec::new(alloc);
    items.push(item)?;
    Ok(Seq::of(items))
}

/// The helper that is called.
pub(crate) fn helpers(alloc: Global) -> Result<Option<Helpers>, AllocError> {
    match valid(alloc, REST, 0)? {
        Some(rest) => Ok(helpers_of(alone(alloc, rest)?, alone(alloc, 1)?, &[1])),
        None => Ok(None),
    }
}
