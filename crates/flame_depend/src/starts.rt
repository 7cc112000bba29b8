//! Start states.

ghost use Rattle.std.specs.Prelude.{◌≡◌, ℕ, List, [], ◌∷◌, ◌++◌, ◌^◌, ◌<◌, ◌||◌, not, IfOk, OnOk, length};
ghost use Rattle.std.specs.List.{All};
ghost use Rattle.std.specs.Str.{bytes_eq};
ghost use Rattle.std.specs.HashSet.{contains_text};
ghost use Rattle.flame_spec.specs.States.{is_entered, start_states};
ghost use Rattle.flame_depend.specs.Plans.{AreStarts};

use crate::faults::ManyStarts;
use flame_rows::{NoMemory, Seq, Text};
use flame_spec::{AgentType, Function};
use std::alloc::Global;
use std::collections::HashSet;

/// Adds the text, and tells whether it is new.
fn enter(alloc: Global, texts: &mut HashSet<String>, text: &str) -> Result<bool, NoMemory>
    ensures added { IfOk result (λ added. added ≡ not (contains_text texts.old text.now)) }
    ensures after { OnOk result (
        (q : List ℕ)
        → contains_text texts.new q
        ≡ (contains_text texts.old q || bytes_eq text.now q)) }
{
    let copy = String::from_str(alloc, text)?;
    let added = texts.insert(copy)?;
    Ok(added)
}

/// The states that one of these functions enters.
pub fn entered_states(alloc: Global, functions: &[Function]) -> Result<HashSet<String>, NoMemory>
    ensures { IfOk result (λ texts. (q : List ℕ) → contains_text texts q ≡ is_entered functions.now q) }
{
    let mut texts: HashSet<String> = HashSet::new(alloc);
    for function in functions {
        let _added = enter(alloc, &mut texts, function.next.as_str())?;
    }
    Ok(texts)
}

/// The states that functions of a type leave and none enters, in the order of their first function.
fn unentered_states(alloc: Global, functions: &[Function]) -> Result<Vec<Text>, NoMemory>
    requires { 0 < length functions.now }
    ensures { IfOk result (λ states. states.items ≡ start_states functions.now) }
{
    let mut passed = entered_states(alloc, functions)?;
    let mut states: Vec<Text> = Vec::new(alloc);
    for function in functions {
        if enter(alloc, &mut passed, function.current.as_str())? {
            states.push(Text::of(alloc, function.current.as_str())?)?;
        }
    }
    Ok(states)
}

/// The state of a type without functions.
fn lone_state(alloc: Global) -> Result<Vec<Text>, NoMemory>
    ensures { IfOk result (λ states. states.items ≡ start_states []) }
{
    let mut states: Vec<Text> = Vec::new(alloc);
    states.push(Text::of(alloc, "start")?)?;
    Ok(states)
}

/// The start states of a type, in the order of their first function.
pub fn start_states_of(alloc: Global, functions: &[Function]) -> Result<Vec<Text>, NoMemory>
    ensures { IfOk result (λ states. states.items ≡ start_states functions.now) }
{
    if functions.is_empty() {
        lone_state(alloc)
    } else {
        unentered_states(alloc, functions)
    }
}

/// The start states of a model's types.
#[derive(Drop)]
pub enum Found {
    /// Each type has one.
    Lone(Vec<Text>),
    /// A type has two or more.
    Many(ManyStarts),
}

/// The start state of each type, or the first type with two or more.
pub fn find_starts(alloc: Global, agents: &[AgentType]) -> Result<Found, NoMemory>
    requires few { length agents.now < 2 ^ 32 }
    requires some { All (λ kind. 0 < length (start_states kind.functions)) agents.now }
    ensures { IfOk result (AreStarts agents.now) }
{
    let mut starts: Vec<Text> = Vec::new(alloc);
    for (i, agent) in agents.iter().enumerate() {
        let mut states = start_states_of(alloc, agent.functions.items())?;
        if states.len() > 1 {
            return Ok(Found::Many(ManyStarts {
                agent: i as u32,
                states: Seq::of(states),
            }));
        }
        starts.append(&mut states)?;
    }
    Ok(Found::Lone(starts))
}
