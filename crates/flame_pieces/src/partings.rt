//! Messages parted by the outputs of a function.

ghost use Rattle.std.specs.Prelude.{◌≡◌, ◌==◌, ◌++◌, [], ◌∷◌, List, IfOk, OnOk, length, map};
ghost use Rattle.std.specs.List.{position};
ghost use Rattle.flame_spec.specs.declared.outcomes.Sent.{Sent as One};
ghost use Rattle.flame_spec.specs.Below.{HasNoTwice};
ghost use Rattle.flame_world.specs.AgentRuns.{messages_of};

use flame_rows::{NoMemory, Row};
use flame_spec::Sent;
use std::alloc::Global;

/// No messages, for each output.
fn no_parts(alloc: Global, outputs: &[u32]) -> Result<Vec<Vec<Row>>, NoMemory>
    ensures { IfOk result (λ parts. map (λ rows. rows.items) parts.items ≡ map (messages_of []) outputs.now) }
{
    let mut parts = Vec::new(alloc);
    for _output in outputs {
        parts.push(Vec::new(alloc))?;
    }
    Ok(parts)
}

/// The place of this message among these outputs, where it is one.
fn place_of(outputs: &[u32], message: u32) -> Option<usize>
    ensures { result ≡ position (λ output. output == message) outputs.now }
{
    outputs.iter().position(|output| *output == message)
}

/// The message joins those of its output. One of no output is none.
fn add_message(parts: &mut [Vec<Row>], outputs: &[u32], one: Sent) -> Result<(), NoMemory>
    requires { length parts.old ≡ length outputs.now }
    ensures { OnOk result ((sent : List One) → HasNoTwice outputs.now
        → map (λ rows. rows.items) parts.old ≡ map (messages_of sent) outputs.now
        → map (λ rows. rows.items) parts.new ≡ map (messages_of (sent ++ one ∷ [])) outputs.now) }
{
    if let Some(place) = place_of(outputs, one.message) {
        parts[place].push(one.row)?;
    }
    Ok(())
}

/// For each of these outputs, of which none stands twice, the messages of its type, in the order in which they were sent.
pub fn parted(alloc: Global, outputs: &[u32], sent: Vec<Sent>) -> Result<Vec<Vec<Row>>, NoMemory>
    requires { HasNoTwice outputs.now }
    ensures { IfOk result (λ parts. map (λ rows. rows.items) parts.items ≡ map (messages_of sent.items) outputs.now) }
{
    let mut parts = no_parts(alloc, outputs)?;
    for one in sent {
        add_message(&mut parts, outputs, one)?;
    }
    Ok(parts)
}
