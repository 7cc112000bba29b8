//! What agents want kept beside the boards that they read.

use flame_agent::{reads_memory, wanted_key};
use flame_cond::SortBy;
use flame_field::Want;
use flame_program::Program;
use flame_route::Route;
use flame_rows::{Bag, NoMemory, number};
use std::alloc::Global;

/// Who reads: so many agents of a function, which may share the views that no memory changes.
#[derive(Clone, Copy)]
struct Readers {
    agents: usize,
    shares_views: bool,
}

/// What the readers of this function want of the board of this input.
fn want_of(program: &Program, function: u32, input: u32, readers: Readers) -> Option<Want> {
    let filter = program.filter(function, input);
    let by = wanted_key(filter, program.sort(function, input))?;
    let views = if readers.shares_views && !reads_memory(filter) {
        1
    } else {
        readers.agents
    };
    Some(Want { by, views })
}

/// Whether two keys are one.
fn is_same(one: SortBy, other: SortBy) -> bool {
    one.variable == other.variable && one.descending == other.descending
}

/// Adds a want to those of a board: where its key is wanted already, its views more.
fn add_want(own: &mut Vec<Want>, want: Want) -> Result<(), NoMemory> {
    for other in &mut *own {
        if is_same(other.by, want.by) {
            other.views = other.views.saturating_add(want.views);
            return Ok(());
        }
    }
    own.push(want)?;
    Ok(())
}

/// Adds what they want of the boards of these messages, which the function inputs.
fn add_wants(
    wants: &mut Vec<Vec<Want>>,
    program: &Program,
    function: u32,
    inputs: &[u32],
    readers: Readers,
) -> Result<(), NoMemory> {
    for i in 0..inputs.len() {
        if let Some(want) = want_of(program, function, number(i)?, readers) {
            if let Some(own) = wants.get_mut(inputs[i] as usize) {
                add_want(own, want)?;
            }
        }
    }
    Ok(())
}

/// Nothing for each of so many messages.
fn no_wants(alloc: Global, messages: usize) -> Result<Vec<Vec<Want>>, NoMemory> {
    let mut wants = Vec::new(alloc);
    for _message in 0..messages {
        wants.push(Vec::new(alloc))?;
    }
    Ok(wants)
}

/// How many agents there are of the type of this route.
fn agents_of(agents: &[Bag], route: &Route) -> usize {
    match agents.get(route.agent as usize) {
        Some(bag) => bag.rows().len(),
        None => 0,
    }
}

/// What all functions want of the boards of all messages.
fn all_wants(
    alloc: Global,
    program: &Program,
    agents: &[Bag],
    shares_views: bool,
) -> Result<Vec<Vec<Want>>, NoMemory> {
    let mut wants = no_wants(alloc, program.source().model.messages.items().len())?;
    let routes = program.routes().routes.items();
    for i in 0..routes.len() {
        let readers = Readers {
            agents: agents_of(agents, &routes[i]),
            shares_views,
        };
        add_wants(
            &mut wants,
            program,
            number(i)?,
            routes[i].inputs.items(),
            readers,
        )?;
    }
    Ok(wants)
}

/// For each message, what the functions that input it want kept beside its board: the key by which their agents find their
/// messages, and how many views they make by it at most, where the iteration begins with these agents. The agents of a
/// function may share the views that no memory changes. Nothing where no memory is found, since what agents read does not
/// depend on it.
pub fn wants_of(
    alloc: Global,
    program: &Program,
    agents: &[Bag],
    shares_views: bool,
) -> Vec<Vec<Want>> {
    match all_wants(alloc, program, agents, shares_views) {
        Ok(wants) => wants,
        Err(_) => Vec::new(alloc),
    }
}
