//! The states of a population.

ghost use Rattle.std.specs.Prelude.{◌≡◌, ◌++◌, ◌∷◌, codes, false, option_map, IfSome, OnSome};
ghost use Rattle.json.specs.Token.{key};
ghost use Rattle.json.specs.Tree.{json_tokens};
ghost use Rattle.flame_tokens.specs.MemberTrees.{keyed, object_tree};
ghost use Rattle.flame_rows.specs.RowVectors.{rows_of};
ghost use Rattle.flame_tokens.specs.PopulationTrees.{constant_trees, version_number, version_trees, itno_trees};
ghost use Rattle.flame_tokens.specs.PopulationTrees.{environment_tree, environment_trees, IsItno, AreConstants};
ghost use Rattle.flame_tokens.specs.PopulationTrees.{HasAgents, HasBoards, AreStates, IsWhole};

use crate::agents::agents;
use crate::bags::bags;
use crate::memories::{closes, opens, passes};
use crate::numbers::{add, list, number};
use crate::passing::pass;
use crate::types::Types;
use flame_rows::{Row, Text};
use flame_spec::{AgentType, Model};
use json::{Reader, Token};
use std::alloc::Global;

/// What the states hold: the number of the iteration and the constants, where they stand there, and each type's agents.
#[derive(Drop)]
pub(crate) struct States {
    /// The number of the iteration.
    pub(crate) itno: Option<i32>,
    /// The constants, in the order of the model.
    pub(crate) constants: Option<Vec<i32>>,
    /// The agents of each type, in the order of the text.
    pub(crate) agents: Vec<Vec<Row>>,
}

/// The key that comes next.
fn next_key<'a>(reader: &mut Reader<'a>) -> Option<&'a str>
    ensures { IfSome result (λ name. reader.old ≡ key name.now ∷ reader.new) }
{
    match reader.next()? {
        Token::Key(name) => Some(name),
        _ => None,
    }
}

/// Whether this is the number of version 2, and not that of version 1.
fn names_two(version: i32) -> Option<bool>
    ensures { IfSome result (λ two. version ≡ version_number two) }
{
    match version {
        1 => Some(false),
        2 => Some(true),
        _ => None,
    }
}

/// Whether it is version 2, where this key is that of the version, and the key behind it; else this key.
fn version_at<'a>(reader: &mut Reader<'a>, first: &'a str) -> Option<(Option<bool>, &'a str)>
    ensures { IfSome result (λ found.
        key first.now ∷ reader.old ≡ keyed (version_trees found.0) ++ key found.1.now ∷ reader.new) }
{
    if first != "version" {
        return Some((None, first));
    }
    let version = number(reader)?;
    let two = names_two(version)?;
    let next = next_key(reader)?;
    Some((Some(two), next))
}

/// The number of the iteration, where this key is its, and the key behind it; else this key.
fn itno_at<'a>(reader: &mut Reader<'a>, first: &'a str) -> Option<(Option<i32>, &'a str)>
    ensures tokens { IfSome result (λ found.
        key first.now ∷ reader.old ≡ keyed (itno_trees found.0) ++ key found.1.now ∷ reader.new) }
    ensures itno { IfSome result (λ found. IfSome found.0 IsItno) }
{
    if first != "itno" {
        return Some((None, first));
    }
    let itno = number(reader)?;
    if itno < 0 {
        return None;
    }
    let next = next_key(reader)?;
    Some((Some(itno), next))
}

/// The values of constants, each behind its name, that come next.
fn values(alloc: Global, reader: &mut Reader<'_>, names: &[Text]) -> Option<Vec<i32>>
    ensures tokens { IfSome result (λ values.
        reader.old ≡ keyed (constant_trees names.now values.items) ++ reader.new) }
    ensures constants { IfSome result (λ values. AreConstants names.now values.items) }
{
    let mut values = Vec::new(alloc);
    for name in names {
        passes(reader, name.as_str())?;
        let value = number(reader)?;
        add(&mut values, value)?;
    }
    Some(values)
}

/// The object of the constants, in the order of the model, that comes next.
#[tactic(auto, using(crate::proofs::TokenLists::object_closed))]
fn constants(alloc: Global, reader: &mut Reader<'_>, names: &[Text]) -> Option<Vec<i32>>
    ensures tokens { IfSome result (λ values.
        reader.old ≡ json_tokens (object_tree (constant_trees names.now values.items)) ++ reader.new) }
    ensures constants { IfSome result (λ values. AreConstants names.now values.items) }
{
    opens(reader)?;
    let values = values(alloc, reader, names)?;
    closes(reader)?;
    Some(values)
}

/// The constants that come next: by their names, or in version 2 a row.
fn environment(
    alloc: Global,
    reader: &mut Reader<'_>,
    names: &[Text],
    two: bool,
) -> Option<Vec<i32>>
    ensures tokens { IfSome result (λ values.
        reader.old ≡ json_tokens (environment_tree two names.now values.items) ++ reader.new) }
    ensures constants { IfSome result (λ values. AreConstants names.now values.items) }
{
    if two {
        list(alloc, reader, names.len())
    } else {
        constants(alloc, reader, names)
    }
}

/// The constants, where this key is that of the environment, and the key behind them; else this key.
#[tactic(auto, using(crate::proofs::TokenLists::keyed_one))]
fn environment_at<'a>(
    alloc: Global,
    reader: &mut Reader<'a>,
    model: &Model,
    two: bool,
    first: &'a str,
) -> Option<(Option<Vec<i32>>, &'a str)>
    ensures tokens { IfSome result (λ found. key first.now ∷ reader.old
        ≡ keyed (environment_trees two model.now.constants (option_map (λ values. values.items) found.0))
        ++ key found.1.now ∷ reader.new) }
    ensures constants { IfSome result (λ found.
        IfSome (option_map (λ values. values.items) found.0) (AreConstants model.now.constants)) }
{
    if first != "environment" {
        return Some((None, first));
    }
    let values = environment(alloc, reader, model.constants.items(), two)?;
    let next = next_key(reader)?;
    Some((Some(values), next))
}

/// Passes what may follow the agents, the boards, and the brace that closes the states.
fn boards(reader: &mut Reader<'_>) -> Option<()>
    ensures { OnSome result (HasBoards reader.old reader.new) }
{
    match reader.next()? {
        Token::EndObject => Some(()),
        Token::Key(name) => {
            if name != "boards" {
                return None;
            }
            pass(reader, 5)?;
            closes(reader)?;
            Some(())
        }
        _ => None,
    }
}

/// The agents of each type that come next one by one.
fn listed(alloc: Global, reader: &mut Reader<'_>, types: &[AgentType]) -> Option<Vec<Vec<Row>>>
    ensures { IfSome result (λ dealt.
        HasAgents false types.now reader.old reader.new (rows_of dealt)) }
{
    let table = Types::of(alloc, types)?;
    let dealt = agents(alloc, reader, &table)?;
    Some(dealt)
}

/// The agents of each type that come next, where this key is theirs.
fn agents_at(
    alloc: Global,
    reader: &mut Reader<'_>,
    model: &Model,
    two: bool,
    first: &str,
) -> Option<Vec<Vec<Row>>>
    ensures key { OnSome result (first.now ≡ codes "agents") }
    ensures agents { IfSome result (λ dealt.
        HasAgents two model.now.agents reader.old reader.new (rows_of dealt)) }
{
    if first != "agents" {
        return None;
    }
    if two {
        bags(alloc, reader, model.agents.items())
    } else {
        listed(alloc, reader, model.agents.items())
    }
}

/// The states that come next behind their opening brace.
fn states_in(alloc: Global, reader: &mut Reader<'_>, model: &Model) -> Option<States>
    ensures { IfSome result (λ found. AreStates model.now found.itno
        (option_map (λ values. values.items) found.constants) (rows_of found.agents) reader.old reader.new) }
{
    let first = next_key(reader)?;
    let (version, second) = version_at(reader, first)?;
    let two = version.unwrap_or(false);
    let (itno, third) = itno_at(reader, second)?;
    let (constants, fourth) = environment_at(alloc, reader, model, two, third)?;
    let agents = agents_at(alloc, reader, model, two, fourth)?;
    boards(reader)?;
    Some(States {
        itno,
        constants,
        agents,
    })
}

/// The states of the population that the tokens of a text are.
pub(crate) fn whole(alloc: Global, reader: &mut Reader<'_>, model: &Model) -> Option<States>
    ensures { IfSome result (λ found. IsWhole model.now found.itno
        (option_map (λ values. values.items) found.constants) (rows_of found.agents) reader.old) }
{
    opens(reader)?;
    passes(reader, "states")?;
    opens(reader)?;
    let found = states_in(alloc, reader, model)?;
    closes(reader)?;
    match reader.next() {
        None => Some(found),
        Some(_) => None,
    }
}
