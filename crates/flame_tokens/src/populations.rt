//! Populations.

ghost use Rattle.std.specs.Prelude.{IfSome, option_map};
ghost use Rattle.json.specs.Lex.{tokens};
ghost use Rattle.flame_rows.specs.RowVectors.{rows_of};
ghost use Rattle.flame_tokens.specs.PopulationTrees.{IsWhole, IsPopulation};

use crate::parts::{bags_of, constants_or, number_or};
use crate::states::{States, whole};
use flame_rows::{Bag, Row, Seq};
use flame_spec::Model;
use json::{Reader, Scratch};
use std::alloc::Global;
use std::str;

/// What a population holds.
#[derive(Debug, Drop)]
pub struct Population {
    /// The number of its iteration.
    pub itno: i32,
    /// The constants, in the order of the model.
    pub constants: Row,
    /// The agents of each type, in the order of the model: the bag of their memories.
    pub agents: Seq<Bag>,
}

/// The states of the population that a text is.
fn states_of(alloc: Global, text: &str, model: &Model) -> Option<States>
    ensures { IfSome result (λ found. IsWhole model.now found.itno
        (option_map (λ values. values.items) found.constants) (rows_of found.agents) (tokens text.now)) }
{
    let mut scratch = Scratch::new(alloc);
    let Ok(mut reader) = Reader::new(text, &mut scratch) else {
        return None;
    };
    whole(alloc, &mut reader, model)
}

/// The population that the bytes are, where they write one of the model as a writer does: the states alone, and in them, each
/// once and in this order, the number of the version, that of the iteration, the environment, the agents and the boards, of
/// which all but the agents may be missing; and each number as it is printed. In version 1 all constants stand by their names
/// in the order of the model, an agent's name before its memory, and in that all variables in declared order; in version 2 the
/// constants are a list of their values, and each type stands once, in the order of the model, its name before its rows. The
/// boards are passed over: whole numbers of int, texts, lists and objects, nested 5 deep at most.
/// `None` says nothing: the bytes are written in another way, or are no population, or memory was not found.
pub fn read(alloc: Global, bytes: &[u8], model: &Model) -> Option<Population>
    ensures { IfSome result (λ found.
        IsPopulation model.now found.itno found.constants found.agents bytes.now) }
{
    let Ok(text) = str::from_utf8(bytes) else {
        return None;
    };
    let States {
        itno,
        constants,
        agents,
    } = states_of(alloc, text, model)?;
    let constants = constants_or(alloc, constants, model.constants.items().len())?;
    let agents = bags_of(alloc, agents)?;
    Some(Population {
        itno: number_or(itno),
        constants,
        agents,
    })
}
