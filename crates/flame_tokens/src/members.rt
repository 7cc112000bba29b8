//! The members of a population's agents.

ghost use Rattle.std.specs.Prelude.{◌≡◌, ◌++◌, ◌∷◌, codes, IfSome};
ghost use Rattle.json.specs.Token.{end_object, key, string};
ghost use Rattle.json.specs.Tree.{json_tokens};
ghost use Rattle.flame_spec.specs.Columns.{width};
ghost use Rattle.flame_tokens.specs.MemberTrees.{memory_tree, IsWide};

use crate::memories::{closes, memory, passes};
use flame_rows::Row;
use flame_spec::AgentType;
use json::{Reader, Token};
use std::alloc::Global;

/// The name that comes next, behind its key.
pub(crate) fn name<'a>(reader: &mut Reader<'a>) -> Option<&'a str>
    ensures { IfSome result (λ name.
        reader.old ≡ key (codes "name") ∷ string name.now ∷ reader.new) }
{
    passes(reader, "name")?;
    match reader.next()? {
        Token::String(name) => Some(name),
        _ => None,
    }
}

/// The memory of an agent of this type that comes next, behind its key.
pub(crate) fn agent(alloc: Global, reader: &mut Reader<'_>, kind: &AgentType) -> Option<Row>
    ensures tokens { IfSome result (λ row.
        reader.old ≡ key (codes "memory") ∷ (json_tokens (memory_tree kind.now.memory row) ++ end_object ∷ reader.new)) }
    ensures wide { IfSome result (λ row. IsWide (width kind.now.memory) row) }
{
    passes(reader, "memory")?;
    let row = memory(alloc, reader, kind.memory.items())?;
    closes(reader)?;
    Some(Row::of(row))
}
