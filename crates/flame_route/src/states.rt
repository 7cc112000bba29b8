//! The states of an agent type.

ghost use Rattle.std.specs.Prelude.{◌≡◌, ◌++◌, [], IfOk, OnOk};
ghost use Rattle.flame_spec.specs.States.{distinct_after, ends, states};

use flame_name_sets::Names;
use flame_rows::NoMemory;
use flame_spec::Function;
use std::alloc::Global;

/// Adds the states that these functions leave and enter.
fn add_ends<'a>(own: &mut Names<'a>, functions: &'a [Function]) -> Result<(), NoMemory>
    ensures { OnOk result (own.new ≡ own.old ++ distinct_after own.old (ends functions.now)) }
{
    for function in functions {
        let _left = own.add(function.current.as_str())?;
        let _entered = own.add(function.next.as_str())?;
    }
    Ok(())
}

/// Adds the states of a type with these functions where there are no names yet.
fn add_states<'a>(own: &mut Names<'a>, functions: &'a [Function]) -> Result<(), NoMemory>
    requires { own.old ≡ [] }
    ensures { OnOk result (own.new ≡ states functions.now) }
{
    if functions.is_empty() {
        let _added = own.add("start")?;
        return Ok(());
    }
    add_ends(own, functions)?;
    Ok(())
}

/// The states of a type with these functions, each once, in the order in which they come.
pub(crate) fn states_of(alloc: Global, functions: &[Function]) -> Result<Names<'_>, NoMemory>
    ensures { IfOk result (λ found. found ≡ states functions.now) }
{
    let mut found = Names::new(alloc);
    add_states(&mut found, functions)?;
    Ok(found)
}
