//! Agent types.

ghost use Rattle.std.specs.Prelude.{◌≡◌, ◌++◌, ◌||◌, [], ◌∷◌, ℕ, List, map, codes, IfOk, IfErr, OnOk};
ghost use Rattle.flame_ops.specs.Ascii.{capitals};
ghost use Rattle.flame_spec.specs.KnownNames.{is_among, variable_names};
ghost use Rattle.flame_spec.specs.NameFaults.{memory_name_faults, memory_variable_faults, memory_faults};
ghost use Rattle.flame_spec.specs.NameFaults.{function_names, agent_faults, agents_faults};
ghost use Rattle.flame_spec.specs.FunctionFaults.{functions_faults};
ghost use Rattle.flame_spec.specs.Paths.{at_key};
ghost use Rattle.flame_names.specs.PlacePaths.{text_of};
ghost use Rattle.flame_spec.specs.FirstFaults.{FailsFirst};
ghost use Rattle.flame_names.specs.TableScopes.{declared_of};

use crate::faults::{add_new, fault, refuse};
use crate::functions::{Tables, functions};
use crate::messages::capitals_of;
use crate::path::Place;
use crate::table::Capitals;
use crate::variables::{Variables, add_variable, refuse_wide};
use flame_name_sets::Names;
use flame_rows::{Fail, NoMemory};
use flame_spec::{AgentType, Function, NameFault, NameKind, Variable};
use std::alloc::Global;

/// The name of the memory variable at this place, behind the earlier ones of its type.
fn add_memory_name<'a>(
    alloc: Global,
    constants: &Capitals,
    place: &Place<'_>,
    variable: &'a Variable,
    earlier: &mut Variables<'a>,
    own: &mut Capitals,
) -> Result<(), Fail<NameFault>>
    requires { own.old ≡ map capitals (variable_names earlier.old) }
    ensures none { OnOk result (memory_name_faults
        constants.now
        (variable_names earlier.old)
        (at_key (text_of place.now) (codes "name"))
        variable.now.name ≡ []) }
    ensures variables { OnOk result (earlier.new ≡ earlier.old ++ variable.now ∷ []) }
    ensures capitals { OnOk result (own.new ≡ map capitals (variable_names earlier.new)) }
    ensures first { IfErr result (FailsFirst (memory_name_faults
        constants.now
        (variable_names earlier.old)
        (at_key (text_of place.now) (codes "name"))
        variable.now.name)) }
{
    add_variable(alloc, place, variable, earlier)?;
    let name = variable.name.as_str();
    let shouted = capitals_of(alloc, name)?;
    let is_constant = constants.has(shouted.as_str());
    if !own.add(shouted)? {
        return Err(fault(alloc, NameKind::Clash, &Place::Key(place, "name"), name));
    }
    refuse(
        alloc,
        is_constant,
        NameKind::Clash,
        &Place::Key(place, "name"),
        name,
    )
}

/// The memory variable at this place, behind the earlier ones of its type: its name, and then its width.
fn add_memory<'a>(
    alloc: Global,
    constants: &Capitals,
    place: &Place<'_>,
    variable: &'a Variable,
    earlier: &mut Variables<'a>,
    own: &mut Capitals,
) -> Result<(), Fail<NameFault>>
    requires { own.old ≡ map capitals (variable_names earlier.old) }
    ensures none { OnOk result
        (memory_variable_faults constants.now earlier.old (text_of place.now) variable.now ≡ []) }
    ensures variables { OnOk result (earlier.new ≡ earlier.old ++ variable.now ∷ []) }
    ensures capitals { OnOk result (own.new ≡ map capitals (variable_names earlier.new)) }
    ensures first { IfErr result
        (FailsFirst (memory_variable_faults constants.now earlier.old (text_of place.now) variable.now)) }
{
    add_memory_name(alloc, constants, place, variable, earlier, own)?;
    refuse_wide(alloc, place, variable, earlier)
}

/// Adds the memory variables of the list at this place to none, with their capitals.
fn add_named<'a, 'p>(
    alloc: Global,
    constants: &Capitals,
    place: &'p Place<'p>,
    variables: &'a [Variable],
    earlier: &mut Variables<'a>,
    own: &mut Capitals,
) -> Result<(), Fail<NameFault>>
    requires variables { earlier.old ≡ [] }
    requires capitals { own.old ≡ [] }
    ensures none { OnOk result (memory_faults constants.now (text_of place.now) variables.now ≡ []) }
    ensures variables { OnOk result (earlier.new ≡ variables.now) }
    ensures first { IfErr result (FailsFirst (memory_faults constants.now (text_of place.now) variables.now)) }
{
    for (i, variable) in variables.iter().enumerate() {
        let place = Place::Member(place, i);
        add_memory(alloc, constants, &place, variable, earlier, own)?;
    }
    Ok(())
}

/// Adds the memory variables of the list at this place to none.
fn add_memories<'a, 'p>(
    alloc: Global,
    constants: &Capitals,
    place: &'p Place<'p>,
    variables: &'a [Variable],
    earlier: &mut Variables<'a>,
) -> Result<(), Fail<NameFault>>
    requires { earlier.old ≡ [] }
    ensures none { OnOk result (memory_faults constants.now (text_of place.now) variables.now ≡ []) }
    ensures variables { OnOk result (earlier.new ≡ variables.now) }
    ensures first { IfErr result (FailsFirst (memory_faults constants.now (text_of place.now) variables.now)) }
{
    let mut own = Capitals::new(alloc);
    add_named(alloc, constants, place, variables, earlier, &mut own)
}

/// The memory variables of the list at this place.
fn memory<'a, 'p>(
    alloc: Global,
    constants: &Capitals,
    place: &'p Place<'p>,
    variables: &'a [Variable],
) -> Result<Variables<'a>, Fail<NameFault>>
    ensures none { OnOk result (memory_faults constants.now (text_of place.now) variables.now ≡ []) }
    ensures variables { IfOk result (λ table. table ≡ variables.now) }
    ensures first { IfErr result (FailsFirst (memory_faults constants.now (text_of place.now) variables.now)) }
{
    let mut earlier = Variables::new(alloc);
    add_memories(alloc, constants, place, variables, &mut earlier)?;
    Ok(earlier)
}

/// Adds the names of a type's functions to those of the earlier types.
fn share<'a>(functions: &'a [Function], shared: &mut Names<'a>) -> Result<(), NoMemory>
    ensures { OnOk result ((name : List ℕ)
        → is_among name shared.new ≡ (is_among name shared.old || is_among name (function_names functions.now))) }
{
    for function in functions {
        let _ = shared.add(function.name.as_str())?;
    }
    Ok(())
}

/// The functions of the list at this place, in a type with this memory, added to those of the earlier types.
fn walk_functions<'a, 'p>(
    alloc: Global,
    tables: &Tables<'_, '_>,
    memory: &Variables<'_>,
    place: &'p Place<'p>,
    members: &'a [Function],
    shared: &mut Names<'a>,
) -> Result<(), Fail<NameFault>>
    ensures none { OnOk result (functions_faults
        (declared_of tables.now)
        memory.now
        (λ name. is_among name shared.old)
        (text_of place.now)
        members.now ≡ []) }
    ensures functions { OnOk result ((name : List ℕ)
        → is_among name shared.new ≡ (is_among name shared.old || is_among name (function_names members.now))) }
    ensures first { IfErr result (FailsFirst (functions_faults
        (declared_of tables.now)
        memory.now
        (λ name. is_among name shared.old)
        (text_of place.now)
        members.now)) }
{
    functions(alloc, tables, memory, shared, place, members)?;
    share(members, shared)?;
    Ok(())
}

/// An agent type behind the earlier ones: its name, its memory, and its functions.
fn add_agent<'a>(
    alloc: Global,
    tables: &Tables<'_, '_>,
    place: &Place<'_>,
    agent: &'a AgentType,
    types: &mut Names<'a>,
    shared: &mut Names<'a>,
) -> Result<(), Fail<NameFault>>
    ensures none { OnOk result (agent_faults
        (declared_of tables.now)
        types.old
        (λ name. is_among name shared.old)
        (text_of place.now)
        agent.now ≡ []) }
    ensures names { OnOk result (types.new ≡ types.old ++ agent.now.name ∷ []) }
    ensures functions { OnOk result ((name : List ℕ)
        → is_among name shared.new
        ≡ (is_among name shared.old || is_among name (function_names agent.now.functions))) }
    ensures first { IfErr result (FailsFirst (agent_faults
        (declared_of tables.now)
        types.old
        (λ name. is_among name shared.old)
        (text_of place.now)
        agent.now)) }
{
    add_new(
        alloc,
        &Place::Key(place, "name"),
        agent.name.as_str(),
        types,
    )?;
    let memory = memory(
        alloc,
        tables.constants,
        &Place::Key(place, "memory"),
        agent.memory.items(),
    )?;
    walk_functions(
        alloc,
        tables,
        &memory,
        &Place::Key(place, "functions"),
        agent.functions.items(),
        shared,
    )
}

/// Adds the agent types of the list at this place to none, and their functions.
fn add_agents<'a, 'p>(
    alloc: Global,
    tables: &Tables<'_, '_>,
    place: &'p Place<'p>,
    agents: &'a [AgentType],
    types: &mut Names<'a>,
    shared: &mut Names<'a>,
) -> Result<(), Fail<NameFault>>
    requires types { types.old ≡ [] }
    requires functions { shared.old ≡ [] }
    ensures none { OnOk result (agents_faults (declared_of tables.now) (text_of place.now) agents.now ≡ []) }
    ensures first { IfErr result
        (FailsFirst (agents_faults (declared_of tables.now) (text_of place.now) agents.now)) }
{
    for (i, agent) in agents.iter().enumerate() {
        let place = Place::Member(place, i);
        add_agent(alloc, tables, &place, agent, types, shared)?;
    }
    Ok(())
}

/// The agent types of the list at this place.
pub fn agents<'p>(
    alloc: Global,
    tables: &Tables<'_, '_>,
    place: &'p Place<'p>,
    agents: &[AgentType],
) -> Result<(), Fail<NameFault>>
    ensures none { OnOk result (agents_faults (declared_of tables.now) (text_of place.now) agents.now ≡ []) }
    ensures first { IfErr result
        (FailsFirst (agents_faults (declared_of tables.now) (text_of place.now) agents.now)) }
{
    let mut types = Names::new(alloc);
    let mut shared = Names::new(alloc);
    add_agents(alloc, tables, place, agents, &mut types, &mut shared)
}
