//! The agents of a population.

ghost use Rattle.std.specs.Prelude.{◌≡◌, ◌++◌, ◌∷◌, [], codes, map, option_map, length, replicate, Some, if◌then◌else◌, IfOk, IfErr, OnOk};
ghost use Rattle.serde_json.specs.View.{view};
ghost use Rattle.flame_spec.specs.FirstFaults.{FailsFirst, Reads, Passes};
ghost use Rattle.flame_xmml.specs.ValueParts.{part};
ghost use Rattle.flame_popfile.specs.PopulationParts.{optional, list_faults, members_of, numbers_of, name_in, refused};
ghost use Rattle.flame_spec.specs.Columns.{width};
ghost use Rattle.flame_spec.specs.KnownNames.{is_among};
ghost use Rattle.flame_popfile.specs.declared.faults.PopKind.TheVariants.{Duplicate};
ghost use Rattle.flame_popfile.specs.PopulationFaults.{type_named, type_in, name_faults, member_name_faults};
ghost use Rattle.flame_popfile.specs.PopulationFaults.{memory_faults, rows_faults, content_faults, agent_parts, agent_faults};
ghost use Rattle.flame_popfile.specs.PopulationFaults.{agents_faults, taken_names};
ghost use Rattle.flame_popfile.specs.PopulationAgents.{memory_of, agents_in, agents_of};
ghost use Rattle.flame_popfile.specs.DealtAgents.{AreAdded, names_taken};
ghost use Rattle.flame_rows.specs.RowVectors.{rows_of, bags_of};
ghost use Rattle.flame_xmml.specs.ValuePlaces.{path_of};

use crate::faults::{PopFault, PopKind};
use crate::formats::Format;
use crate::kinds::{Kind, Kinds};
use crate::members::{add_rows_at, memory_at, memory_of};
use crate::parts::{fault, object};
use flame_name_sets::Names;
use flame_rows::{Bag, Fail, NoMemory, Row, Seq};
use flame_xmml::{Place, members, part};
use serde_json::Value;
use std::alloc::Global;

/// The agents of each type; there are none where they are missing.
pub(crate) fn agents_at(
    alloc: Global,
    format: Format,
    kinds: &Kinds<'_>,
    place: &Place<'_>,
    states: &Value,
) -> Result<Seq<Bag>, Fail<PopFault>>
    ensures { Reads
        (optional (list_faults (agents_faults format kinds.now)) (codes "agents") (path_of place.now) (view states.now))
        (agents_of format kinds.now (members_of (part (codes "agents") (view states.now))))
        result }
{
    match part(states, "agents") {
        Some(found) => agents_in_list(alloc, format, kinds, &Place::Key(place, "agents"), found),
        None => each_agent(alloc, format, kinds, &Place::Key(place, "agents"), &[]),
    }
}

/// The agents of each type that the list at a place holds.
fn agents_in_list(
    alloc: Global,
    format: Format,
    kinds: &Kinds<'_>,
    place: &Place<'_>,
    value: &Value,
) -> Result<Seq<Bag>, Fail<PopFault>>
    ensures { Reads
        (list_faults (agents_faults format kinds.now) (path_of place.now) (view value.now))
        (agents_of format kinds.now (members_of (view value.now)))
        result }
{
    match members(value) {
        Some(values) => each_agent(alloc, format, kinds, place, values),
        None => Err(fault(alloc, place, PopKind::Shape)),
    }
}

/// The agents of each type that these members of the list at a place hold.
fn each_agent<'p>(
    alloc: Global,
    format: Format,
    kinds: &Kinds<'_>,
    place: &'p Place<'p>,
    values: &[Value],
) -> Result<Seq<Bag>, Fail<PopFault>>
    ensures { Reads
        (agents_faults format kinds.now (path_of place.now) (map view values.now))
        (agents_of format kinds.now (map view values.now))
        result }
{
    let mut dealt = no_agents(alloc, kinds.count())?;
    let mut earlier = Names::new(alloc);
    for (number, value) in values.iter().enumerate() {
        let member = Place::Member(place, number);
        add_agent(
            alloc,
            format,
            kinds,
            &member,
            value,
            &mut earlier,
            &mut dealt,
        )?;
    }
    Ok(bags_of(alloc, dealt)?)
}

/// No agents, for so many types.
fn no_agents(alloc: Global, types: usize) -> Result<Vec<Vec<Row>>, NoMemory>
    ensures { IfOk result (λ dealt. rows_of dealt ≡ replicate types []) }
{
    let mut dealt = Vec::new(alloc);
    for _turn in 0..types {
        dealt.push(Vec::new(alloc))?;
    }
    Ok(dealt)
}

/// The bags of these rows.
fn bags_of(alloc: Global, dealt: Vec<Vec<Row>>) -> Result<Seq<Bag>, NoMemory>
    ensures { IfOk result (λ bags. bags ≡ bags_of dealt) }
{
    let mut bags = Vec::new(alloc);
    for rows in dealt {
        bags.push(Bag::of_rows(rows)?)?;
    }
    Ok(Seq::of(bags))
}

/// Adds the agents of the member at a place, after members of these names, to those of its type.
fn add_agent<'v>(
    alloc: Global,
    format: Format,
    kinds: &Kinds<'_>,
    place: &Place<'_>,
    value: &'v Value,
    earlier: &mut Names<'v>,
    dealt: &mut Vec<Vec<Row>>,
) -> Result<(), Fail<PopFault>>
    requires { length dealt.old.items ≡ length kinds.now }
    ensures passes { Passes
        (agent_faults format kinds.now earlier.old (path_of place.now) (view value.now))
        result }
    ensures names { OnOk result (earlier.new ≡ earlier.old ++ taken_names format (view value.now ∷ [])) }
    ensures agents { OnOk result
        (AreAdded format kinds.now (view value.now) (rows_of dealt.old) (rows_of dealt.new)) }
{
    object(alloc, place, value)?;
    add_named(alloc, format, kinds, place, value, earlier, dealt)?;
    Ok(())
}

/// Adds the agents of the object at a place, after members of these names, to those of its type.
fn add_named<'v>(
    alloc: Global,
    format: Format,
    kinds: &Kinds<'_>,
    place: &Place<'_>,
    value: &'v Value,
    earlier: &mut Names<'v>,
    dealt: &mut Vec<Vec<Row>>,
) -> Result<(), Fail<PopFault>>
    requires { length dealt.old.items ≡ length kinds.now }
    ensures passes { Passes
        (agent_parts format kinds.now earlier.old (path_of place.now) (view value.now))
        result }
    ensures names { OnOk result (earlier.new ≡ earlier.old ++ taken_names format (view value.now ∷ [])) }
    ensures agents { OnOk result
        (AreAdded format kinds.now (view value.now) (rows_of dealt.old) (rows_of dealt.new)) }
{
    let kind = kind_of(alloc, format, kinds, place, value, earlier)?;
    add_content(alloc, format, kind, place, value, &mut dealt[kind.number()])?;
    Ok(())
}

/// The type that the member at a place names, after members of these names.
fn kind_of<'k, 'v>(
    alloc: Global,
    format: Format,
    kinds: &'k Kinds<'_>,
    place: &Place<'_>,
    value: &'v Value,
    earlier: &mut Names<'v>,
) -> Result<&'k Kind<'k>, Fail<PopFault>>
    ensures none { OnOk result
        (member_name_faults kinds.now earlier.old (path_of place.now) (view value.now) ≡ []) }
    ensures kind { IfOk result (λ kind. type_in kinds.now (view value.now) ≡ Some kind.now) }
    ensures names { OnOk result (earlier.new ≡ earlier.old ++ taken_names format (view value.now ∷ [])) }
    ensures first { IfErr result
        (FailsFirst (member_name_faults kinds.now earlier.old (path_of place.now) (view value.now))) }
{
    match name_in(value) {
        Some(name) => kind_named(
            alloc,
            format,
            kinds,
            &Place::Key(place, "name"),
            name,
            earlier,
        ),
        None => Err(fault(alloc, &Place::Key(place, "name"), PopKind::Shape)),
    }
}

/// The type of the name at a place, after members of these names.
fn kind_named<'k, 'v>(
    alloc: Global,
    format: Format,
    kinds: &'k Kinds<'_>,
    place: &Place<'_>,
    name: &'v str,
    earlier: &mut Names<'v>,
) -> Result<&'k Kind<'k>, Fail<PopFault>>
    ensures none { OnOk result (name_faults kinds.now earlier.old (path_of place.now) name.now ≡ []) }
    ensures kind { IfOk result (λ kind. type_named kinds.now name.now ≡ Some kind.now) }
    ensures names { OnOk result (earlier.new ≡ earlier.old ++ names_taken format name.now) }
    ensures first { IfErr result
        (FailsFirst (name_faults kinds.now earlier.old (path_of place.now) name.now)) }
{
    match kinds.named(name) {
        Some(kind) => {
            add_name(alloc, format, place, name, earlier)?;
            Ok(kind)
        }
        None => Err(fault(alloc, place, PopKind::UnknownAgent)),
    }
}

/// Adds the name at a place, which is to be none of these, where a later member may not have it again.
fn add_name<'v>(
    alloc: Global,
    format: Format,
    place: &Place<'_>,
    name: &'v str,
    earlier: &mut Names<'v>,
) -> Result<(), Fail<PopFault>>
    ensures passes { Passes
        (if is_among name.now earlier.old then refused Duplicate (path_of place.now) else [])
        result }
    ensures names { OnOk result (earlier.new ≡ earlier.old ++ names_taken format name.now) }
{
    if earlier.has(name) {
        return Err(fault(alloc, place, PopKind::Duplicate));
    }
    match format {
        Format::One => Ok(()),
        Format::Two => {
            let _ = earlier.add(name)?;
            Ok(())
        }
    }
}

/// The name of a member, where it is a text.
fn name_in(value: &Value) -> Option<&str>
    ensures { option_map (λ name. name.now) result ≡ name_in (view value.now) }
{
    part(value, "name")?.as_str()
}

/// Adds what the member at a place holds, which is of this type.
fn add_content(
    alloc: Global,
    format: Format,
    kind: &Kind<'_>,
    place: &Place<'_>,
    value: &Value,
    rows: &mut Vec<Row>,
) -> Result<(), Fail<PopFault>>
    ensures passes { Passes (content_faults format kind.now.1 (path_of place.now) (view value.now)) result }
    ensures added { OnOk result
        (rows.new.items ≡ rows.old.items ++ agents_in format kind.now.1.memory (view value.now)) }
{
    match format {
        Format::One => add_memory(alloc, kind, place, value, rows),
        Format::Two => add_rows(alloc, kind, place, value, rows),
    }
}

/// Adds the agent that the member at a place holds, which is of this type.
fn add_memory(
    alloc: Global,
    kind: &Kind<'_>,
    place: &Place<'_>,
    value: &Value,
    rows: &mut Vec<Row>,
) -> Result<(), Fail<PopFault>>
    ensures passes { Passes
        (optional (memory_faults kind.now.1.memory) (codes "memory") (path_of place.now) (view value.now))
        result }
    ensures added { OnOk result (rows.new.items
        ≡ rows.old.items ++ memory_of kind.now.1.memory (part (codes "memory") (view value.now)) ∷ []) }
{
    let agent = kind.agent();
    let variables = agent.memory.items();
    memory_at(alloc, kind.lengths(), variables, place, value)?;
    let row = memory_of(alloc, variables, part(value, "memory"))?;
    rows.push(row)?;
    Ok(())
}

/// Adds the rows that the member at a place holds, which is of this type.
fn add_rows(
    alloc: Global,
    kind: &Kind<'_>,
    place: &Place<'_>,
    value: &Value,
    rows: &mut Vec<Row>,
) -> Result<(), Fail<PopFault>>
    ensures passes { Passes
        (optional (rows_faults (width kind.now.1.memory)) (codes "rows") (path_of place.now) (view value.now))
        result }
    ensures added { OnOk result (rows.new.items
        ≡ rows.old.items
        ++ map (numbers_of (width kind.now.1.memory)) (members_of (part (codes "rows") (view value.now)))) }
{
    add_rows_at(alloc, kind.wide() as usize, place, value, rows)?;
    Ok(())
}
